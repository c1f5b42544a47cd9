// How the body of a reply is framed.
ghost use Rattle.std.specs.Prelude.{ℕ, Some, None, IsNone, IsSome, nat_le, false, take, ◌≡◌, ◌≤◌, ◌<◌, ◌==◌, ◌&&◌, ◌∷◌, [], List, IfSome, MatchOption, not, length, codes, bytes_eq, true};
ghost use Rattle.std.specs.List.{All, list_all, list_any};
ghost use Rattle.std.specs.Char.{is_ascii_digit};
ghost use Rattle.std.specs.Str.Parse.{digits_value};
ghost use Rattle.httparse.specs.Spans.{IsHeaderWithin};
ghost use Rattle.tpf_base.specs.HttpReply.{is_nquads, is_number, is_coding, framing_of, sized_by, body_place, response_head, Sized};
ghost use Rattle.httparse.specs.Grammar.{ResponseHead, ReadsResponse};
ghost use Rattle.httparse.specs.Spans.{IsResponseAt, IsResponseWithin};
ghost use Rattle.http_wire.specs.Fields.{fields_at, names_nquads, values_at};
ghost use Rattle.http_wire.specs.Places.{start_place, interim_place, announced, final_of, judged_place};

use crate::fields::{count_named, first_place, is_named, is_word, says_close};
use crate::heads::{front, line_feeds};
use crate::message::ReplyFault;
use httparse::Status;
use httparse::spans::{EMPTY_HEADER_SPAN, HeaderSpan, ResponseSpans, parse_response};
use tpf_base::MOST_FIELDS;

/// The value of the first field of this name.
fn first_named<'a>(head: &'a [u8], headers: &[HeaderSpan], name: &[u8]) -> Option<&'a [u8]>
    requires { All (IsHeaderWithin (length head.now)) headers.now }
    ensures { MatchOption result (values_at name.now head.now headers.now ≡ [])
        (λ v. (more : List (List ℕ)) × (values_at name.now head.now headers.now ≡ v.now ∷ more)) }
{
    for header in headers {
        if is_named(name, header.name.of(head)) {
            return Some(header.value.of(head));
        }
    }
    None
}

/// Whether the value names the media type of N-Quads, with any parameters.
fn is_media_type(value: &[u8]) -> bool
    ensures { result ≡ names_nquads value.now }
{
    is_word(
        b"application/n-quads",
        front(value, first_place(value, b';')),
    )
}

/// Whether this first value is that media type, and the value of the only field of the name.
fn is_only_media_type(head: &[u8], headers: &[HeaderSpan], name: &[u8], value: &[u8]) -> bool
    requires { All (IsHeaderWithin (length head.now)) headers.now }
    ensures { result ≡ (length (values_at name.now head.now headers.now) == 1 && names_nquads value.now) }
{
    count_named(head, headers, name) == 1 && is_media_type(value)
}

/// Whether the one field of the name has the media type of N-Quads.
fn is_nquads(head: &[u8], headers: &[HeaderSpan], name: &[u8]) -> bool
    requires { All (IsHeaderWithin (length head.now)) headers.now }
    ensures { result ≡ is_nquads (values_at name.now head.now headers.now) }
{
    match first_named(head, headers, name) {
        Some(value) => is_only_media_type(head, headers, name, value),
        None => false,
    }
}

/// Whether the value is this word, in any case.
fn is_coding(word: &[u8], value: &[u8]) -> bool
    ensures { result ≡ is_coding word.now value.now }
{
    value.eq_ignore_ascii_case(word)
}

/// Whether a field of this name has another value than the word.
fn has_other(head: &[u8], headers: &[HeaderSpan], name: &[u8], word: &[u8]) -> bool
    requires { All (IsHeaderWithin (length head.now)) headers.now }
    ensures { result ≡ list_any (λ v. not (is_coding word.now v)) (values_at name.now head.now headers.now) }
{
    for header in headers {
        if is_named(name, header.name.of(head)) && !is_coding(word, header.value.of(head)) {
            return true;
        }
    }
    false
}

fn are_digits(value: &[u8]) -> bool
    ensures { result ≡ list_all is_ascii_digit value.now }
{
    value.iter().all(|b| b.is_ascii_digit())
}

/// Whether the value is one digit or more.
fn is_number(value: &[u8]) -> bool
    ensures { result ≡ is_number value.now }
{
    value.len() > 0 && are_digits(value)
}

/// The number of the digits, if it is within the limit.
#[tactic(auto, using(crate::proofs::FramingLemmas::number_step, crate::proofs::FramingLemmas::number_front, crate::proofs::FramingLemmas::number_low))]
fn number_within(digits: &[u8], limit: u64) -> Option<u64>
    requires { is_number digits.now ≡ true }
    ensures { MatchOption result (limit < digits_value 10 digits.now)
        (λ n. (n ≡ digits_value 10 digits.now) × (n ≤ limit)) }
{
    let mut n = 0u128;
    for d in digits {
        n = n * 10 + u128::from(*d - b'0');
        if n > u128::from(limit) {
            return None;
        }
    }
    Some(n as u64)
}

/// Whether each field of the name has this value.
fn are_all(head: &[u8], headers: &[HeaderSpan], name: &[u8], value: &[u8]) -> bool
    requires { All (IsHeaderWithin (length head.now)) headers.now }
    ensures { result ≡ list_all (λ v. bytes_eq v value.now) (values_at name.now head.now headers.now) }
{
    for header in headers {
        if is_named(name, header.name.of(head)) && header.value.of(head) != value {
            return false;
        }
    }
    true
}

/// How a reply goes on behind a final head.
#[derive(Clone, Copy)]
pub enum Next {
    Refused(ReplyFault),
    /// An empty body, and whether the connection may be kept.
    Empty(bool),
    /// A body of so many bytes.
    Sized(u64, bool),
    Chunked(bool),
    ToClose,
}

/// Whether this first value is a length, and the value of each field of the name.
fn is_length(head: &[u8], headers: &[HeaderSpan], name: &[u8], value: &[u8]) -> bool
    requires { All (IsHeaderWithin (length head.now)) headers.now }
    ensures { result ≡ (is_number value.now
        && list_all (λ v. bytes_eq v value.now) (values_at name.now head.now headers.now)) }
{
    is_number(value) && are_all(head, headers, name, value)
}

/// Whether this first value is the word, and the value of the only field of the name.
fn is_only(head: &[u8], headers: &[HeaderSpan], name: &[u8], value: &[u8], word: &[u8]) -> bool
    requires { All (IsHeaderWithin (length head.now)) headers.now }
    ensures { result ≡ (length (values_at name.now head.now headers.now) == 1 && is_coding word.now value.now) }
{
    count_named(head, headers, name) == 1 && is_coding(word, value)
}

/// How a reply goes on whose body has the length of these digits.
fn next_by_digits(digits: &[u8], keeps: bool, limit: u64) -> Next
    requires { is_number digits.now ≡ true }
    ensures { start_place result ≡ body_place limit (announced keeps (Some (Sized (digits_value 10 digits.now)))) }
{
    match number_within(digits, limit) {
        None => Next::Refused(ReplyFault::TooLong),
        Some(n) => {
            if n == 0 {
                Next::Empty(keeps)
            } else {
                Next::Sized(n, keeps)
            }
        }
    }
}

/// How a reply goes on whose Content-Length frames its body.
fn next_by_length(head: &[u8], headers: &[HeaderSpan], keeps: bool, limit: u64) -> Next
    requires { All (IsHeaderWithin (length head.now)) headers.now }
    ensures { start_place result ≡ body_place limit (announced keeps
        (sized_by (values_at (codes "content-length") head.now headers.now))) }
{
    match first_named(head, headers, b"content-length") {
        None => Next::ToClose,
        Some(value) => {
            if is_length(head, headers, b"content-length", value) {
                next_by_digits(value, keeps, limit)
            } else {
                Next::Refused(ReplyFault::Framing)
            }
        }
    }
}

/// How a reply goes on whose fields frame its body; `keeps` where the connection may be kept.
fn next_by_fields(head: &[u8], headers: &[HeaderSpan], keeps: bool, limit: u64) -> Next
    requires { All (IsHeaderWithin (length head.now)) headers.now }
    ensures { start_place result ≡ body_place limit (announced keeps (framing_of (fields_at head.now headers.now))) }
{
    match first_named(head, headers, b"transfer-encoding") {
        None => next_by_length(head, headers, keeps, limit),
        Some(coding) => {
            if is_only(head, headers, b"transfer-encoding", coding, b"chunked") {
                Next::Chunked(keeps)
            } else {
                Next::Refused(ReplyFault::Framing)
            }
        }
    }
}

/// What a final head says of the body.
#[tactic(auto, unfolding(tpf_base::specs::HttpReply::body_place, crate::specs::Places::final_of))]
fn final_head(head: &[u8], headers: &[HeaderSpan], version: u8, code: u16, limit: u64) -> Next
    requires within { All (IsHeaderWithin (length head.now)) headers.now }
    ensures { start_place result ≡ body_place limit (final_of code version (fields_at head.now headers.now)) }
{
    if code != 200 {
        return Next::Refused(ReplyFault::Status(code));
    }
    if !is_nquads(head, headers, b"content-type") {
        return Next::Refused(ReplyFault::MediaType);
    }
    if has_other(head, headers, b"content-encoding", b"identity") {
        return Next::Refused(ReplyFault::Coding);
    }
    next_by_fields(
        head,
        headers,
        version == 1 && !says_close(head, headers),
        limit,
    )
}

/// Where the parts of a reply head are that is all of the text.
#[tactic(auto, using(crate::proofs::ReplyLemmas::response_none))]
fn whole_response(head: &[u8], headers: &mut [HeaderSpan]) -> Option<ResponseSpans>
    requires room { (h : ResponseHead) → ReadsResponse head.now h [] → length h.fields ≤ length headers.old }
    ensures some { IfSome result (λ r. (h : ResponseHead) × (response_head head.now ≡ Some (record h { blank = [] }))
        × IsResponseAt head.now headers.new r h) }
    ensures within { IfSome result (λ r. IsResponseWithin head.now headers.new r) }
    ensures none { IsNone result → response_head head.now ≡ None }
{
    match parse_response(head, headers) {
        Ok(Status::Complete(read)) => {
            if read.len == head.len() {
                Some(read)
            } else {
                None
            }
        }
        _ => None,
    }
}

/// Whether a response of this status is passed over.
fn is_interim(code: u16) -> bool
    ensures { result ≡ (nat_le 100 code && nat_le code 199) }
{
    code >= 100 && code <= 199
}

/// How a reply goes on behind a head whose parts are known; `None` where it is passed over.
fn next_of(head: &[u8], read: ResponseSpans, headers: &[HeaderSpan], limit: u64) -> Option<Next>
    requires within { IsResponseWithin head.now headers.now read }
    ensures final_head { IfSome result (λ n. start_place n ≡ body_place limit
        (final_of read.code read.version (fields_at head.now (take read.headers headers.now)))) }
    ensures interim { IsNone result → (nat_le 100 read.code && nat_le read.code 199) ≡ true }
    ensures not_interim { IsSome result → (nat_le 100 read.code && nat_le read.code 199) ≡ false }
{
    if is_interim(read.code) {
        return None;
    }
    Some(final_head(
        head,
        &headers[..read.headers],
        read.version,
        read.code,
        limit,
    ))
}

/// How a reply goes on behind a whole head; `None` where the head is passed over.
pub fn judge_reply(head: &[u8], limit: u64) -> Option<Next>
    ensures { MatchOption result ((passed : ℕ) → judged_place limit passed head.now ≡ interim_place passed)
        (λ n. (passed : ℕ) → judged_place limit passed head.now ≡ start_place n) }
{
    if line_feeds(head) > MOST_FIELDS + 2 {
        return Some(Next::Refused(ReplyFault::Head));
    }
    let mut headers = [EMPTY_HEADER_SPAN; MOST_FIELDS];
    match whole_response(head, &mut headers) {
        None => Some(Next::Refused(ReplyFault::Head)),
        Some(read) => next_of(head, read, &headers, limit),
    }
}

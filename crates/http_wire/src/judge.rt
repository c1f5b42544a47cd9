// What becomes of one whole request head.
ghost use Rattle.std.specs.Prelude.{◌||◌, codes, ◌≡◌, ◌≤◌, ◌==◌, [], length, IfOk, IfSome, IsNone, Some, None};
ghost use Rattle.std.specs.List.{All};
ghost use Rattle.httparse.specs.Grammar.{RequestHead as HeadTree, ReadsRequest};
ghost use Rattle.httparse.specs.Spans.{IsHeaderWithin, IsRequestAt, IsRequestWithin};
ghost use Rattle.tpf_base.specs.HttpHeads.{blank_length, judged, judged_head, names_host, closes, taken_whole, says_close, has_body};
ghost use Rattle.tpf_base.specs.HttpReader.{read_request};
ghost use Rattle.http_wire.specs.Fields.{fields_at, values_at};
ghost use Rattle.http_wire.specs.Requests.{asked_of, shown_verdict};

use crate::heads::line_feeds;
use crate::message::{Asked, NextHead, RequestHead};
use crate::{fields, target};
use httparse::Status;
use httparse::spans::{EMPTY_HEADER_SPAN, HeaderSpan, RequestSpans, parse_request};
use std::alloc::Global;
use tpf_base::{MOST_FIELDS, OutOfMemory};

fn method_of(method: &[u8]) -> Asked
    ensures { result ≡ asked_of method.now }
{
    if method == b"GET".as_slice() {
        Asked::Get
    } else if method == b"HEAD".as_slice() {
        Asked::Head
    } else {
        Asked::Other
    }
}

/// Where the parts of a request head are that is all of the text.
#[tactic(auto, using(crate::proofs::JudgeLemmas::reads_whole, crate::proofs::JudgeLemmas::reads_none))]
fn whole_request(head: &[u8], headers: &mut [HeaderSpan]) -> Option<RequestSpans>
    requires begins { blank_length head.now ≡ 0 }
    requires room { (h : HeadTree) → ReadsRequest head.now h [] → length h.fields ≤ length headers.old }
    ensures some { IfSome result (λ r. (h : HeadTree) × (taken_whole (read_request head.now) ≡ Some h)
        × IsRequestAt head.now headers.new r h) }
    ensures within { IfSome result (λ r. IsRequestWithin head.now headers.new r) }
    ensures none { IsNone result → taken_whole (read_request head.now) ≡ None }
{
    match parse_request(head, headers) {
        Ok(Status::Complete(read)) => {
            if read.len == head.len() {
                Some(read)
            } else {
                None
            }
        }
        _ => None,
    }
}

/// Whether a head of this version names its host as it must.
fn names_host(head: &[u8], headers: &[HeaderSpan], version: u8) -> bool
    requires { All (IsHeaderWithin (length head.now)) headers.now }
    ensures { result ≡ (version == 0 || length (values_at (codes "host") head.now headers.now) == 1) }
{
    version == 0 || fields::count_named(head, headers, b"host") == 1
}

/// Whether the connection ends with the request.
fn closes(head: &[u8], headers: &[HeaderSpan], version: u8) -> bool
    requires { All (IsHeaderWithin (length head.now)) headers.now }
    ensures { result ≡ (version == 0
        || (says_close (fields_at head.now headers.now) || has_body (fields_at head.now headers.now))) }
{
    version == 0 || fields::says_close(head, headers) || fields::has_body(head, headers)
}

/// The request of a head whose parts are known.
#[tactic(auto, using(crate::proofs::JudgeLemmas::pairs_at))]
fn request_of(
    alloc: Global,
    head: &[u8],
    read: RequestSpans,
    headers: &[HeaderSpan],
) -> Result<NextHead, OutOfMemory>
    requires within { IsRequestWithin head.now headers.now read }
    ensures { (h : HeadTree) → IsRequestAt head.now headers.now read h
        → IfOk result (λ n. n ≡ shown_verdict (judged_head (Some h))) }
{
    let headers = &headers[..read.headers];
    let path = read.path.of(head);
    if !names_host(head, headers, read.version) || !target::is_target(path) {
        return Ok(NextHead::Bad(400));
    }
    Ok(NextHead::Head(RequestHead {
        method: method_of(read.method.of(head)),
        target: target::origin_form(alloc, path)?,
        closes: closes(head, headers, read.version),
    }))
}

/// What becomes of a whole head.
#[tactic(auto, unfolding(tpf_base::specs::HttpHeads::judged))]
pub fn judge(alloc: Global, head: &[u8]) -> Result<NextHead, OutOfMemory>
    requires { blank_length head.now ≡ 0 }
    ensures { IfOk result (λ n. n ≡ shown_verdict (judged head.now)) }
{
    if line_feeds(head) > MOST_FIELDS + 2 {
        return Ok(NextHead::Bad(431));
    }
    let mut headers = [EMPTY_HEADER_SPAN; MOST_FIELDS];
    match whole_request(head, &mut headers) {
        Some(read) => request_of(alloc, head, read, &headers),
        None => Ok(NextHead::Bad(400)),
    }
}

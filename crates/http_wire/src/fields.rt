// The fields of a head, by their names.
ghost use Rattle.std.specs.Prelude.{◌≡◌, ◌==◌, ◌||◌, ◌≤◌, length, reverse, not, codes, bytes_eq};
ghost use Rattle.std.specs.List.{All, list_any, position_or_len};
ghost use Rattle.std.specs.Str.{str_eq_ignore_ascii_case};
ghost use Rattle.httparse.specs.Grammar.{is_ows, skip_ows, trim_ows};
ghost use Rattle.httparse.specs.Spans.{IsHeaderWithin};
ghost use Rattle.tpf_base.specs.HttpHeads.{is_word, has_word, says_close, has_body};
ghost use Rattle.http_wire.specs.Fields.{fields_at, values_at};

use httparse::spans::HeaderSpan;

fn is_blank(b: u8) -> bool
    ensures { result ≡ is_ows b }
{
    b == b' ' || b == b'\t'
}

/// The bytes from the first that is no blank.
pub fn skip_blanks(bytes: &[u8]) -> &[u8]
    ensures { result.now ≡ skip_ows bytes.now }
{
    let mut rest = bytes;
    while let [first, after @ ..] = rest {
        if !is_blank(*first) {
            break;
        }
        rest = after;
    }
    rest
}

/// The bytes up to the last that is no blank.
fn cut_blanks(bytes: &[u8]) -> &[u8]
    ensures { result.now ≡ reverse (skip_ows (reverse bytes.now)) }
{
    let mut rest = bytes;
    while let [before @ .., last] = rest {
        if !is_blank(*last) {
            break;
        }
        rest = before;
    }
    rest
}

/// Whether the part of a value is this word, in any case.
#[tactic(auto, unfolding(tpf_base::specs::HttpHeads::is_word, httparse::specs::Grammar::trim_ows))]
pub fn is_word(word: &[u8], part: &[u8]) -> bool
    ensures { result ≡ is_word word.now part.now }
{
    cut_blanks(skip_blanks(part)).eq_ignore_ascii_case(word)
}

/// Where the byte stands first, or the length.
pub fn first_place(bytes: &[u8], byte: u8) -> usize
    ensures is { result ≡ position_or_len (λ b. b == byte) bytes.now }
    ensures within { result ≤ length bytes.now }
{
    bytes.iter().position(|b| *b == byte).unwrap_or(bytes.len())
}

/// Whether the list with commas holds this word.
#[tactic(auto, unfolding(tpf_base::specs::HttpHeads::has_word))]
pub fn has_word(word: &[u8], value: &[u8]) -> bool
    ensures { result ≡ has_word word.now value.now }
{
    value.split(|b| *b == b',').any(|part| is_word(word, part))
}

/// Whether the name is this one, in any case.
pub fn is_named(name: &[u8], header: &[u8]) -> bool
    ensures { result ≡ str_eq_ignore_ascii_case header.now name.now }
{
    header.eq_ignore_ascii_case(name)
}

/// How many fields have the name.
pub fn count_named(head: &[u8], headers: &[HeaderSpan], name: &[u8]) -> usize
    requires { All (IsHeaderWithin (length head.now)) headers.now }
    ensures { result ≡ length (values_at name.now head.now headers.now) }
{
    let mut count = 0usize;
    for header in headers {
        if is_named(name, header.name.of(head)) {
            count += 1;
        }
    }
    count
}

/// Whether a Connection field holds the word `close`.
pub fn says_close(head: &[u8], headers: &[HeaderSpan]) -> bool
    requires { All (IsHeaderWithin (length head.now)) headers.now }
    ensures { result ≡ says_close (fields_at head.now headers.now) }
{
    for header in headers {
        if is_named(b"connection", header.name.of(head))
            && has_word(b"close", header.value.of(head))
        {
            return true;
        }
    }
    false
}

/// Whether a Content-Length field has a value other than `0`.
fn has_length(head: &[u8], headers: &[HeaderSpan]) -> bool
    requires { All (IsHeaderWithin (length head.now)) headers.now }
    ensures { result ≡ list_any (λ v. not (bytes_eq v (codes "0")))
        (values_at (codes "content-length") head.now headers.now) }
{
    for header in headers {
        if is_named(b"content-length", header.name.of(head))
            && header.value.of(head) != b"0".as_slice()
        {
            return true;
        }
    }
    false
}

/// Whether the fields announce a body.
pub fn has_body(head: &[u8], headers: &[HeaderSpan]) -> bool
    requires { All (IsHeaderWithin (length head.now)) headers.now }
    ensures { result ≡ has_body (fields_at head.now headers.now) }
{
    count_named(head, headers, b"transfer-encoding") > 0 || has_length(head, headers)
}

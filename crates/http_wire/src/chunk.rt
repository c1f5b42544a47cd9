// Chunk lines (RFC 9112, section 7.1), by a grammar of this project: one digit to
// `MOST_CHUNK_DIGITS`, any blanks, and nothing or a semicolon and an extension.
ghost use Rattle.std.specs.Prelude.{◌≡◌, ◌<◌, ◌^◌, ◌&&◌, nat_lt, nat_le, length, true};
ghost use Rattle.std.specs.List.{list_all};
ghost use Rattle.std.specs.Char.{is_ascii_hexdigit, digit_value};
ghost use Rattle.std.specs.Str.Parse.{digits_value};
ghost use Rattle.httparse.specs.Grammar.{is_extension_byte, skip_ows};
ghost use Rattle.tpf_base.specs.declared.limits.TheConstants.{MOST_CHUNK_DIGITS};
ghost use Rattle.tpf_base.specs.HttpReader.{split_run};
ghost use Rattle.tpf_base.specs.HttpReply.{chunk_size, is_line_rest};

use crate::fields::skip_blanks;
use crate::heads::front;
use tpf_base::MOST_CHUNK_DIGITS;

/// What follows the hexadecimal digits at the front.
#[tactic(auto, unfolding(tpf_base::specs::HttpReader::split_run))]
fn after_digits(line: &[u8]) -> &[u8]
    ensures { result.now ≡ (split_run is_ascii_hexdigit line.now).1 }
{
    let mut rest = line;
    while let [first, after @ ..] = rest {
        if !first.is_ascii_hexdigit() {
            break;
        }
        rest = after;
    }
    rest
}

fn is_extension_byte(b: u8) -> bool
    ensures { result ≡ is_extension_byte b }
{
    !(b == b'\r' || b == b'\n')
}

/// What follows an extension at the front.
#[tactic(auto, unfolding(tpf_base::specs::HttpReader::split_run))]
fn after_extension(text: &[u8]) -> &[u8]
    ensures { result.now ≡ (split_run is_extension_byte text.now).1 }
{
    let mut rest = text;
    while let [first, after @ ..] = rest {
        if !is_extension_byte(*first) {
            break;
        }
        rest = after;
    }
    rest
}

/// Whether this may follow the size and its blanks.
fn is_line_rest(rest: &[u8]) -> bool
    ensures { result ≡ is_line_rest rest.now }
{
    match rest {
        [b';', extension @ ..] => after_extension(extension) == b"\r\n".as_slice(),
        _ => rest == b"\r\n".as_slice(),
    }
}

/// The value of a hexadecimal digit.
fn digit(b: u8) -> u64
    requires { is_ascii_hexdigit b ≡ true }
    ensures { result ≡ digit_value b }
{
    if b <= b'9' {
        u64::from(b - b'0')
    } else if b <= b'F' {
        u64::from(b - b'A') + 10
    } else {
        u64::from(b - b'a') + 10
    }
}

/// The number that hexadecimal digits write.
#[tactic(auto, using(crate::proofs::ChunkLemmas::hex_step, crate::proofs::ChunkLemmas::hex_front, crate::proofs::ChunkLemmas::hex_digit))]
fn hexadecimal(digits: &[u8]) -> u64
    requires digits { list_all is_ascii_hexdigit digits.now ≡ true }
    requires fits { digits_value 16 digits.now < 2 ^ 60 }
    ensures { result ≡ digits_value 16 digits.now }
{
    let mut n = 0u64;
    for d in digits {
        n = n * 16 + digit(*d);
    }
    n
}

/// The digits at the front, and what follows them.
fn split_digits(line: &[u8]) -> (&[u8], &[u8])
    ensures digits { result.0.now ≡ (split_run is_ascii_hexdigit line.now).0 }
    ensures rest { result.1.now ≡ (split_run is_ascii_hexdigit line.now).1 }
{
    let rest = after_digits(line);
    let count = line.len().saturating_sub(rest.len());
    (front(line, count), rest)
}

/// Whether these are the parts of a chunk line.
fn are_parts(digits: &[u8], rest: &[u8]) -> bool
    ensures { result ≡ (nat_lt 0 (length digits.now)
        && (nat_le (length digits.now) MOST_CHUNK_DIGITS && is_line_rest (skip_ows rest.now))) }
{
    digits.len() > 0 && digits.len() <= MOST_CHUNK_DIGITS && is_line_rest(skip_blanks(rest))
}

/// The size that a whole chunk line gives.
pub fn chunk_size(line: &[u8]) -> Option<u64>
    ensures { result ≡ chunk_size line.now }
{
    let (digits, rest) = split_digits(line);
    if are_parts(digits, rest) {
        Some(hexadecimal(digits))
    } else {
        None
    }
}

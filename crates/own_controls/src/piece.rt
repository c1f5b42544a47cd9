// Pieces of a text.
ghost use Rattle.std.specs.Prelude.{◌≡◌, ◌++◌, ◌∷◌, ◌<◌, length, IfSome, List, ℕ};

use memchr::memchr;
use std::str;

/// What stands behind these bytes at the front.
pub(crate) fn behind_bytes<'a>(bytes: &'a [u8], front: &[u8]) -> Option<&'a [u8]>
    ensures { IfSome result (λ rest. bytes.now ≡ front.now ++ rest.now) }
{
    bytes.strip_prefix(front)
}

/// What stands behind a piece at the front.
pub(crate) fn behind<'a>(bytes: &'a [u8], piece: &str) -> Option<&'a [u8]>
    ensures { IfSome result (λ rest. bytes.now ≡ piece.now ++ rest.now) }
{
    if piece.is_empty() {
        return Some(bytes);
    }
    behind_bytes(bytes, piece.as_bytes())
}

/// What stands behind two pieces at the front.
pub(crate) fn behind_two<'a>(bytes: &'a [u8], one: &str, other: &str) -> Option<&'a [u8]>
    ensures { IfSome result (λ rest. bytes.now ≡ one.now ++ (other.now ++ rest.now)) }
{
    let from_other = behind(bytes, one)?;
    behind(from_other, other)
}

/// What stands behind the first line, where that ends with LF alone.
pub(crate) fn behind_end(bytes: &[u8]) -> Option<&[u8]>
    ensures line { IfSome result (λ rest. (line : List ℕ) × (bytes.now ≡ line ++ 10 ∷ rest.now)) }
    ensures shorter { IfSome result (λ rest. length rest.now < length bytes.now) }
{
    let n = memchr(b'\n', bytes)?;
    let (_, end) = bytes.split_at(n);
    match end {
        [b, rest @ ..] if *b == b'\n' => Some(rest),
        _ => None,
    }
}

/// The text before the mark.
pub(crate) fn text_to(bytes: &[u8], mark: u8) -> Option<&str> {
    let n = memchr(mark, bytes)?;
    let (text, _) = bytes.split_at(n);
    str::from_utf8(text).ok()
}

/// The text before the mark in a line that begins with an address in angle brackets and what follows it.
pub(crate) fn text_behind<'a>(
    line: &'a [u8],
    address: &str,
    middle: &str,
    mark: u8,
) -> Option<&'a str> {
    let from_middle = behind_two(line, "<", address)?;
    text_to(behind(from_middle, middle)?, mark)
}

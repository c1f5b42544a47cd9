// How far the parts of a line reach.
ghost use Rattle.std.specs.Prelude.{◌≡◌, ◌+◌, ◌<◌, ◌≤◌, length, drop, false, true, Option, Some, None, MatchOption, IfSome};
ghost use Rattle.std.specs.Str.{is_utf8};
ghost use Rattle.rdf_terms.specs.Iri.{is_iri_byte};
ghost use Rattle.rdf_terms.specs.Label.{is_label};
ghost use Rattle.rdf_terms.specs.Tag.{is_tag};
ghost use Rattle.nquads_text.specs.Grammar.{is_blank, is_hex, is_form_byte, is_short_escape};
ghost use Rattle.nquads_text.specs.declared.scan.Awaits.TheVariants.{Item};
ghost use Rattle.nquads_text.specs.Scan.{skipped, opened, is_over, is_item, digits_left, digits_after, iri_step, form_step, iri_end, form_end, is_label_byte, label_len, is_tag_byte, tag_len};

use crate::lanes::{form_run_end, iri_run_end};
use rdf_terms::is_marked;
use std::str;

fn is_blank(b: u8) -> bool
    ensures { result ≡ is_blank b }
{
    b == b' ' || b == b'\t'
}

/// The bytes after the blanks at the front.
pub fn skipped(bytes: &[u8]) -> &[u8]
    ensures { result.now ≡ skipped bytes.now }
{
    for (i, b) in bytes.iter().enumerate() {
        if !is_blank(*b) {
            return &bytes[i..];
        }
    }
    &[]
}

/// The bytes after an x at the front.
pub fn opened(bytes: &[u8], x: u8) -> Option<&[u8]>
    ensures { MatchOption result (opened x bytes.now ≡ None) (λ rest. opened x bytes.now ≡ Some rest.now) }
{
    match bytes {
        [b, rest @ ..] if *b == x => Some(rest),
        _ => None,
    }
}

/// Whether nothing is left but a comment.
pub fn is_over(bytes: &[u8]) -> bool
    ensures { result ≡ is_over bytes.now }
{
    match bytes {
        [] => true,
        [b, ..] => *b == b'#',
    }
}

fn is_hex(b: u8) -> bool
    ensures { result ≡ is_hex b }
{
    b.is_ascii_hexdigit()
}

/// The test of `rdf_terms::is_iri_byte`. Small letters come first, since most of the bytes that it is made of are such:
/// those of an IRI that are not passed over sixteen at a time.
pub fn is_iri_byte(b: u8) -> bool
    ensures { result ≡ is_iri_byte b }
{
    (b >= b'a' && b <= b'z')
        || b > b' '
            && !matches!(
                b,
                b'<' | b'>' | b'"' | b'{' | b'}' | b'|' | b'^' | b'`' | b'\\'
            )
}

/// Whether a byte stands for itself in a form: all but the quote, the backslash, LF and CR.
pub fn is_form_byte(b: u8) -> bool
    ensures { result ≡ is_form_byte b }
{
    !is_marked(b)
}

fn is_short_escape(b: u8) -> bool
    ensures { result ≡ is_short_escape b }
{
    matches!(b, b't' | b'b' | b'n' | b'r' | b'f' | b'"' | b'\'' | b'\\')
}

/// What the text between two marks, `<` and `>` of an IRI or two quotes, awaits. An item is a character or an escape.
#[derive(Clone, Copy)]
pub enum Awaits {
    /// An item.
    Item,
    /// What follows a backslash.
    Escape,
    /// A hexadecimal digit, and so many more behind it.
    Digits(u8),
}

/// Whether an item is awaited.
pub fn is_item(awaits: Awaits) -> bool
    ensures { result ≡ is_item awaits }
{
    matches!(awaits, Awaits::Item)
}

/// What is awaited where so many hexadecimal digits are still to come.
pub fn digits_left(n: u8) -> Awaits
    ensures { result ≡ digits_left n }
{
    if n == 0 {
        Awaits::Item
    } else {
        Awaits::Digits(n - 1)
    }
}

fn digits_after(b: u8) -> Option<Awaits>
    ensures { result ≡ digits_after b }
{
    match b {
        b'u' => Some(digits_left(4)),
        b'U' => Some(digits_left(8)),
        _ => None,
    }
}

fn iri_step(awaits: Awaits, b: u8) -> Option<Awaits>
    ensures { result ≡ iri_step awaits b }
{
    match awaits {
        Awaits::Item => {
            if b == b'\\' {
                Some(Awaits::Escape)
            } else if is_iri_byte(b) {
                Some(Awaits::Item)
            } else {
                None
            }
        }
        Awaits::Escape => digits_after(b),
        Awaits::Digits(more) => {
            if is_hex(b) {
                Some(digits_left(more))
            } else {
                None
            }
        }
    }
}

fn form_step(awaits: Awaits, b: u8) -> Option<Awaits>
    ensures { result ≡ form_step awaits b }
{
    match awaits {
        Awaits::Item => {
            if b == b'\\' {
                Some(Awaits::Escape)
            } else if is_form_byte(b) {
                Some(Awaits::Item)
            } else {
                None
            }
        }
        Awaits::Escape => {
            if is_short_escape(b) {
                Some(Awaits::Item)
            } else {
                digits_after(b)
            }
        }
        Awaits::Digits(more) => {
            if is_hex(b) {
                Some(digits_left(more))
            } else {
                None
            }
        }
    }
}

/// The place of the mark that ends an IRI, from a place where an item may begin.
fn iri_end_from(bytes: &[u8], from: usize) -> Option<usize>
    requires { from ≤ length bytes.now }
    ensures place { result ≡ iri_end Item from (drop from bytes.now) }
    ensures within { IfSome result (λ n. n < length bytes.now) }
{
    let mut awaits = Awaits::Item;
    for i in from..bytes.len() {
        if is_item(awaits) && bytes[i] == b'>' {
            return Some(i);
        }
        awaits = iri_step(awaits, bytes[i])?;
    }
    None
}

/// The place of the mark that ends an IRI.
pub fn iri_end(bytes: &[u8]) -> Option<usize>
    ensures place { result ≡ iri_end Item 0 bytes.now }
    ensures within { IfSome result (λ n. n < length bytes.now) }
{
    iri_end_from(bytes, iri_run_end(bytes))
}

/// The place of the quote that ends a form, the string of a literal, from a place where an item may begin.
fn form_end_from(bytes: &[u8], from: usize) -> Option<usize>
    requires { from ≤ length bytes.now }
    ensures place { result ≡ form_end Item from (drop from bytes.now) }
    ensures within { IfSome result (λ n. n < length bytes.now) }
{
    let mut awaits = Awaits::Item;
    for i in from..bytes.len() {
        if is_item(awaits) && bytes[i] == b'"' {
            return Some(i);
        }
        awaits = form_step(awaits, bytes[i])?;
    }
    None
}

/// The place of the quote that ends a form.
pub fn form_end(bytes: &[u8]) -> Option<usize>
    ensures place { result ≡ form_end Item 0 bytes.now }
    ensures within { IfSome result (λ n. n < length bytes.now) }
{
    form_end_from(bytes, form_run_end(bytes))
}

fn is_label_byte(b: u8) -> bool
    ensures { result ≡ is_label_byte b }
{
    b >= 128 || b.is_ascii_alphabetic() || b.is_ascii_digit() || b == b'_' || b == b':' || b == b'-'
}

/// The length of the label at the front.
pub fn label_len(bytes: &[u8]) -> usize
    ensures place { result ≡ label_len 0 0 bytes.now }
    ensures within { result ≤ length bytes.now }
{
    let mut end: usize = 0;
    for (i, b) in bytes.iter().enumerate() {
        if *b == b'.' {
            continue;
        }
        if !is_label_byte(*b) {
            return end;
        }
        end = i + 1;
    }
    end
}

fn is_tag_byte(b: u8) -> bool
    ensures { result ≡ is_tag_byte b }
{
    b.is_ascii_alphabetic() || b.is_ascii_digit() || b == b'-'
}

/// The length of the tag at the front.
pub fn tag_len(bytes: &[u8]) -> usize
    ensures place { result ≡ tag_len 0 bytes.now }
    ensures within { result ≤ length bytes.now }
{
    for (i, b) in bytes.iter().enumerate() {
        if !is_tag_byte(*b) {
            return i;
        }
    }
    bytes.len()
}

/// The text that these bytes are, if they are UTF-8.
pub fn as_text(bytes: &[u8]) -> Option<&str>
    ensures { MatchOption result (is_utf8 bytes.now ≡ false) (λ s. (s.now ≡ bytes.now) × (is_utf8 bytes.now ≡ true)) }
{
    match str::from_utf8(bytes) {
        Ok(text) => Some(text),
        Err(_) => None,
    }
}

/// Whether bytes are a label.
#[tactic(auto, unfolding(rdf_terms::specs::Label::is_label))]
pub fn is_label(bytes: &[u8]) -> bool
    ensures { result ≡ is_label bytes.now }
{
    match as_text(bytes) {
        None => false,
        Some(text) => rdf_terms::is_label(text),
    }
}

/// Whether bytes are a language tag.
#[tactic(auto, using(crate::proofs::TagTexts::only_text))]
pub fn is_tag(bytes: &[u8]) -> bool
    ensures { result ≡ is_tag bytes.now }
{
    match as_text(bytes) {
        None => false,
        Some(text) => rdf_terms::is_tag(text),
    }
}

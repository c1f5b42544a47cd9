// IRIs with a scheme.
ghost use Rattle.std.specs.Str.{IsUtf8};
ghost use Rattle.std.specs.Prelude.{ℕ, ◌≡◌, List, IsTrue, IfOk};
ghost use Rattle.std.specs.List.{list_all};
ghost use Rattle.rdf_terms.specs.Iri.{is_iri, is_iri_byte, is_scheme_byte, is_letter, has_colon, has_scheme};

use std::alloc::Global;
use std::marker::Model;
use text_base::{OutOfMemory, Text};

fn is_letter(b: u8) -> bool
    ensures { result ≡ is_letter b }
{
    b.is_ascii_alphabetic()
}

/// Whether a byte may stand in an IRI (N-Quads, IRIREF): no control character or space, and none of
/// `<>"{}|^`, backquote and backslash. All that may not stand is ASCII.
pub fn is_iri_byte(b: u8) -> bool
    ensures { result ≡ is_iri_byte b }
{
    b > b' '
        && !matches!(
            b,
            b'<' | b'>' | b'"' | b'{' | b'}' | b'|' | b'^' | b'`' | b'\\'
        )
}

fn is_scheme_byte(b: u8) -> bool
    ensures { result ≡ is_scheme_byte b }
{
    is_letter(b) || b.is_ascii_digit() || b == b'+' || b == b'-' || b == b'.'
}

fn has_colon(bytes: &[u8]) -> bool
    ensures { result ≡ has_colon bytes.now }
{
    for b in bytes {
        if *b == b':' {
            return true;
        }
        if !is_scheme_byte(*b) {
            return false;
        }
    }
    false
}

/// Whether a text begins with a scheme and a colon (RFC 3986 3.1).
pub fn has_scheme(bytes: &[u8]) -> bool
    ensures { result ≡ has_scheme bytes.now }
{
    match bytes {
        [] => false,
        [first, rest @ ..] => is_letter(*first) && has_colon(rest),
    }
}

fn are_iri_bytes(bytes: &[u8]) -> bool
    ensures { result ≡ list_all is_iri_byte bytes.now }
{
    bytes.iter().all(|b| is_iri_byte(*b))
}

/// Whether a text is an IRI with a scheme (N-Quads, IRIREF; RFC 3986 3.1).
pub fn is_iri(text: &str) -> bool
    ensures { result ≡ is_iri text.now }
{
    are_iri_bytes(text.as_bytes()) && has_scheme(text.as_bytes())
}

/// An IRI with a scheme, which contracts see as its bytes.
#[derive(Drop)]
pub struct IriText {
    text: Text,
}

impl Model for IriText {
    ghost use Rattle.std.specs.Prelude.{ℕ, ◌≡◌, List, true};
    ghost use Rattle.rdf_terms.specs.Iri.{is_iri};

    ghost Value = { List ℕ };

    ghost view = { λ i. i.text };

    ghost invariant = { λ i. is_iri i.text ≡ true };
}

impl IriText {
    /// The IRI.
    pub fn as_str(&self) -> &str
        ensures text { result.now ≡ self.now }
        ensures iri { IsTrue (is_iri self.now) }
        ensures utf8 { IsUtf8 self.now }
    {
        self.text.as_str()
    }

    /// Takes the text as it is, and no memory.
    pub fn from_text(text: Text) -> IriText
        requires { IsTrue (is_iri text) }
        ensures { result ≡ text }
    {
        IriText { text }
    }

    /// The same IRI again. Its one error is out of memory.
    pub fn copy(&self, alloc: Global) -> Result<IriText, OutOfMemory>
        ensures { IfOk result (λ i. i ≡ self.now) }
    {
        let text = Text::copy(alloc, self.text.as_str())?;
        Ok(IriText { text })
    }
}

impl PartialEq for IriText {
    ghost use Rattle.std.specs.Str.{bytes_eq};
    ghost use Rattle.std.specs.Cmp.{partial_equiv_from_equiv};
    ghost use Rattle.std.specs.Cmp.Lexicographic.{nat_list_eq_equiv};

    ghost eq = { bytes_eq };

    ghost laws = { partial_equiv_from_equiv nat_list_eq_equiv };

    fn eq(&self, other: &IriText) -> bool {
        self.text == other.text
    }
}

impl Eq for IriText {
    ghost use Rattle.std.specs.Cmp.Lexicographic.{nat_list_eq_equiv};

    ghost laws = { nat_list_eq_equiv };
}

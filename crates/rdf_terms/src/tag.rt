// Language tags.
ghost use Rattle.std.specs.Str.{IsUtf8};
ghost use Rattle.std.specs.Prelude.{ℕ, ◌≡◌, true, false, List, IsTrue, IfOk};
ghost use Rattle.rdf_terms.specs.Tag.{may_stand, runs_tag, lower, is_tag, is_lower_tag};

use std::alloc::Global;
use std::marker::Model;
use text_base::{OutOfMemory, Text};

/// Whether a byte may stand in the first group of a tag, or in a later one.
fn may_stand(in_first: bool, b: u8) -> bool
    ensures { result ≡ may_stand in_first b }
{
    if in_first {
        b.is_ascii_alphabetic()
    } else {
        b.is_ascii_alphanumeric()
    }
}

/// Whether the bytes are groups with a hyphen between them, the first of letters, the others of letters and digits.
fn runs_tag(bytes: &[u8]) -> bool
    ensures { result ≡ runs_tag true false bytes.now }
{
    let mut in_first = true;
    let mut has_byte = false;
    for b in bytes {
        if *b == b'-' {
            if !has_byte {
                return false;
            }
            in_first = false;
            has_byte = false;
        } else {
            if !may_stand(in_first, *b) {
                return false;
            }
            has_byte = true;
        }
    }
    has_byte
}

/// Whether a text is a language tag, without its `@`, in letters of either case (N-Quads, LANGTAG).
#[tactic(auto, using(crate::proofs::Tags::runs_is_tag))]
pub fn is_tag(text: &str) -> bool
    ensures { result ≡ is_tag text.now }
{
    runs_tag(text.as_bytes())
}

/// A text with A to Z turned to a to z. Its one error is out of memory.
pub fn lowered(alloc: Global, text: &str) -> Result<Text, OutOfMemory>
    ensures { IfOk result (λ t. t ≡ lower text.now) }
{
    let mut string = String::from_str(alloc, text)?;
    string.make_ascii_lowercase();
    Ok(Text::from_string(string))
}

/// A language tag in lower case, which contracts see as its bytes. RDF takes tags that differ in case for one (RDF 1.1
/// Concepts 3.3), so each is kept in lower case.
#[derive(Drop)]
pub struct Tag {
    text: Text,
}

impl Model for Tag {
    ghost use Rattle.std.specs.Prelude.{ℕ, ◌≡◌, List, true};
    ghost use Rattle.rdf_terms.specs.Tag.{is_lower_tag};

    ghost Value = { List ℕ };

    ghost view = { λ i. i.text };

    ghost invariant = { λ i. is_lower_tag i.text ≡ true };
}

impl Tag {
    /// Takes a tag in lower case as it is, and no memory.
    pub fn from_text(text: Text) -> Tag
        requires { IsTrue (is_lower_tag text) }
        ensures { result ≡ text }
    {
        Tag { text }
    }

    /// The tag in lower case, without `@`.
    pub fn as_str(&self) -> &str
        ensures text { result.now ≡ self.now }
        ensures tag { IsTrue (is_lower_tag self.now) }
        ensures utf8 { IsUtf8 self.now }
    {
        self.text.as_str()
    }

    /// The same tag again. Its one error is out of memory.
    pub fn copy(&self, alloc: Global) -> Result<Tag, OutOfMemory>
        ensures { IfOk result (λ i. i ≡ self.now) }
    {
        let text = Text::copy(alloc, self.text.as_str())?;
        Ok(Tag { text })
    }
}

impl PartialEq for Tag {
    ghost use Rattle.std.specs.Str.{bytes_eq};
    ghost use Rattle.std.specs.Cmp.{partial_equiv_from_equiv};
    ghost use Rattle.std.specs.Cmp.Lexicographic.{nat_list_eq_equiv};

    ghost eq = { bytes_eq };

    ghost laws = { partial_equiv_from_equiv nat_list_eq_equiv };

    fn eq(&self, other: &Tag) -> bool {
        self.text == other.text
    }
}

impl Eq for Tag {
    ghost use Rattle.std.specs.Cmp.Lexicographic.{nat_list_eq_equiv};

    ghost laws = { nat_list_eq_equiv };
}

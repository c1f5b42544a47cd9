// Labels of blank nodes.
ghost use Rattle.std.specs.Prelude.{ℕ, ◌≡◌, List, IsTrue, IfOk};
ghost use Rattle.std.specs.Str.{chars, IsUtf8};
ghost use Rattle.rdf_terms.specs.Label.{is_base, is_label_start, is_label_char, begins_label, are_label_chars, ends_in_dot, is_label};

use std::alloc::Global;
use std::marker::Model;
use text_base::{OutOfMemory, Text};

fn is_base(c: char) -> bool
    ensures { result ≡ is_base c }
{
    matches!(c, 'A'..='Z' | 'a'..='z' | '\u{00C0}'..='\u{00D6}' | '\u{00D8}'..='\u{00F6}' | '\u{00F8}'..='\u{2FF}'
        | '\u{370}'..='\u{37D}' | '\u{37F}'..='\u{1FFF}' | '\u{200C}'..='\u{200D}' | '\u{2070}'..='\u{218F}'
        | '\u{2C00}'..='\u{2FEF}' | '\u{3001}'..='\u{D7FF}' | '\u{F900}'..='\u{FDCF}' | '\u{FDF0}'..='\u{FFFD}'
        | '\u{10000}'..='\u{EFFFF}')
}

/// Whether a label may begin with this character, digits aside (N-Quads, PN_CHARS_U).
pub fn is_label_start(c: char) -> bool
    ensures { result ≡ is_label_start c }
{
    is_base(c) || c == '_' || c == ':'
}

/// Whether this character, a dot aside, may stand in a label (N-Quads, PN_CHARS).
pub fn is_label_char(c: char) -> bool
    ensures { result ≡ is_label_char c }
{
    is_label_start(c)
        || c == '-'
        || c.is_ascii_digit()
        || c == '\u{B7}'
        || matches!(c, '\u{300}'..='\u{36F}')
        || matches!(c, '\u{203F}'..='\u{2040}')
}

fn begins_label(text: &str) -> bool
    ensures { result ≡ begins_label (chars text.now) }
{
    match text.chars().next() {
        None => false,
        Some(c) => is_label_start(c) || c.is_ascii_digit(),
    }
}

fn are_label_chars(text: &str) -> bool
    ensures { result ≡ are_label_chars (chars text.now) }
{
    text.chars().all(|c| is_label_char(c) || c == '.')
}

fn ends_in_dot(bytes: &[u8]) -> bool
    ensures { result ≡ ends_in_dot bytes.now }
{
    match bytes.last() {
        None => false,
        Some(b) => *b == b'.',
    }
}

/// Whether a text is the label of a blank node, without its `_:` (N-Quads, BLANK_NODE_LABEL).
#[tactic(auto, unfolding(crate::specs::Label::is_label))]
pub fn is_label(text: &str) -> bool
    ensures { result ≡ is_label text.now }
{
    begins_label(text) && are_label_chars(text) && !ends_in_dot(text.as_bytes())
}

/// A label of a blank node, of any length, which contracts see as its bytes.
#[derive(Drop)]
pub struct Label {
    text: Text,
}

impl Model for Label {
    ghost use Rattle.std.specs.Prelude.{ℕ, ◌≡◌, List, true};
    ghost use Rattle.rdf_terms.specs.Label.{is_label};

    ghost Value = { List ℕ };

    ghost view = { λ i. i.text };

    ghost invariant = { λ i. is_label i.text ≡ true };
}

impl Label {
    /// Takes a label as it is, and no memory.
    pub fn from_text(text: Text) -> Label
        requires { IsTrue (is_label text) }
        ensures { result ≡ text }
    {
        Label { text }
    }

    /// The label, without `_:`.
    pub fn as_str(&self) -> &str
        ensures text { result.now ≡ self.now }
        ensures label { IsTrue (is_label self.now) }
        ensures utf8 { IsUtf8 self.now }
    {
        self.text.as_str()
    }

    /// The same label again. Its one error is out of memory.
    pub fn copy(&self, alloc: Global) -> Result<Label, OutOfMemory>
        ensures { IfOk result (λ i. i ≡ self.now) }
    {
        let text = Text::copy(alloc, self.text.as_str())?;
        Ok(Label { text })
    }
}

impl PartialEq for Label {
    ghost use Rattle.std.specs.Str.{bytes_eq};
    ghost use Rattle.std.specs.Cmp.{partial_equiv_from_equiv};
    ghost use Rattle.std.specs.Cmp.Lexicographic.{nat_list_eq_equiv};

    ghost eq = { bytes_eq };

    ghost laws = { partial_equiv_from_equiv nat_list_eq_equiv };

    fn eq(&self, other: &Label) -> bool {
        self.text == other.text
    }
}

impl Eq for Label {
    ghost use Rattle.std.specs.Cmp.Lexicographic.{nat_list_eq_equiv};

    ghost laws = { nat_list_eq_equiv };
}

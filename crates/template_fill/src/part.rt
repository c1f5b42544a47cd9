// The expressions of a template.
ghost use Rattle.std.specs.Prelude.{◌≡◌, ◌<◌, ◌++◌, true, Some, None, OnOk, MatchOption, IfOk, IfSome, IsErrOf};
ghost use Rattle.std.specs.List.{list_all, list_any};
ghost use Rattle.std.specs.Option.{option_copied};
ghost use Rattle.std.specs.String.{string_bytes};
ghost use Rattle.std.specs.Str.{bytes_eq};
ghost use Rattle.tpf_base.specs.Addresses.{is_address_byte};
ghost use Rattle.template_fill.specs.Templates.{is_name_byte, is_word, is_name, operator_of, before, after, names_of, shape_of, part_of, value_of, first_mark, next_mark, pair_text, part_text, pairs_text};

use crate::TemplateFault;
use crate::address::ascii_text;
use crate::spelled::are_address_bytes;
use crate::value::{Value, push_named_value};
use std::alloc::{AllocError, Global};
use std::marker::Model;
use tpf_base::Text;

/// What an expression writes before its first pair (RFC 6570, sections 3.2.8 and 3.2.9).
#[derive(Clone, Copy)]
pub enum Operator {
    /// `{?names}`, the form-style query expansion.
    Query,
    /// `{&names}`, the form-style query continuation.
    Continuation,
}

/// An expression of a template, and the text that follows it.
pub struct Part {
    operator: Operator,
    names: Vec<Text>,
    literal: Text,
}

// Written out, so that who drops one calls this, and does not take it apart at each exit.
impl Drop for Part {
    fn drop(self) {
        let Part {
            operator: _operator,
            names: _names,
            literal: _literal,
        } = self;
    }
}

impl Model for Part {
    ghost use Rattle.std.specs.Prelude.{◌≡◌, true};
    ghost use Rattle.template_fill.specs.Templates as templates;
    ghost use Rattle.template_fill.specs.Templates.{is_part};

    ghost Value = { templates.Part };

    ghost view = { λ p. record { operator = p.operator; names = p.names.items; literal = p.literal } };

    ghost invariant = { λ p. is_part p.names.items p.literal ≡ true };
}

fn is_name_byte(b: u8) -> bool
    ensures { result ≡ is_name_byte b }
{
    b.is_ascii_alphanumeric() || b == b'_'
}

fn are_name_bytes(bytes: &[u8]) -> bool
    ensures { result ≡ list_all is_name_byte bytes.now }
{
    bytes.iter().all(|b| is_name_byte(*b))
}

fn is_word(bytes: &[u8]) -> bool
    ensures { result ≡ is_word bytes.now }
{
    match bytes {
        [] => false,
        _ => are_name_bytes(bytes),
    }
}

/// What stands before the first x, and what stands after it, if there is one.
pub(crate) fn cut(bytes: &[u8], x: u8) -> (&[u8], Option<&[u8]>)
    ensures before { result.0.now ≡ before x bytes.now }
    ensures after { option_copied result.1 ≡ after x bytes.now }
{
    for (i, b) in bytes.iter().enumerate() {
        if *b == x {
            return (&bytes[..i], Some(&bytes[i + 1..]));
        }
    }
    (bytes, None)
}

/// Whether a text is words with single dots between them.
#[tactic(auto, unfolding(crate::specs::Templates::is_name))]
fn is_name(bytes: &[u8]) -> bool
    ensures { result ≡ is_name bytes.now }
{
    let mut rest = Some(bytes);
    while let Some(words) = rest {
        let (word, more) = cut(words, b'.');
        if !is_word(word) {
            return false;
        }
        rest = more;
    }
    true
}

/// The names between commas.
#[tactic(auto, unfolding(crate::specs::Templates::names_of))]
fn read_names(alloc: Global, bytes: &[u8]) -> Result<Vec<Text>, TemplateFault>
    ensures read { IfOk result (λ names. names_of bytes.now ≡ Some names.items) }
    ensures refused { IsErrOf result TemplateFault.BadTemplate → names_of bytes.now ≡ None }
{
    let mut names = Vec::new(alloc);
    let mut rest = Some(bytes);
    while let Some(text) = rest {
        let (name, more) = cut(text, b',');
        if !is_name(name) {
            return Err(TemplateFault::BadTemplate);
        }
        names.push(Text::copy(alloc, ascii_text(name))?)?;
        rest = more;
    }
    Ok(names)
}

fn operator_of(b: u8) -> Option<Operator>
    ensures { result ≡ operator_of b }
{
    match b {
        b'?' => Some(Operator::Query),
        b'&' => Some(Operator::Continuation),
        _ => None,
    }
}

/// The operator, the names and the literal of what follows a `{`.
#[tactic(auto, unfolding(crate::specs::Templates::shape_of))]
fn shape(bytes: &[u8]) -> Option<(Operator, &[u8], &[u8])>
    ensures shape { MatchOption result (shape_of bytes.now ≡ None)
        (λ s. shape_of bytes.now ≡ Some (s.0, s.1.now, s.2.now)) }
    ensures literal { IfSome result (λ s. list_all is_address_byte s.2.now ≡ true) }
{
    let [first, inside @ ..] = bytes else {
        return None;
    };
    let operator = operator_of(*first)?;
    let (names, after) = cut(inside, b'}');
    let literal = after?;
    if are_address_bytes(literal) {
        Some((operator, names, literal))
    } else {
        None
    }
}

/// The text of the value with this name.
fn value_of<'a>(values: &'a [Value], name: &Text) -> Option<&'a str>
    ensures { MatchOption result (value_of name.now values.now ≡ None)
        (λ text. value_of name.now values.now ≡ Some text.now) }
{
    for value in values {
        if value.name == *name {
            return Some(value.text.as_str());
        }
    }
    None
}

impl Operator {
    fn first_mark(self) -> char
        ensures { result ≡ first_mark self }
    {
        match self {
            Operator::Query => '?',
            Operator::Continuation => '&',
        }
    }
}

/// Appends a name and its value after a mark, where it has one, and tells the next mark.
fn push_pair(
    out: &mut String,
    mark: char,
    name: &Text,
    values: &[Value],
) -> Result<char, AllocError>
    requires { mark < 128 }
    ensures next { IfOk result (λ next. next ≡ next_mark mark (value_of name.now values.now)) }
    ensures text { OnOk result (string_bytes out.new
        ≡ string_bytes out.old ++ pair_text mark name.now (value_of name.now values.now)) }
{
    let Some(text) = value_of(values, name) else {
        return Ok(mark);
    };
    push_named_value(out, mark, name.as_str(), text)?;
    Ok('&')
}

/// Appends each name that has a value.
fn push_pairs(
    out: &mut String,
    operator: Operator,
    names: &[Text],
    values: &[Value],
) -> Result<(), AllocError>
    ensures { OnOk result (string_bytes out.new
        ≡ string_bytes out.old ++ pairs_text (first_mark operator) names.now values.now) }
{
    let mut mark = operator.first_mark();
    for name in names {
        mark = push_pair(out, mark, name, values)?;
    }
    Ok(())
}

impl Part {
    /// The part that a text is after its `{`.
    pub(crate) fn read(alloc: Global, bytes: &[u8]) -> Result<Part, TemplateFault>
        ensures read { IfOk result (λ part. part_of bytes.now ≡ Some part) }
        ensures refused { IsErrOf result TemplateFault.BadTemplate → part_of bytes.now ≡ None }
    {
        let Some((operator, names, literal)) = shape(bytes) else {
            return Err(TemplateFault::BadTemplate);
        };
        let names = read_names(alloc, names)?;
        let literal = Text::copy(alloc, ascii_text(literal))?;
        Ok(Part {
            operator,
            names,
            literal,
        })
    }

    /// Whether the expression has this name.
    pub(crate) fn has_name(&self, name: &str) -> bool
        ensures { result ≡ list_any (λ own. bytes_eq own name.now) self.now.names }
    {
        for own in &self.names {
            if own.as_str() == name {
                return true;
            }
        }
        false
    }

    /// Appends the expression filled with values, and what follows it.
    pub(crate) fn push(&self, out: &mut String, values: &[Value]) -> Result<(), AllocError>
        ensures text { OnOk result (string_bytes out.new ≡ string_bytes out.old ++ part_text values.now self.now) }
        ensures address { list_all is_address_byte (part_text values.now self.now) ≡ true }
    {
        push_pairs(out, self.operator, self.names.as_slice(), values)?;
        out.push_str(self.literal.as_str())
    }
}

// The terms and names of a query, with the marks between them.
ghost use Rattle.std.specs.Prelude.{◌≡◌, ◌<◌, ◌≤◌, ◌+◌, ◌-◌, ◌^◌, ◌++◌, ◌∷◌, length, OnOk, IfOk, option_copied};
ghost use Rattle.pattern_parser.specs.Names.{with_name, name_text};
ghost use Rattle.pattern_parser.specs.Numbers.{AreNumbered};
ghost use Rattle.pattern_parser.specs.Prefixes.{iri_text, iris};
ghost use Rattle.pattern_parser.specs.Items.{rdf_type, iri_term, typed_term, tagged_term, datatype_of, datatype_term, string_before, string_term, term_of, part_of, more_after, more, mark_of, item_of, items_after, names_after};

use crate::names::Names;
use crate::prefixes::{Prefixes, iri_text};
use bgp_core::Part;
use query_words::word::{Value, Word};
use rdf_terms::{IriText, Kind, Term, is_iri, is_lang_string, is_tag};
use std::alloc::Global;
use text_base::{OutOfMemory, Text};

/// A term or name with the place of its first token, or a mark.
#[derive(Drop)]
pub enum Item {
    Part(Part, usize),
    Dot,
    Semicolon,
    Comma,
}

/// Takes the text as it is, and no memory.
fn iri_term(text: Text) -> Term
    ensures { result ≡ iri_term text }
{
    if is_iri(text.as_str()) {
        Term::Iri(IriText::from_text(text))
    } else {
        Term::Literal {
            form: text,
            kind: Kind::Plain,
        }
    }
}

fn typed_term(alloc: Global, form: &str, datatype: &str) -> Result<Term, OutOfMemory>
    ensures { IfOk result (λ t. t ≡ typed_term form.now datatype.now) }
{
    if !is_iri(datatype) || is_lang_string(datatype) {
        return Term::plain(alloc, form);
    }
    match Term::typed(alloc, form, datatype) {
        Ok(term) => Ok(term),
        Err(_) => Err(OutOfMemory),
    }
}

fn tagged_term(alloc: Global, form: &str, tag: &str) -> Result<Term, OutOfMemory>
    ensures { IfOk result (λ t. t ≡ tagged_term form.now tag.now) }
{
    if !is_tag(tag) {
        return Term::plain(alloc, form);
    }
    match Term::tagged(alloc, form, tag) {
        Ok(term) => Ok(term),
        Err(_) => Err(OutOfMemory),
    }
}

#[tactic(auto, unfolding(crate::specs::Items::rdf_type))]
fn type_term(alloc: Global) -> Result<Term, OutOfMemory>
    ensures { IfOk result (λ t. t ≡ iri_term rdf_type) }
{
    let text = Text::copy(alloc, "http://www.w3.org/1999/02/22-rdf-syntax-ns#type")?;
    Ok(iri_term(text))
}

/// The datatype of a token that is a number or a truth value.
#[tactic(auto, unfolding(crate::specs::Items::xsd_integer, crate::specs::Items::xsd_decimal, crate::specs::Items::xsd_double, crate::specs::Items::xsd_boolean))]
fn datatype_of(value: &Value) -> &'static str
    ensures { result.now ≡ datatype_of value.now }
{
    match value {
        Value::Integer(_) => "http://www.w3.org/2001/XMLSchema#integer",
        Value::Decimal(_) => "http://www.w3.org/2001/XMLSchema#decimal",
        Value::Double(_) => "http://www.w3.org/2001/XMLSchema#double",
        _ => "http://www.w3.org/2001/XMLSchema#boolean",
    }
}

/// A literal with the datatype that a token stands for.
fn typed_by(
    alloc: Global,
    prefixes: &Prefixes,
    form: &str,
    datatype: &Value,
) -> Result<Term, OutOfMemory>
    ensures { IfOk result (λ t. t ≡ typed_term form.now (iri_text (iris prefixes.now) datatype.now)) }
{
    let text = iri_text(alloc, prefixes, datatype)?;
    typed_term(alloc, form, text.as_str())
}

/// A string with the datatype that comes first.
fn datatype_term(
    alloc: Global,
    prefixes: &Prefixes,
    form: &str,
    rest: &[Word],
) -> Result<Term, OutOfMemory>
    ensures { IfOk result (λ t. t ≡ datatype_term (iris prefixes.now) form.now rest.now) }
{
    match rest {
        [] => Term::plain(alloc, form),
        [datatype, ..] => typed_by(alloc, prefixes, form, &datatype.value),
    }
}

/// A string before a token and those after it.
fn string_before(
    alloc: Global,
    prefixes: &Prefixes,
    form: &str,
    value: &Value,
    rest: &[Word],
) -> Result<Term, OutOfMemory>
    ensures { IfOk result (λ t. t ≡ string_before (iris prefixes.now) form.now value.now rest.now) }
{
    match value {
        Value::Tag(tag) => tagged_term(alloc, form, tag.as_str()),
        Value::Carets => datatype_term(alloc, prefixes, form, rest),
        _ => Term::plain(alloc, form),
    }
}

/// A string with the tag or the datatype that follows it.
fn string_term(
    alloc: Global,
    prefixes: &Prefixes,
    form: &str,
    rest: &[Word],
) -> Result<Term, OutOfMemory>
    ensures { IfOk result (λ t. t ≡ string_term (iris prefixes.now) form.now rest.now) }
{
    match rest {
        [] => Term::plain(alloc, form),
        [word, more @ ..] => string_before(alloc, prefixes, form, &word.value, more),
    }
}

fn iri_part(alloc: Global, prefixes: &Prefixes, value: &Value) -> Result<Term, OutOfMemory>
    ensures { IfOk result (λ t. t ≡ iri_term (iri_text (iris prefixes.now) value.now)) }
{
    Ok(iri_term(iri_text(alloc, prefixes, value)?))
}

/// The term of a token that is no name, with those after it.
fn term_of(
    alloc: Global,
    prefixes: &Prefixes,
    value: &Value,
    rest: &[Word],
) -> Result<Option<Term>, OutOfMemory>
    ensures { IfOk result (λ o. o ≡ term_of (iris prefixes.now) value.now rest.now) }
{
    let term = match value {
        Value::Iri(_) | Value::Prefix(_) | Value::Prefixed(_, _) => {
            iri_part(alloc, prefixes, value)
        }
        Value::Str(form) => string_term(alloc, prefixes, form.as_str(), rest),
        Value::Integer(form) => typed_term(alloc, form.as_str(), datatype_of(value)),
        Value::Decimal(form) => typed_term(alloc, form.as_str(), datatype_of(value)),
        Value::Double(form) => typed_term(alloc, form.as_str(), datatype_of(value)),
        Value::True => typed_term(alloc, "true", datatype_of(value)),
        Value::False => typed_term(alloc, "false", datatype_of(value)),
        Value::TypeWord => type_term(alloc),
        _ => return Ok(None),
    };
    Ok(Some(term?))
}

/// The text of a token that is a name.
#[tactic(auto, unfolding(crate::specs::Names::anonymous))]
fn name_text(value: &Value) -> Option<&str>
    ensures { option_copied result ≡ name_text value.now }
{
    match value {
        Value::Variable(text) => Some(text.as_str()),
        Value::Label(text) => Some(text.as_str()),
        Value::Anonymous => Some("_:[]"),
        _ => None,
    }
}

/// The term or name of a token, with those after it.
fn part_of(
    alloc: Global,
    prefixes: &Prefixes,
    names: &mut Names,
    value: &Value,
    rest: &[Word],
) -> Result<Option<Part>, OutOfMemory>
    requires numbered { AreNumbered names.old }
    requires few { length names.old.texts.items < 2 ^ 32 - 1 }
    ensures part { IfOk result (λ o. o ≡ part_of (iris prefixes.now) names.old.texts.items value.now rest.now) }
    ensures names { OnOk result (names.new.texts.items ≡ with_name names.old.texts.items (name_text value.now)) }
    ensures numbered { OnOk result (AreNumbered names.new) }
{
    match name_text(value) {
        Some(text) => Ok(Some(Part::Name(names.number(alloc, text)?))),
        None => match term_of(alloc, prefixes, value, rest)? {
            Some(term) => Ok(Some(Part::Fixed(term))),
            None => Ok(None),
        },
    }
}

fn more_after(rest: &[Word]) -> usize
    ensures { result ≡ more_after rest.now }
{
    match rest {
        [] => 0,
        [word, ..] => match &word.value {
            Value::Tag(_) => 1,
            Value::Carets => 2,
            _ => 0,
        },
    }
}

/// How many tokens after a token belong to it.
pub fn more(value: &Value, rest: &[Word]) -> usize
    ensures { result ≡ more value.now rest.now }
{
    match value {
        Value::Str(_) => more_after(rest),
        _ => 0,
    }
}

fn push_mark(items: &mut Vec<Item>, value: &Value) -> Result<(), OutOfMemory>
    ensures { OnOk result (items.new.items ≡ items.old.items ++ mark_of value.now) }
{
    let mark = match value {
        Value::Dot => Item::Dot,
        Value::Semicolon => Item::Semicolon,
        Value::Comma => Item::Comma,
        _ => return Ok(()),
    };
    items.push(mark)?;
    Ok(())
}

fn push_item(
    items: &mut Vec<Item>,
    part: Option<Part>,
    at: usize,
    value: &Value,
) -> Result<(), OutOfMemory>
    ensures { OnOk result (items.new.items ≡ items.old.items ++ item_of part at value.now) }
{
    match part {
        Some(part) => {
            items.push(Item::Part(part, at))?;
            Ok(())
        }
        None => push_mark(items, value),
    }
}

/// Takes a token that belongs to none before it, and says how many of those after it belong to it.
fn take_word(
    alloc: Global,
    prefixes: &Prefixes,
    names: &mut Names,
    items: &mut Vec<Item>,
    word: &Word,
    rest: &[Word],
) -> Result<usize, OutOfMemory>
    requires numbered { AreNumbered names.old }
    requires few { length names.old.texts.items < 2 ^ 32 - 1 }
    ensures more { IfOk result (λ n. n ≡ more word.now.value rest.now) }
    ensures items { OnOk result (items.new.items ≡ items.old.items
        ++ item_of (part_of (iris prefixes.now) names.old.texts.items word.now.value rest.now)
        word.now.at word.now.value) }
    ensures names { OnOk result (names.new.texts.items ≡ with_name names.old.texts.items (name_text word.now.value)) }
    ensures numbered { OnOk result (AreNumbered names.new) }
{
    let part = part_of(alloc, prefixes, names, &word.value, rest)?;
    push_item(items, part, word.at, &word.value)?;
    Ok(more(&word.value, rest))
}

/// Takes a token, where so many from it on belong to one before it, and says how many of those
/// after it belong to one before them.
fn take_or_skip(
    alloc: Global,
    prefixes: &Prefixes,
    names: &mut Names,
    items: &mut Vec<Item>,
    word: &Word,
    rest: &[Word],
    skip: usize,
) -> Result<usize, OutOfMemory>
    requires numbered { AreNumbered names.old }
    requires few { length names.old.texts.items < 2 ^ 32 - 1 }
    ensures items { IfOk result (λ n.
        items.new.items ++ items_after (iris prefixes.now) names.new.texts.items n rest.now
        ≡ items.old.items ++ items_after (iris prefixes.now) names.old.texts.items skip (word.now ∷ rest.now)) }
    ensures names { IfOk result (λ n. names_after names.new.texts.items n rest.now
        ≡ names_after names.old.texts.items skip (word.now ∷ rest.now)) }
    ensures numbered { OnOk result (AreNumbered names.new) }
    ensures few { OnOk result (length names.new.texts.items ≤ length names.old.texts.items + 1) }
{
    if skip > 0 {
        return Ok(skip - 1);
    }
    take_word(alloc, prefixes, names, items, word, rest)
}

/// The items of some tokens, whose names join those given. `OutOfMemory` comes only where memory runs
/// out.
pub fn items_of(
    alloc: Global,
    prefixes: &Prefixes,
    names: &mut Names,
    words: &[Word],
) -> Result<Vec<Item>, OutOfMemory>
    requires numbered { AreNumbered names.old }
    requires few { length names.old.texts.items + length words.now < 2 ^ 32 - 1 }
    ensures items { IfOk result (λ v. v.items ≡ items_after (iris prefixes.now) names.old.texts.items 0 words.now) }
    ensures names { OnOk result (names.new.texts.items ≡ names_after names.old.texts.items 0 words.now) }
    ensures numbered { OnOk result (AreNumbered names.new) }
    ensures few { OnOk result (length names.new.texts.items ≤ length names.old.texts.items + length words.now) }
{
    let mut items = Vec::new(alloc);
    let mut skip = 0;
    for (i, word) in words.iter().enumerate() {
        let rest = &words[i + 1..];
        skip = take_or_skip(alloc, prefixes, names, &mut items, word, rest, skip)?;
    }
    Ok(items)
}

/// Takes the name that a token is, if it is one.
fn take_name(alloc: Global, names: &mut Names, value: &Value) -> Result<(), OutOfMemory>
    requires numbered { AreNumbered names.old }
    requires few { length names.old.texts.items < 2 ^ 32 - 1 }
    ensures names { OnOk result (names.new.texts.items ≡ with_name names.old.texts.items (name_text value.now)) }
    ensures numbered { OnOk result (AreNumbered names.new) }
{
    match name_text(value) {
        Some(text) => {
            let _ = names.number(alloc, text)?;
            Ok(())
        }
        None => Ok(()),
    }
}

/// Takes the name of a token, where so many from it on belong to one before it, and says how many
/// of those after it belong to one before them.
fn name_or_skip(
    alloc: Global,
    names: &mut Names,
    word: &Word,
    rest: &[Word],
    skip: usize,
) -> Result<usize, OutOfMemory>
    requires numbered { AreNumbered names.old }
    requires few { length names.old.texts.items < 2 ^ 32 - 1 }
    ensures names { IfOk result (λ n. names_after names.new.texts.items n rest.now
        ≡ names_after names.old.texts.items skip (word.now ∷ rest.now)) }
    ensures numbered { OnOk result (AreNumbered names.new) }
    ensures few { OnOk result (length names.new.texts.items ≤ length names.old.texts.items + 1) }
{
    if skip > 0 {
        return Ok(skip - 1);
    }
    take_name(alloc, names, &word.value)?;
    Ok(more(&word.value, rest))
}

/// The names of some tokens join those given. `OutOfMemory` comes only where memory runs out.
pub fn names_of(alloc: Global, names: &mut Names, words: &[Word]) -> Result<(), OutOfMemory>
    requires numbered { AreNumbered names.old }
    requires few { length names.old.texts.items + length words.now < 2 ^ 32 - 1 }
    ensures names { OnOk result (names.new.texts.items ≡ names_after names.old.texts.items 0 words.now) }
    ensures numbered { OnOk result (AreNumbered names.new) }
    ensures few { OnOk result (length names.new.texts.items ≤ length names.old.texts.items + length words.now) }
{
    let mut skip = 0;
    for (i, word) in words.iter().enumerate() {
        skip = name_or_skip(alloc, names, word, &words[i + 1..], skip)?;
    }
    Ok(())
}

// Prefixes, and the IRIs that names stand for.
ghost use Rattle.std.specs.Prelude.{◌≡◌, ◌++◌, ℕ, List, [], IfOk, OnOk, Some, if◌then◌else◌, option_copied, unwrap_or};
ghost use Rattle.std.specs.Option.{is_some};
ghost use Rattle.std.specs.BTreeMap.{get_by_text};
ghost use Rattle.std.specs.Str.{bytes_eq};
ghost use Rattle.rdf_terms.specs.Datatype.{is_lang_string, lang_string};
ghost use Rattle.pattern_parser.specs.Prefixes.{iris, or_else, declares, first_iri, iri_of, iri_text, is_unknown, is_relative, first_at, is_carets, gives_lang_string, is_lang, lang_at};

use query_words::word::{Value, Word};
use rdf_terms::{is_iri, is_lang_string};
use std::alloc::Global;
use std::collections::BTreeMap;
use text_base::{OutOfMemory, Text};

/// The declared IRI of each prefix.
pub type Prefixes = BTreeMap<String, Text>;

/// Declares a prefix, in place of what it was before.
fn declare(alloc: Global, prefixes: &mut Prefixes, name: &str, iri: &str) -> Result<(), OutOfMemory>
    ensures { OnOk result ((q : List ℕ) → get_by_text prefixes.new q
        ≡ (if bytes_eq q name.now then Some iri.now else get_by_text prefixes.old q)) }
{
    let text = Text::copy(alloc, iri)?;
    let _ = prefixes.insert(String::from_str(alloc, name)?, text)?;
    Ok(())
}

/// The text of the IRI that comes first.
fn first_iri(words: &[Word]) -> Option<&Text>
    ensures { option_copied result ≡ first_iri words.now }
{
    match words {
        [] => None,
        [word, ..] => match &word.value {
            Value::Iri(iri) => Some(iri),
            _ => None,
        },
    }
}

/// Takes the declaration that a token with those after it is, if it is one.
fn declare_word(
    alloc: Global,
    prefixes: &mut Prefixes,
    word: &Word,
    rest: &[Word],
) -> Result<(), OutOfMemory>
    ensures { OnOk result ((q : List ℕ) → get_by_text prefixes.new q
        ≡ or_else (declares word.now.value rest.now q) (get_by_text prefixes.old q)) }
{
    match &word.value {
        Value::Prefix(name) => match first_iri(rest) {
            Some(iri) => declare(alloc, prefixes, name.as_str(), iri.as_str()),
            None => Ok(()),
        },
        _ => Ok(()),
    }
}

/// The prefixes that some tokens declare. `OutOfMemory` comes only where memory runs out.
pub fn prefixes_of(alloc: Global, words: &[Word]) -> Result<Prefixes, OutOfMemory>
    ensures { IfOk result (λ m. (q : List ℕ) → get_by_text m q ≡ iri_of words.now q) }
{
    let mut prefixes = BTreeMap::new(alloc);
    for (i, word) in words.iter().enumerate() {
        declare_word(alloc, &mut prefixes, word, &words[i + 1..])?;
    }
    Ok(prefixes)
}

/// The IRI that a prefix stands for, or nothing where it is not declared.
fn declared<'a>(prefixes: &'a Prefixes, name: &str) -> &'a str
    ensures { result.now ≡ unwrap_or (get_by_text prefixes.now name.now) [] }
{
    match prefixes.get(name) {
        Some(iri) => iri.as_str(),
        None => "",
    }
}

/// The IRI of a prefix with a local part behind it.
fn joined(alloc: Global, prefixes: &Prefixes, name: &str, local: &str) -> Result<Text, OutOfMemory>
    ensures { IfOk result (λ t. t ≡ unwrap_or (get_by_text prefixes.now name.now) [] ++ local.now) }
{
    let mut text = String::from_str(alloc, declared(prefixes, name))?;
    text.push_str(local)?;
    Ok(Text::from_string(text))
}

/// The IRI that a token stands for. `OutOfMemory` comes only where memory runs out.
pub fn iri_text(alloc: Global, prefixes: &Prefixes, value: &Value) -> Result<Text, OutOfMemory>
    ensures { IfOk result (λ t. t ≡ iri_text (iris prefixes.now) value.now) }
{
    match value {
        Value::Iri(text) => Text::copy(alloc, text.as_str()),
        Value::Prefix(name) => joined(alloc, prefixes, name.as_str(), ""),
        Value::Prefixed(name, local) => joined(alloc, prefixes, name.as_str(), local.as_str()),
        _ => Text::copy(alloc, ""),
    }
}

fn is_declared(prefixes: &Prefixes, name: &str) -> bool
    ensures { result ≡ is_some (get_by_text prefixes.now name.now) }
{
    prefixes.contains_key(name)
}

fn is_unknown(prefixes: &Prefixes, value: &Value) -> bool
    ensures { result ≡ is_unknown (iris prefixes.now) value.now }
{
    match value {
        Value::Prefix(name) => !is_declared(prefixes, name.as_str()),
        Value::Prefixed(name, _) => !is_declared(prefixes, name.as_str()),
        _ => false,
    }
}

/// The place of the first name whose prefix is not declared.
pub fn first_unknown(prefixes: &Prefixes, words: &[Word]) -> Option<usize>
    ensures { result ≡ first_at (is_unknown (iris prefixes.now)) words.now }
{
    let word = words.iter().find(|word| is_unknown(prefixes, &word.value))?;
    Some(word.at)
}

fn is_relative(value: &Value) -> bool
    ensures { result ≡ is_relative value.now }
{
    match value {
        Value::Iri(text) => !is_iri(text.as_str()),
        _ => false,
    }
}

/// The place of the first IRI with no scheme.
pub fn first_relative(words: &[Word]) -> Option<usize>
    ensures { result ≡ first_at is_relative words.now }
{
    let word = words.iter().find(|word| is_relative(&word.value))?;
    Some(word.at)
}

fn is_carets(value: &Value) -> bool
    ensures { result ≡ is_carets value.now }
{
    matches!(value, Value::Carets)
}

#[tactic(auto, unfolding(rdf_terms::specs::Datatype::lang_string))]
fn lang_string() -> &'static str
    ensures { result.now ≡ lang_string }
{
    "http://www.w3.org/1999/02/22-rdf-syntax-ns#langString"
}

/// Whether two texts are rdf:langString together. No text is made of them: a long IRI of a prefix
/// may stand for many names.
fn joins_lang_string(front: &str, local: &str) -> bool
    ensures { result ≡ is_lang_string (front.now ++ local.now) }
{
    match lang_string().as_bytes().strip_prefix(front.as_bytes()) {
        Some(rest) => rest == local.as_bytes(),
        None => false,
    }
}

/// Whether the IRI that a token stands for is rdf:langString.
fn stands_for_lang_string(prefixes: &Prefixes, value: &Value) -> bool
    ensures { result ≡ is_lang_string (iri_text (iris prefixes.now) value.now) }
{
    match value {
        Value::Iri(text) => is_lang_string(text.as_str()),
        Value::Prefix(name) => joins_lang_string(declared(prefixes, name.as_str()), ""),
        Value::Prefixed(name, local) => {
            joins_lang_string(declared(prefixes, name.as_str()), local.as_str())
        }
        _ => is_lang_string(""),
    }
}

fn gives_lang_string(prefixes: &Prefixes, words: &[Word]) -> bool
    ensures { result ≡ gives_lang_string (iris prefixes.now) words.now }
{
    match words {
        [carets, datatype, ..] => {
            is_carets(&carets.value) && stands_for_lang_string(prefixes, &datatype.value)
        }
        _ => false,
    }
}

fn is_lang(prefixes: &Prefixes, value: &Value, rest: &[Word]) -> bool
    ensures { result ≡ is_lang (iris prefixes.now) value.now rest.now }
{
    match value {
        Value::Str(_) => gives_lang_string(prefixes, rest),
        _ => false,
    }
}

/// The place of the first string with the datatype rdf:langString.
pub fn first_lang(prefixes: &Prefixes, words: &[Word]) -> Option<usize>
    ensures { result ≡ lang_at (iris prefixes.now) words.now }
{
    for (i, word) in words.iter().enumerate() {
        if is_lang(prefixes, &word.value, &words[i + 1..]) {
            return Some(word.at);
        }
    }
    None
}

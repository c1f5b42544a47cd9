// Where the parts of a query begin, and which names are selected.
ghost use Rattle.std.specs.Prelude.{◌≡◌, ◌<◌, ◌≤◌, ◌^◌, length, IfOk, IsTrue, IsFalse};
ghost use Rattle.query_grammar.specs.Groups.{ArePlain};
ghost use Rattle.query_words.specs.Words.{kinds_of};
ghost use Rattle.pattern_parser.specs.Names.{is_blank_name, variable_numbers};
ghost use Rattle.pattern_parser.specs.Plains.{braces_after, plain_from};
ghost use Rattle.pattern_parser.specs.Prefixes.{before};
ghost use Rattle.pattern_parser.specs.Queries.{is_select, is_brace, is_star, has_star};

use query_words::word::{Value, Word};
use std::alloc::Global;
use text_base::{OutOfMemory, Text};

fn is_select(value: &Value) -> bool
    ensures { result ≡ is_select value.now }
{
    matches!(value, Value::SelectWord)
}

fn is_brace(value: &Value) -> bool
    ensures { result ≡ is_brace value.now }
{
    matches!(value, Value::OpenBrace)
}

fn is_star(value: &Value) -> bool
    ensures { result ≡ is_star value.now }
{
    matches!(value, Value::Star)
}

/// How many tokens stand before SELECT.
pub fn before_select(words: &[Word]) -> usize
    ensures value { result ≡ before is_select words.now }
    ensures within { result ≤ length words.now }
{
    words
        .iter()
        .position(|word| is_select(&word.value))
        .unwrap_or(words.len())
}

/// How many tokens stand before the first opening brace.
pub fn before_brace(words: &[Word]) -> usize
    ensures value { result ≡ before is_brace words.now }
    ensures within { result ≤ length words.now }
{
    words
        .iter()
        .position(|word| is_brace(&word.value))
        .unwrap_or(words.len())
}

/// Whether some token is `*`.
pub fn has_star(words: &[Word]) -> bool
    ensures { result ≡ has_star words.now }
{
    words.iter().any(|word| is_star(&word.value))
}

fn is_blank_name(text: &str) -> bool
    ensures { result ≡ is_blank_name text.now }
{
    match text.as_bytes() {
        [first, second, ..] => *first == b'_' && *second == b':',
        _ => false,
    }
}

/// The numbers of those names that are variables. `OutOfMemory` comes only where memory runs out.
pub fn variable_numbers(alloc: Global, names: &[Text]) -> Result<Vec<u32>, OutOfMemory>
    requires { length names.now < 2 ^ 32 }
    ensures { IfOk result (λ v. v.items ≡ variable_numbers 0 names.now) }
{
    let mut numbers = Vec::new(alloc);
    for (i, name) in names.iter().enumerate() {
        if !is_blank_name(name.as_str()) {
            numbers.push(i as u32)?;
        }
    }
    Ok(numbers)
}

/// How many more opening braces there may be behind a token; nothing where it may not stand.
fn braces_after(most: usize, value: &Value) -> Option<usize>
    ensures { result ≡ braces_after most value.now }
{
    match value {
        Value::DistinctWord | Value::OptionalWord | Value::UnionWord => None,
        Value::OpenBrace => { if most > 0 { Some(most - 1) } else { None } }
        _ => Some(most),
    }
}

fn plain_from(most: usize, words: &[Word]) -> bool
    ensures { result ≡ plain_from most words.now }
{
    let mut left = most;
    for word in words {
        match braces_after(left, &word.value) {
            Some(more) => left = more,
            None => return false,
        }
    }
    true
}

/// Whether tokens hold none of DISTINCT, OPTIONAL and UNION and at most one opening brace, as those of a
/// query without groups do.
pub fn is_plain(words: &[Word]) -> bool
    ensures yes { IsTrue result → ArePlain 1 (kinds_of words.now) }
    ensures no { IsFalse result → ArePlain 1 (kinds_of words.now) → ⊥ }
{
    plain_from(1, words)
}

// Tokens, what they say, and the grammar over their kinds.
ghost use Rattle.std.specs.Prelude.{◌≤◌, length, IfOk};
ghost use Rattle.query_tokens.specs.declared.piece.TheConstants.{LONGEST_QUERY};

use case_rows::{Case, CaseFault, number_text, truth_text, word_text};
use query_grammar::grammar::grammar_fault;
use query_grammar::groups::group_fault;
use query_grammar::kind::Kind;
use query_tokens::LONGEST_QUERY;
use query_tokens::piece::{Piece, PieceFault, pieces};
use query_words::text::{
    decode, is_a, local_text, prefix_text, resolved_text, same_word, text_after_first, text_of,
};
use query_words::word::{Value, Word, kinds_of, words_of};
use std::alloc::Global;
use text_base::{OutOfMemory, Text};

/// The characters of a text, at most `LONGEST_QUERY`.
fn chars_in(alloc: Global, text: &str) -> Result<Vec<char>, CaseFault>
    ensures { IfOk result (λ v. length v.items ≤ LONGEST_QUERY) }
{
    let Ok(chars) = decode(alloc, text) else {
        return Err(CaseFault::OutOfMemory);
    };
    if chars.len() > LONGEST_QUERY {
        return Err(CaseFault::Row);
    }
    Ok(chars)
}

/// `text`: the characters of a text, at most `LONGEST_QUERY`.
fn chars_of(alloc: Global, case: &mut Case<'_>) -> Result<Vec<char>, CaseFault>
    ensures { IfOk result (λ v. length v.items ≤ LONGEST_QUERY) }
{
    let text = case.text(alloc, "text")?;
    chars_in(alloc, text.as_str())
}

/// Appends a token: its kind, its first byte and the one past its last, its first character and how many it has.
fn push_piece(alloc: Global, piece: &Piece, out: &mut String) -> Result<(), CaseFault> {
    let Piece {
        kind,
        place,
        len,
        at,
        to,
    } = piece;
    let told = format!(in alloc; "{kind:?} {at}-{to} {place}+{len};")?;
    Ok(out.push_str(told.as_str())?)
}

/// The tokens, each with its kind, its first byte and the one past its last, its first character and how many it has.
fn pieces_text(alloc: Global, pieces: &[Piece]) -> Result<String, CaseFault> {
    let mut out = String::new(alloc);
    for piece in pieces {
        push_piece(alloc, piece, &mut out)?;
    }
    Ok(out)
}

/// The place of a fault.
fn fault_text(alloc: Global, at: usize) -> Result<String, CaseFault> {
    Ok(format!(in alloc; "fault {at}")?)
}

/// `text`: the tokens of a text, or the place of the fault.
pub fn piece_places(alloc: Global, case: &mut Case<'_>) -> Result<String, CaseFault> {
    let chars = chars_of(alloc, case)?;
    match pieces(alloc, chars.as_slice()) {
        Ok(pieces) => pieces_text(alloc, pieces.as_slice()),
        Err(PieceFault::At(at)) => fault_text(alloc, at),
        Err(PieceFault::OutOfMemory) => Err(CaseFault::OutOfMemory),
    }
}

/// The words of characters that are tokens.
fn words_in(alloc: Global, chars: &[char]) -> Result<Vec<Word>, CaseFault>
    requires { length chars.now ≤ LONGEST_QUERY }
{
    let pieces = match pieces(alloc, chars) {
        Ok(pieces) => pieces,
        Err(PieceFault::At(_)) => return Err(CaseFault::Row),
        Err(PieceFault::OutOfMemory) => return Err(CaseFault::OutOfMemory),
    };
    match words_of(alloc, chars, pieces.as_slice()) {
        Ok(words) => Ok(words),
        Err(_) => Err(CaseFault::OutOfMemory),
    }
}

/// `text`: the words of a text.
fn words_in_text(alloc: Global, case: &mut Case<'_>) -> Result<Vec<Word>, CaseFault> {
    let chars = chars_of(alloc, case)?;
    words_in(alloc, chars.as_slice())
}

/// The kinds of words.
fn kinds_in(alloc: Global, words: &[Word]) -> Result<Vec<Kind>, CaseFault> {
    match kinds_of(alloc, words) {
        Ok(kinds) => Ok(kinds),
        Err(_) => Err(CaseFault::OutOfMemory),
    }
}

/// `text`: the kinds of the words of a text.
fn kinds_in_text(alloc: Global, case: &mut Case<'_>) -> Result<Vec<Kind>, CaseFault> {
    let words = words_in_text(alloc, case)?;
    kinds_in(alloc, words.as_slice())
}

/// The text of a token that has one alone.
fn text_in(value: &Value) -> &str {
    match value {
        Value::Iri(text)
        | Value::Prefix(text)
        | Value::Prefixed(_, text)
        | Value::Variable(text)
        | Value::Label(text)
        | Value::Str(text)
        | Value::Tag(text)
        | Value::Integer(text)
        | Value::Decimal(text)
        | Value::Double(text) => text.as_str(),
        _ => "",
    }
}

/// What kind of number a token is, or nothing.
fn number_kind(value: &Value) -> &'static str {
    match value {
        Value::Integer(_) => " integer",
        Value::Decimal(_) => " decimal",
        Value::Double(_) => " double",
        _ => "",
    }
}

/// Appends a word: its kind, its first byte and what it says.
fn push_word(alloc: Global, word: &Word, kind: &Kind, out: &mut String) -> Result<(), CaseFault> {
    let number = number_kind(&word.value);
    let text = text_in(&word.value);
    let told = format!(in alloc; "{kind:?}{number} {} {text};", word.at)?;
    Ok(out.push_str(told.as_str())?)
}

/// Words and their kinds.
fn words_text(alloc: Global, words: &[Word], kinds: &[Kind]) -> Result<String, CaseFault> {
    if words.len() != kinds.len() {
        return Err(CaseFault::Differs);
    }
    let mut out = String::new(alloc);
    for (word, kind) in words.iter().zip(kinds) {
        push_word(alloc, word, kind, &mut out)?;
    }
    Ok(out)
}

/// `text`: the words of a text, each with its kind, its first byte and what it says.
pub fn words(alloc: Global, case: &mut Case<'_>) -> Result<String, CaseFault> {
    let words = words_in_text(alloc, case)?;
    let kinds = kinds_in(alloc, words.as_slice())?;
    words_text(alloc, words.as_slice(), kinds.as_slice())
}

/// The place of a fault, or `none`.
fn place_text(alloc: Global, place: Option<usize>) -> Result<String, CaseFault> {
    match place {
        Some(place) => number_text(alloc, place as u64),
        None => word_text(alloc, "none"),
    }
}

/// `text`: the number of the first word with which the words of a text begin no query, or `none`.
pub fn grammar(alloc: Global, case: &mut Case<'_>) -> Result<String, CaseFault> {
    let kinds = kinds_in_text(alloc, case)?;
    place_text(alloc, grammar_fault(kinds.as_slice()))
}

/// `text`: the number of the first word with which the words of a text begin no query with groups, or `none`.
pub fn group_grammar(alloc: Global, case: &mut Case<'_>) -> Result<String, CaseFault> {
    let kinds = kinds_in_text(alloc, case)?;
    match group_fault(alloc, kinds.as_slice()) {
        Ok(place) => place_text(alloc, place),
        Err(_) => Err(CaseFault::OutOfMemory),
    }
}

/// The text that a call gave.
fn given(alloc: Global, text: Result<Text, OutOfMemory>) -> Result<String, CaseFault> {
    match text {
        Ok(text) => word_text(alloc, text.as_str()),
        Err(_) => Err(CaseFault::OutOfMemory),
    }
}

/// What the characters of a token say, or whether they are a word.
fn shown(alloc: Global, chars: &[char], show: &str) -> Result<String, CaseFault>
    requires { length chars.now ≤ LONGEST_QUERY }
{
    let text = match show {
        "resolved" => resolved_text(alloc, chars),
        "prefix" => prefix_text(alloc, chars),
        "local" => local_text(alloc, chars),
        "all" => text_of(alloc, chars),
        "behind" => text_after_first(alloc, chars),
        "select" => return truth_text(alloc, same_word(b"select", chars)),
        "a" => return truth_text(alloc, is_a(chars)),
        _ => return Err(CaseFault::Row),
    };
    given(alloc, text)
}

/// `text`, `show`: what the characters of a token say: `resolved` without its marks and escapes, the `prefix` and the
/// `local` part of a name, `all` of them or those `behind` the first; whether they are the word `select` in any case,
/// or the word `a`.
pub fn said(alloc: Global, case: &mut Case<'_>) -> Result<String, CaseFault> {
    let show = case.text(alloc, "show")?;
    let chars = chars_of(alloc, case)?;
    shown(alloc, chars.as_slice(), show.as_str())
}

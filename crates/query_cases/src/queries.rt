// Queries that are read.
use bgp_core::{Part, Pattern, Query};
use case_rows::{Case, CaseFault, numbers_text, push_number, text_of_bytes, word_text};
use nquads_text::canonical;
use pattern_parser::{QueryFault, Token, parse, tokens};
use std::alloc::Global;
use std::fmt::Debug;

/// The place of a fault, and which one it is.
pub fn bad_text<T: Debug>(alloc: Global, at: usize, why: &T) -> Result<String, CaseFault> {
    Ok(format!(in alloc; "{at} {why:?}")?)
}

/// A fault as text.
fn fault_text(alloc: Global, fault: QueryFault) -> Result<String, CaseFault> {
    match fault {
        QueryFault::Bad { at, why } => bad_text(alloc, at, &why),
        QueryFault::OutOfMemory => Err(CaseFault::OutOfMemory),
    }
}

/// Appends a token: its kind and its first byte and the one past its last.
fn push_token(alloc: Global, token: &Token, out: &mut String) -> Result<(), CaseFault> {
    let told = format!(in alloc; "{:?} {}-{};", token.kind, token.at, token.to)?;
    Ok(out.push_str(told.as_str())?)
}

/// The tokens, each with its kind and its first byte and the one past its last.
fn tokens_text(alloc: Global, tokens: &[Token]) -> Result<String, CaseFault> {
    let mut out = String::new(alloc);
    for token in tokens {
        push_token(alloc, token, &mut out)?;
    }
    Ok(out)
}

/// `text`: the tokens, each with its kind and its first byte and the one past its last, or the fault.
pub fn token_places(alloc: Global, case: &mut Case<'_>) -> Result<String, CaseFault> {
    let text = case.bytes(alloc, "text")?;
    match tokens(alloc, text.as_slice()) {
        Ok(tokens) => tokens_text(alloc, tokens.as_slice()),
        Err(fault) => fault_text(alloc, fault),
    }
}

/// Appends the number of a name.
fn push_name(alloc: Global, name: u32, out: &mut Vec<u8>) -> Result<(), CaseFault> {
    let digits = name.to_string(alloc)?;
    Ok(out.extend_from_slice(digits.as_bytes())?)
}

/// Appends a part of a pattern: the number of its name, or its term in canonical text.
fn push_part(alloc: Global, part: &Part, out: &mut Vec<u8>) -> Result<(), CaseFault> {
    match part {
        Part::Name(name) => push_name(alloc, *name, out),
        Part::Fixed(term) => match canonical(term, out) {
            Ok(()) => Ok(()),
            Err(_) => Err(CaseFault::OutOfMemory),
        },
    }
}

/// Appends a part of a pattern, and the byte behind it.
fn push_ended(alloc: Global, part: &Part, end: u8, out: &mut Vec<u8>) -> Result<(), CaseFault> {
    push_part(alloc, part, out)?;
    Ok(out.push(end)?)
}

/// Appends a pattern, with a semicolon behind it.
pub fn push_pattern(alloc: Global, pattern: &Pattern, out: &mut Vec<u8>) -> Result<(), CaseFault> {
    push_ended(alloc, &pattern.subject, b' ', out)?;
    push_ended(alloc, &pattern.predicate, b' ', out)?;
    push_ended(alloc, &pattern.object, b';', out)
}

/// The patterns of a query, with a semicolon behind each.
fn patterns_text(alloc: Global, query: &Query) -> Result<String, CaseFault> {
    let mut out = Vec::new(alloc);
    for pattern in query.patterns() {
        push_pattern(alloc, pattern, &mut out)?;
    }
    text_of_bytes(out)
}

/// The numbers of the names that a query selects.
pub fn selected_text(alloc: Global, query: &Query) -> Result<String, CaseFault> {
    let mut out = String::new(alloc);
    for number in query.selected() {
        push_number(alloc, *number as u64, &mut out)?;
        out.push(' ')?;
    }
    Ok(out)
}

/// `number`: the name with this number.
fn name_text(alloc: Global, case: &mut Case<'_>, query: &Query) -> Result<String, CaseFault> {
    let number = case.number("number")?;
    match query.names().get(number as usize) {
        Some(name) => word_text(alloc, name.as_str()),
        None => Err(CaseFault::Row),
    }
}

/// How many patterns, names and selected names a query has.
fn counts_text(alloc: Global, query: &Query) -> Result<String, CaseFault> {
    let patterns = query.patterns().len() as u64;
    let names = query.names().len() as u64;
    let selected = query.selected().len() as u64;
    numbers_text(alloc, &[patterns, names, selected])
}

/// What is to be shown of a query.
fn query_text(
    alloc: Global,
    case: &mut Case<'_>,
    query: &Query,
    show: &str,
) -> Result<String, CaseFault> {
    match show {
        "counts" => counts_text(alloc, query),
        "patterns" => patterns_text(alloc, query),
        "selected" => selected_text(alloc, query),
        "name" => name_text(alloc, case, query),
        _ => Err(CaseFault::Row),
    }
}

/// What is to be shown of the copy of a query.
fn copy_text(
    alloc: Global,
    case: &mut Case<'_>,
    query: &Query,
    show: &str,
) -> Result<String, CaseFault> {
    match query.copy(alloc) {
        Ok(copy) => query_text(alloc, case, &copy, show),
        Err(_) => Err(CaseFault::OutOfMemory),
    }
}

/// `text`, `show`: the fault of a text, or what is to be shown of a copy of its query: its `counts` of patterns, names
/// and selected names, its `patterns`, what is `selected`, or the `name` with the number `number`.
pub fn query(alloc: Global, case: &mut Case<'_>) -> Result<String, CaseFault> {
    let show = case.text(alloc, "show")?;
    let text = case.bytes(alloc, "text")?;
    match parse(alloc, text.as_slice()) {
        Ok(query) => copy_text(alloc, case, &query, show.as_str()),
        Err(fault) => fault_text(alloc, fault),
    }
}

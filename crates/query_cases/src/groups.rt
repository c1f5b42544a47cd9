// Queries with groups.
use crate::queries::{bad_text, push_pattern, selected_text};
use case_rows::{Case, CaseFault, text_of_bytes};
use group_faults::GroupFault;
use group_parser::{Asked, parse_asked, parse_group};
use group_query::{GroupQuery, Patterns, Step};
use std::alloc::Global;

/// A fault as text.
fn fault_text(alloc: Global, fault: GroupFault) -> Result<String, CaseFault> {
    match fault {
        GroupFault::Bad { at, why } => bad_text(alloc, at, &why),
        GroupFault::OutOfMemory => Err(CaseFault::OutOfMemory),
    }
}

fn push_block(alloc: Global, patterns: &Patterns, out: &mut Vec<u8>) -> Result<(), CaseFault> {
    out.push(b'[')?;
    for pattern in patterns.as_slice() {
        push_pattern(alloc, pattern, out)?;
    }
    Ok(out.extend_from_slice(b"] ")?)
}

fn push_step(alloc: Global, step: &Step, out: &mut Vec<u8>) -> Result<(), CaseFault> {
    match step {
        Step::Block(patterns) => push_block(alloc, patterns, out),
        Step::Empty => Ok(out.extend_from_slice(b"empty ")?),
        Step::Join => Ok(out.extend_from_slice(b"join ")?),
        Step::Optional => Ok(out.extend_from_slice(b"optional ")?),
        Step::Union => Ok(out.extend_from_slice(b"union ")?),
    }
}

/// The steps of a group in postfix order, each block with its patterns.
fn steps_text(alloc: Global, query: &GroupQuery) -> Result<String, CaseFault> {
    let mut out = Vec::new(alloc);
    for step in query.steps() {
        push_step(alloc, step, &mut out)?;
    }
    text_of_bytes(out)
}

/// Numbers of steps, names and selected names, and whether each row stands once.
fn numbers_text(
    alloc: Global,
    steps: usize,
    names: usize,
    selected: usize,
    is_distinct: bool,
) -> Result<String, CaseFault> {
    Ok(format!(in alloc; "{steps} {names} {selected} {is_distinct}")?)
}

/// How many steps, names and selected names a query has, and whether each row stands once.
fn counts_text(alloc: Global, query: &GroupQuery) -> Result<String, CaseFault> {
    let shown = query.shown();
    let steps = query.steps().len();
    let names = shown.names().len();
    numbers_text(
        alloc,
        steps,
        names,
        shown.selected().len(),
        query.is_distinct(),
    )
}

/// What is to be shown of a query.
fn query_text(alloc: Global, query: &GroupQuery, show: &str) -> Result<String, CaseFault> {
    match show {
        "counts" => counts_text(alloc, query),
        "steps" => steps_text(alloc, query),
        "selected" => selected_text(alloc, query.shown()),
        _ => Err(CaseFault::Row),
    }
}

/// `text`, `show`: the fault of a text, or what is to be shown of its query with groups: its `counts` of steps, names
/// and selected names with whether each row stands once, its `steps`, or what is `selected`.
pub fn group(alloc: Global, case: &mut Case<'_>) -> Result<String, CaseFault> {
    let show = case.text(alloc, "show")?;
    let text = case.bytes(alloc, "text")?;
    match parse_group(alloc, text.as_slice()) {
        Ok(query) => query_text(alloc, &query, show.as_str()),
        Err(fault) => fault_text(alloc, fault),
    }
}

/// A word and a number.
fn counted_text(alloc: Global, word: &str, count: usize) -> Result<String, CaseFault> {
    Ok(format!(in alloc; "{word} {count}")?)
}

/// `plain` with how many patterns, or `groups` with how many steps a query has.
fn asked_text(alloc: Global, asked: &Asked) -> Result<String, CaseFault> {
    match asked {
        Asked::Plain(query) => counted_text(alloc, "plain", query.patterns().len()),
        Asked::Groups(query) => counted_text(alloc, "groups", query.steps().len()),
    }
}

/// `text`: `plain` with how many patterns, or `groups` with how many steps a text's query has, or the fault.
pub fn asked(alloc: Global, case: &mut Case<'_>) -> Result<String, CaseFault> {
    let text = case.bytes(alloc, "text")?;
    match parse_asked(alloc, text.as_slice()) {
        Ok(asked) => asked_text(alloc, &asked),
        Err(fault) => fault_text(alloc, fault),
    }
}

// What is told of a row.
ghost use Rattle.std.specs.Prelude.{◌≡◌, ◌↔◌, IsTrue, IfOk, None, option_map};
ghost use Rattle.std.specs.String.{string_bytes};
ghost use Rattle.case_rows.specs.Rows.{IsWanted};

use crate::files::Answers;
use crate::names::Names;
use crate::{Case, CaseFault};
use json::{Scratch, Value};
use std::alloc::{AllocError, Global};

/// The answers that a row wants: one, and maybe another that is as good.
#[derive(Drop)]
struct Wanted {
    first: String,
    other: Option<String>,
}

/// Whether an answer is one that is wanted.
fn is_wanted(wanted: &Wanted, got: &str) -> bool
    ensures { IsTrue result ↔
        IsWanted (string_bytes wanted.now.first) (option_map string_bytes wanted.now.other) got.now }
{
    if wanted.first.as_str() == got {
        return true;
    }
    match &wanted.other {
        Some(other) => other.as_str() == got,
        None => false,
    }
}

/// What is told of an answer: nothing, where it is wanted.
fn judged(alloc: Global, wanted: &Wanted, got: &str) -> Result<Option<String>, AllocError>
    ensures { IfOk result (λ told. told ≡ None ↔
        IsWanted (string_bytes wanted.now.first) (option_map string_bytes wanted.now.other) got.now) }
{
    if is_wanted(wanted, got) {
        return Ok(None);
    }
    Ok(Some(format!(in alloc; "wanted {:?}, got {got:?}", wanted.first)?))
}

/// `wanted`, `or`: the answers that a row wants.
fn wanted_of(alloc: Global, case: &mut Case<'_>) -> Result<Wanted, CaseFault> {
    let first = case.text(alloc, "wanted")?;
    match case.text_if(alloc, "or") {
        Ok(other) => Ok(Wanted { first, other }),
        Err(fault) => Err(fault),
    }
}

/// Answers a row that calls this, and tells what is wrong with the answer, if it is not as wanted.
fn answered_as<A: Answers>(
    alloc: Global,
    answers: &A,
    call: &str,
    wanted: &Wanted,
    case: &mut Case<'_>,
) -> Result<Option<String>, CaseFault> {
    let got = answers.answer(alloc, call, case)?;
    case.end()?;
    Ok(judged(alloc, wanted, got.as_str())?)
}

/// Answers a row, and tells what is wrong with the answer, if anything is.
fn answered<A: Answers>(
    alloc: Global,
    answers: &A,
    case: &mut Case<'_>,
) -> Result<Option<String>, CaseFault> {
    let call = case.text(alloc, "call")?;
    let wanted = wanted_of(alloc, case)?;
    answered_as(alloc, answers, call.as_str(), &wanted, case)
}

/// Answers the row with these members, and tells what is wrong with it, if anything is.
fn answered_row<'a, A: Answers>(
    alloc: Global,
    answers: &A,
    names: &'a Names,
    row: Value<'a>,
) -> Result<Option<String>, CaseFault> {
    let mut case = Case::new(row, names)?;
    answered(alloc, answers, &mut case)
}

/// Answers the row of a text, and tells what is wrong with it, if anything is.
fn answered_text<'a, A: Answers>(
    alloc: Global,
    answers: &A,
    names: &'a Names,
    row: &'a str,
    scratch: &'a mut Scratch,
) -> Result<Option<String>, CaseFault> {
    match Value::parse(alloc, row, scratch) {
        Ok(row) => answered_row(alloc, answers, names, row),
        Err(_) => Ok(Some(String::from_str(alloc, "no JSON")?)),
    }
}

/// What is wrong with a row, if anything is: it is no JSON, lacks a member or has one that its call does not ask for,
/// or its answer differs.
pub fn told_of<A: Answers>(
    alloc: Global,
    answers: &A,
    names: &Names,
    row: &str,
) -> Result<Option<String>, AllocError> {
    let mut scratch = Scratch::new(alloc);
    match answered_text(alloc, answers, names, row, &mut scratch) {
        Ok(told) => Ok(told),
        Err(fault) => Ok(Some(format!(in alloc; "{fault:?}")?)),
    }
}

// The slots of a fragment, by the explicit forms of their terms.
ghost use Rattle.std.specs.Prelude.{IfOk, OnOk};
ghost use Rattle.std.specs.List.{AllByRecursion};
ghost use Rattle.rdf_terms.specs.Valid.{IsNotBlank};
ghost use Rattle.template_fill.specs.Forms.{HasNoBlank};

use crate::addresses::spaced;
use case_rows::{Case, CaseFault, debug_text, number_text, text_of_bytes, word_text};
use case_slots::{no_blank, slots_of};
use nquads_text::canonical;
use rdf_terms::{Slot, Slots, Term};
use std::alloc::Global;
use template_fill::{ValueFault, explicit, read_explicit, read_row, row_length};
use text_base::OutOfMemory;

/// A term in canonical text.
fn canonical_text(alloc: Global, term: &Term) -> Result<String, CaseFault> {
    let mut out = Vec::new(alloc);
    if canonical(term, &mut out).is_err() {
        return Err(CaseFault::OutOfMemory);
    }
    text_of_bytes(out)
}

/// A term in canonical text, and its explicit form.
fn term_text(alloc: Global, term: &Term) -> Result<String, CaseFault>
    requires { IsNotBlank term.now }
{
    let text = canonical_text(alloc, term)?;
    match explicit(alloc, term) {
        Ok(form) => spaced(alloc, &[text.as_str(), form.as_str()]),
        Err(_) => Err(CaseFault::OutOfMemory),
    }
}

/// The term of a slot in canonical text, and its explicit form.
fn slot_text(alloc: Global, slot: Slot) -> Result<String, CaseFault> {
    let slot = no_blank(slot)?;
    let text = match &slot {
        Slot::Any => word_text(alloc, "any"),
        Slot::Fixed(term) => term_text(alloc, term),
    };
    drop(slot);
    text
}

/// `text`: the slot that is read of it: its term's canonical text and its explicit form, or the fault.
pub fn explicit_form(alloc: Global, case: &mut Case<'_>) -> Result<String, CaseFault> {
    let text = case.text(alloc, "text")?;
    match read_explicit(alloc, text.as_str()) {
        Ok(slot) => slot_text(alloc, slot),
        Err(ValueFault::OutOfMemory) => Err(CaseFault::OutOfMemory),
        Err(fault) => debug_text(alloc, &fault),
    }
}

/// `subject`, `predicate`, `object`: appends a row without a blank node.
fn push_row(alloc: Global, case: &mut Case<'_>, rows: &mut Vec<Slots>) -> Result<(), CaseFault>
    requires { AllByRecursion HasNoBlank rows.old.items }
    ensures { OnOk result (AllByRecursion HasNoBlank rows.new.items) }
{
    let row = slots_of(alloc, case)?;
    Ok(rows.push(Box::into_inner(row))?)
}

/// The rows of a list, each with `subject`, `predicate` and `object`.
fn rows_in(alloc: Global, list: &mut [Case<'_>]) -> Result<Vec<Slots>, CaseFault>
    ensures { IfOk result (λ rows. AllByRecursion HasNoBlank rows.items) }
{
    let mut rows = Vec::new(alloc);
    for row in list.iter_mut() {
        push_row(alloc, row, &mut rows)?;
        row.end()?;
    }
    Ok(rows)
}

/// `rows`: the rows that restrict a fragment, none where the row of the case has no such member.
pub fn rows_of(alloc: Global, case: &mut Case<'_>) -> Result<Vec<Slots>, CaseFault>
    ensures { IfOk result (λ rows. AllByRecursion HasNoBlank rows.items) }
{
    let mut list = case.list(alloc, "rows")?;
    rows_in(alloc, list.as_mut_slice())
}

/// Appends a term in canonical text, with a blank behind it.
pub fn push_term(term: &Term, out: &mut Vec<u8>) -> Result<(), CaseFault> {
    if canonical(term, out).is_err() {
        return Err(CaseFault::OutOfMemory);
    }
    Ok(out.push(b' ')?)
}

/// Appends the term of a place in canonical text, or the word `any`, with a blank behind it.
fn push_place(place: &Slot, out: &mut Vec<u8>) -> Result<(), CaseFault> {
    match place {
        Slot::Any => Ok(out.extend_from_slice(b"any ")?),
        Slot::Fixed(term) => push_term(term, out),
    }
}

/// Appends the places of a row.
fn push_places(row: &Slots, out: &mut Vec<u8>) -> Result<(), CaseFault> {
    push_place(&row.subject, out)?;
    push_place(&row.predicate, out)?;
    push_place(&row.object, out)
}

/// The places of a row.
fn row_text(alloc: Global, row: &Slots) -> Result<String, CaseFault> {
    let mut out = Vec::new(alloc);
    push_places(row, &mut out)?;
    text_of_bytes(out)
}

/// The places of a row that was read, or `none` for a text that is no row.
fn told_row(alloc: Global, read: Result<Option<Slots>, OutOfMemory>) -> Result<String, CaseFault> {
    match read {
        Ok(Some(row)) => row_text(alloc, &row),
        Ok(None) => word_text(alloc, "none"),
        Err(_) => Err(CaseFault::OutOfMemory),
    }
}

/// `text`: the places of the row that is read of it: the canonical text of each term, or `any`, with a blank behind it;
/// `none`, where it is no row.
pub fn row(alloc: Global, case: &mut Case<'_>) -> Result<String, CaseFault> {
    let text = case.text(alloc, "text")?;
    told_row(alloc, read_row(alloc, text.as_str()))
}

/// `subject`, `predicate`, `object`: how many bytes the row takes in an address.
pub fn length(alloc: Global, case: &mut Case<'_>) -> Result<String, CaseFault> {
    let row = slots_of(alloc, case)?;
    match row_length(alloc, &row) {
        Ok(length) => number_text(alloc, length as u64),
        Err(_) => Err(CaseFault::OutOfMemory),
    }
}

// The order of terms and triples, and slots.
use crate::terms::term_of;
use case_rows::{Case, CaseFault, truth_text};
use rdf_terms::{Slot, Slots, Term, Triple};
use std::alloc::Global;
use std::cmp::Ordering;

/// Appends the term of a row.
fn push_term(alloc: Global, row: &mut Case<'_>, terms: &mut Vec<Term>) -> Result<(), CaseFault> {
    let term = term_of(alloc, row)?;
    terms.push(term)?;
    row.end()
}

/// `terms`: terms.
fn terms_of(alloc: Global, case: &mut Case<'_>) -> Result<Vec<Term>, CaseFault> {
    let mut rows = case.list(alloc, "terms")?;
    let mut terms = Vec::new(alloc);
    for row in rows.iter_mut() {
        push_term(alloc, row, &mut terms)?;
    }
    Ok(terms)
}

/// How one value stands to another, and whether they are the same.
fn order_text(alloc: Global, order: Ordering, is_same: bool) -> Result<String, CaseFault> {
    Ok(format!(in alloc; "{order:?} {is_same}")?)
}

/// `terms`: how the first of two terms stands to the second, and whether they are the same.
pub fn compare(alloc: Global, case: &mut Case<'_>) -> Result<String, CaseFault> {
    let terms = terms_of(alloc, case)?;
    match terms.as_slice() {
        [one, other] => order_text(alloc, one.cmp(other), one.same(other)),
        _ => Err(CaseFault::Row),
    }
}

/// Whether a term stands to each of these as its place to theirs.
fn is_at(terms: &[Term], place: usize, term: &Term) -> bool {
    for (i, other) in terms.iter().enumerate() {
        if term.cmp(other) != place.cmp(&i) || term.same(other) != (place == i) {
            return false;
        }
    }
    true
}

/// The place of the first term that does not stand to the others as its place to theirs.
fn first_not_at(terms: &[Term]) -> Option<usize> {
    for (place, term) in terms.iter().enumerate() {
        if !is_at(terms, place, term) {
            return Some(place);
        }
    }
    None
}

/// How many terms are in ascending order, or the place of the first that is not.
fn ascending_text(alloc: Global, count: usize, not_at: Option<usize>) -> Result<String, CaseFault> {
    match not_at {
        Some(place) => Ok(format!(in alloc; "not at {place}")?),
        None => Ok(format!(in alloc; "{count} ascending")?),
    }
}

/// `terms`: how many terms there are, where they are in ascending order, or the place of the first that is not.
pub fn ascending(alloc: Global, case: &mut Case<'_>) -> Result<String, CaseFault> {
    let terms = terms_of(alloc, case)?;
    ascending_text(alloc, terms.len(), first_not_at(terms.as_slice()))
}

/// The last of terms, which is taken off.
fn last_of(alloc: Global, terms: &mut Vec<Term>) -> Result<Box<Term>, CaseFault> {
    match terms.pop() {
        Some(term) => Ok(Box::new(alloc, term)?),
        None => Err(CaseFault::Row),
    }
}

/// The triple of three terms.
fn triple_of(alloc: Global, terms: &mut Vec<Term>) -> Result<Box<Triple>, CaseFault> {
    let object = last_of(alloc, terms)?;
    let predicate = last_of(alloc, terms)?;
    let subject = last_of(alloc, terms)?;
    let triple = Triple {
        subject: Box::into_inner(subject),
        predicate: Box::into_inner(predicate),
        object: Box::into_inner(object),
    };
    Ok(Box::new(alloc, triple)?)
}

/// `terms`: the triple of the terms.
fn triple_in(alloc: Global, case: &mut Case<'_>) -> Result<Box<Triple>, CaseFault> {
    let mut terms = terms_of(alloc, case)?;
    if terms.len() != 3 {
        return Err(CaseFault::Row);
    }
    triple_of(alloc, &mut terms)
}

/// Appends the triple of a row.
fn push_triple(
    alloc: Global,
    row: &mut Case<'_>,
    triples: &mut Vec<Triple>,
) -> Result<(), CaseFault> {
    let triple = triple_in(alloc, row)?;
    triples.push(Box::into_inner(triple))?;
    row.end()
}

/// `triples`: triples, each of which is a row of `terms`.
fn triples_of(alloc: Global, case: &mut Case<'_>) -> Result<Vec<Triple>, CaseFault> {
    let mut rows = case.list(alloc, "triples")?;
    let mut triples = Vec::new(alloc);
    for row in rows.iter_mut() {
        push_triple(alloc, row, &mut triples)?;
    }
    Ok(triples)
}

/// `triples`: how the first of two triples stands to the second, and whether they are the same.
pub fn triples(alloc: Global, case: &mut Case<'_>) -> Result<String, CaseFault> {
    let triples = triples_of(alloc, case)?;
    match triples.as_slice() {
        [one, other] => order_text(alloc, one.cmp(other), one.same(other)),
        _ => Err(CaseFault::Row),
    }
}

/// `predicate`: the term of an IRI.
fn predicate_of(alloc: Global, case: &mut Case<'_>) -> Result<Term, CaseFault> {
    let text = case.text(alloc, "predicate")?;
    match Term::iri(alloc, text.as_str()) {
        Ok(predicate) => Ok(predicate),
        Err(_) => Err(CaseFault::Row),
    }
}

/// `predicate`: slots of which the predicate alone is fixed.
fn slots_of(alloc: Global, case: &mut Case<'_>) -> Result<Box<Slots>, CaseFault> {
    let predicate = predicate_of(alloc, case)?;
    let slots = Slots {
        subject: Slot::Any,
        predicate: Slot::Fixed(predicate),
        object: Slot::Any,
    };
    Ok(Box::new(alloc, slots)?)
}

/// A copy of slots.
fn copy_of(alloc: Global, slots: &Slots) -> Result<Box<Slots>, CaseFault> {
    match slots.copy(alloc) {
        Ok(copy) => Ok(Box::new(alloc, copy)?),
        Err(_) => Err(CaseFault::OutOfMemory),
    }
}

/// `predicate`: whether a copy of slots of which the predicate alone is fixed matches a triple.
fn predicate_matches(
    alloc: Global,
    case: &mut Case<'_>,
    triple: &Triple,
) -> Result<bool, CaseFault> {
    let slots = slots_of(alloc, case)?;
    let copy = copy_of(alloc, &slots)?;
    Ok(copy.matches(triple))
}

/// `terms`, `predicate`: whether slots of which the predicate alone is fixed match the triple of the terms.
pub fn matches(alloc: Global, case: &mut Case<'_>) -> Result<String, CaseFault> {
    let triple = triple_in(alloc, case)?;
    let is_match = predicate_matches(alloc, case, &triple)?;
    truth_text(alloc, is_match)
}

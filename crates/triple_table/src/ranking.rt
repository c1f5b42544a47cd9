// The order of terms that stand elsewhere, and the rank of each.
ghost use Rattle.std.specs.Prelude.{ℕ, ◌≡◌, ◌≢◌, ◌+◌, ◌<◌, ◌≤◌, false, map, length, All, IfOk, IsTrue};
ghost use Rattle.std.specs.List.Sorted.{IsStrictlySortedBy, IsSortedBy};
ghost use Rattle.std.specs.Ordering.{is_lt};
ghost use Rattle.rdf_terms.specs.Order.{term_order};
ghost use Rattle.triple_table.specs.Ranking.{borrowed_terms, ids_of, AreEntries, AreRanked, Gathers, HasRanks};
ghost use Rattle.triple_table.specs.Stored.{term_at};

use crate::gather::Places;
use crate::ids::IdTriple;
use crate::recent::{low_half, mark_of};
use rdf_terms::Term;
use std::alloc::Global;
use std::cmp::Ordering;
use tpf_base::OutOfMemory;

/// A term, its place in a list, and a guess at where it comes in the order of terms: IRIs by the text
/// up to their last slash or number sign, which makes a group, and then all by the first bytes behind it.
#[derive(Clone, Copy)]
pub struct Entry<'a> {
    pub term: &'a Term,
    pub place: usize,
    pub guess: u128,
}

/// Terms in their order, each once, and for each place of a list the rank of its term among them.
#[derive(Drop)]
pub struct Ranked<'a> {
    pub terms: Vec<&'a Term>,
    pub ranks: Vec<usize>,
}

/// Where the last part of an IRI begins, behind its last slash or number sign.
fn name_start(iri: &[u8]) -> usize
    ensures { result ≤ length iri.now }
{
    for back in 0..iri.len() {
        let at = iri.len() - 1 - back;
        if iri[at] == b'/' || iri[at] == b'#' {
            return at + 1;
        }
    }
    0
}

/// The number of a group, and behind it the first twelve bytes of a text and its closing mark, as one number that
/// is ordered as they are.
fn guess_of(group: u32, text: &[u8], end: u8) -> u128 {
    let [a, b, c, d] = group.to_be_bytes();
    let mut guess = [a, b, c, d, 0, 0, 0, 0, 0, 0, 0, 0, 0, 0, 0, 0];
    for at in 4..16 {
        let from = at - 4;
        if from < text.len() {
            guess[at] = text[from];
        } else if from == text.len() {
            guess[at] = end;
        }
    }
    u128::from_be_bytes(guess)
}

/// The guess of a term. The groups of IRIs come first, then blank nodes, then literals.
fn guess_at(term: &Term) -> u128 {
    match term {
        Term::Iri(iri) => {
            let text = iri.as_str().as_bytes();
            let (front, name) = text.split_at(name_start(text));
            guess_of(low_half(mark_of(front)) / 2, name, b'>')
        }
        Term::Blank(label) => guess_of(u32::MAX - 1, label.as_str().as_bytes(), 0),
        Term::Literal { form, kind: _ } => guess_of(u32::MAX, form.as_str().as_bytes(), b'"'),
    }
}

fn entry_of<'a>(term: &'a Term, place: usize) -> Entry<'a>
    ensures term { result.term.now ≡ term.entry.now }
    ensures place { result.place ≡ place }
{
    Entry {
        term,
        place,
        guess: guess_at(term),
    }
}

/// A guess at the order of two terms, which is right where both are of one group.
fn guessed_order(a: &Entry<'_>, b: &Entry<'_>) -> Ordering {
    match a.guess.cmp(&b.guess) {
        Ordering::Equal => a.term.cmp(b.term),
        answer => answer,
    }
}

fn entries<'a>(alloc: Global, terms: &[&'a Term]) -> Result<Vec<Entry<'a>>, OutOfMemory>
    ensures { IfOk result (λ v. AreEntries (borrowed_terms terms.entry.now) v.items) }
{
    let mut entries = Vec::with_capacity(alloc, terms.len())?;
    for place in 0..terms.len() {
        entries.push(entry_of(terms[place], place))?;
    }
    Ok(entries)
}

/// The entries of the terms in their order. They are sorted twice: by the guess, which looks at few
/// terms, and then by the terms, which takes one comparison for each where the guess was right.
fn sorted_entries<'a>(alloc: Global, terms: &[&'a Term]) -> Result<Vec<Entry<'a>>, OutOfMemory>
    ensures entries { IfOk result (λ v. AreEntries (borrowed_terms terms.entry.now) v.items) }
    ensures sorted { IfOk result (λ v. IsSortedBy (λ a b. is_lt (term_order a.term.now b.term.now)) v.items) }
{
    let mut entries = entries(alloc, terms)?;
    entries.sort_unstable_by(|a, b| guessed_order(a, b));
    entries.sort_by(|a, b| a.term.cmp(b.term))?;
    Ok(entries)
}

/// Whether a term is the last of these.
fn is_last(terms: &[&Term], term: &Term) -> bool
    ensures yes { IsTrue result → (0 < length (borrowed_terms terms.now)) ×
        ((n : ℕ) → n + 1 ≡ length (borrowed_terms terms.now) → term_at (borrowed_terms terms.now) n ≡ term.now) }
    ensures no { result ≡ false → (n : ℕ) → n + 1 ≡ length (borrowed_terms terms.now) →
        term_at (borrowed_terms terms.now) n ≢ term.now }
{
    let count = terms.len();
    if count == 0 {
        return false;
    }
    *terms[count - 1] == *term
}

/// The rank of a term that is not below the last, which is added unless it is the last.
fn rank_of<'a>(terms: &mut Vec<&'a Term>, term: &'a Term) -> Result<usize, OutOfMemory>
    ensures gathers { IfOk result
        (λ rank. Gathers (borrowed_terms terms.old.items) (borrowed_terms terms.new.items) term.entry.now rank) }
    ensures last { IfOk result (λ rank. rank + 1 ≡ length (borrowed_terms terms.new.items)) }
    ensures ascending { IfOk result
        (λ rank. IsStrictlySortedBy term_order (borrowed_terms terms.old.items) →
        ((n : ℕ) → n + 1 ≡ length (borrowed_terms terms.old.items) →
        is_lt (term_order term.entry.now (term_at (borrowed_terms terms.old.items) n)) ≡ false) →
        IsStrictlySortedBy term_order (borrowed_terms terms.new.items)) }
{
    let held = terms.len();
    if is_last(terms.as_slice(), term) {
        return Ok(held - 1);
    }
    terms.push(term)?;
    Ok(held)
}

/// The terms of a list in their order, each once, and the rank of each place's term.
pub(crate) fn rank_terms<'a>(alloc: Global, terms: &[&'a Term]) -> Result<Ranked<'a>, OutOfMemory>
    ensures { IfOk result
        (λ r. AreRanked (borrowed_terms terms.entry.now) (borrowed_terms r.terms.items) r.ranks.items) }
{
    let entries = sorted_entries(alloc, terms)?;
    let mut ranks = vec![in alloc; 0; terms.len()]?;
    let mut ordered = Vec::new(alloc);
    for entry in &entries {
        let rank = rank_of(&mut ordered, entry.term)?;
        ranks[entry.place] = rank;
    }
    Ok(Ranked {
        terms: ordered,
        ranks,
    })
}

fn id_triple(p: Places, ranks: &[usize]) -> IdTriple
    requires places { HasRanks ranks.now p }
    requires small { All (λ rank. rank < 4294967296) ranks.now }
    ensures { result ≡ ids_of ranks.now p }
{
    IdTriple {
        subject: ranks[p.subject] as u32,
        predicate: ranks[p.predicate] as u32,
        object: ranks[p.object] as u32,
    }
}

/// Triples by the ranks of their terms.
pub(crate) fn id_triples(
    alloc: Global,
    triples: &[Places],
    ranks: &[usize],
) -> Result<Vec<IdTriple>, OutOfMemory>
    requires places { All (HasRanks ranks.now) triples.now }
    requires small { All (λ rank. rank < 4294967296) ranks.now }
    ensures { IfOk result (λ v. v.items ≡ map (ids_of ranks.now) triples.now) }
{
    let mut ids = Vec::with_capacity(alloc, triples.len())?;
    for p in triples {
        ids.push(id_triple(*p, ranks))?;
    }
    Ok(ids)
}

// The terms of a table in their order, which only one counting call compares.
ghost use Rattle.std.specs.Prelude.{ℕ, ◌≡◌, ◌+◌, ◌<◌, ◌≤◌, ◌^◌, List, length, map, slice_index_or, All, MatchOption};
ghost use Rattle.std.specs.List.{Contains};
ghost use Rattle.std.specs.List.Sorted.{IsStrictlySortedBy};
ghost use Rattle.rdf_terms.specs.declared.term.Term.{Term};
ghost use Rattle.rdf_terms.specs.Canon.{canonical_term};
ghost use Rattle.rdf_terms.specs.Order.{term_order};
ghost use Rattle.rdf_terms.specs.Valid.{IsValidTerm};
ghost use Rattle.triple_table.specs.Lengths.{kept_length};

use rdf_terms::Term;
use std::cmp::Ordering;
use std::marker::Model;
use std::sync::ledger::Ledger;
use tpf_base::Steps;

/// The terms of a table, which contracts see as a list of valid terms. Beside each stands the length of its
/// canonical text, so that no text is read for it.
#[derive(Drop)]
pub struct TermList {
    terms: Vec<Term>,
    lengths: Vec<u32>,
}

/// The length of a term's canonical text as it is kept: 4294967295 stands for itself and all above.
pub(crate) fn kept_length(term: &Term) -> u32
    ensures { result ≡ kept_length term.now }
{
    let length = term.canonical_len();
    if length < u32::MAX as u128 {
        length as u32
    } else {
        u32::MAX
    }
}

impl Model for TermList {
    ghost use Rattle.std.specs.Prelude.{List, All, map, ◌≡◌};
    ghost use Rattle.rdf_terms.specs.declared.term.Term.{Term};
    ghost use Rattle.rdf_terms.specs.Valid.{IsValidTerm};
    ghost use Rattle.triple_table.specs.Lengths.{kept_length};

    ghost Value = { List Term };

    ghost view = { λ t. t.terms.items };

    ghost invariant = { λ t. All IsValidTerm t.terms.items × (t.lengths.items ≡ map kept_length t.terms.items) };
}

impl TermList {
    pub(crate) fn from_vecs(terms: Vec<Term>, lengths: Vec<u32>) -> TermList
        requires valid { All IsValidTerm terms.items }
        requires lengths { lengths.items ≡ map kept_length terms.items }
        ensures { result ≡ terms.items }
    {
        TermList { terms, lengths }
    }

    /// Each term keeps its rules. The call does nothing; it tells a proof of it.
    pub(crate) fn are_valid(&self)
        ensures { All IsValidTerm self.now }
    {
        // a field is read, so that the invariant is at hand in the proof
        let _terms = &self.terms;
    }

    pub(crate) fn len(&self) -> usize
        ensures { result ≡ length self.now }
    {
        self.terms.len()
    }

    pub(crate) fn get(&self, i: usize) -> &Term
        requires { i < length self.now }
        ensures { (d : Term) → slice_index_or self.now i d ≡ result.now }
    {
        &self.terms[i]
    }

    /// How many bytes the canonical text of a term has. It is read only where it has 4294967295 or more.
    pub(crate) fn canonical_len(&self, i: usize) -> u128
        requires { i < length self.now }
        ensures length { (d : Term) → result ≡ length (canonical_term (slice_index_or self.now i d)) }
        ensures small { result < 2 ^ 67 }
    {
        let kept = self.lengths[i];
        if kept == u32::MAX {
            self.terms[i].canonical_len()
        } else {
            kept as u128
        }
    }

    /// One comparison, which is one step.
    fn compare<L: Ledger>(&self, i: usize, term: &Term, steps: &mut Steps<L>) -> Ordering
        requires { i < length self.now }
        ensures value { (d : Term) → result ≡ term_order (slice_index_or self.now i d) term.now }
        ensures cost { steps.new ≡ steps.old + 1 }
    {
        steps.tick();
        self.terms[i].cmp(term)
    }

    /// The place of a term.
    pub(crate) fn find<L: Ledger>(&self, term: &Term, steps: &mut Steps<L>) -> Option<usize>
        requires { IsStrictlySortedBy term_order self.now }
        ensures place { MatchOption result (Contains self.now term.now → ⊥)
            (λ i. (i < length self.now) × ((d : Term) → slice_index_or self.now i d ≡ term.now)) }
        ensures counted { steps.old ≤ steps.new }
        ensures cost { (digits : ℕ) → length self.now < 2 ^ digits → steps.new ≤ steps.old + digits }
    {
        let mut low = 0;
        let mut high = self.len();
        while low < high {
            let middle = low + (high - low) / 2;
            match self.compare(middle, term, steps) {
                Ordering::Less => low = middle + 1,
                Ordering::Equal => return Some(middle),
                Ordering::Greater => high = middle,
            }
        }
        None
    }
}

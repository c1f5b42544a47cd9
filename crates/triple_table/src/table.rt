// The table: the terms by rank, and the triples in three orders.
ghost use Rattle.std.specs.Prelude.{ℕ, ◌≡◌, ◌+◌, ◌-◌, ◌*◌, ◌<◌, ◌≤◌, ◌^◌, length, slice_index_or, MatchOption};
ghost use Rattle.std.specs.List.{Contains, AllByRecursion};
ghost use Rattle.rdf_terms.specs.declared.term.Triple.{Triple};
ghost use Rattle.rdf_terms.specs.declared.term.Term.{Term};
ghost use Rattle.rdf_terms.specs.Canon.{canonical_term};
ghost use Rattle.rdf_terms.specs.Fragments.{IsFragment};
ghost use Rattle.rdf_terms.specs.Triples.{IsDataSet};
ghost use Rattle.rdf_terms.specs.Valid.{IsValidTerm, IsValidTriple};
ghost use Rattle.triple_table.specs.Rows.{order_for};
ghost use Rattle.triple_table.specs.Served.{terms_of};
ghost use Rattle.triple_table.specs.Stored.{Stored, IsStored, IsOrdered, IsRange, IsRanking, IsIdPattern, IsIdTriple, held_terms, term_at, triple_at, triples_in, rows_in, listed, slots_at};

use crate::ids::{IdPattern, IdTriple, Order, Range};
use crate::rows::Rows;
use crate::term_list::TermList;
use rdf_terms::Term;
use std::marker::Model;
use std::sync::ledger::Ledger;
use tpf_base::Steps;

/// A data set in memory, from which the triples of a pattern are listed by binary search.
///
/// A term's id is its place, from 0, in the term dictionary: all terms of the data set, each once, in
/// the order of terms. The table keeps one copy of each term, 4 bytes for its length, and 36 bytes for each
/// triple.
pub struct Table {
    pub(crate) terms: TermList,
    pub(crate) spo: Rows,
    pub(crate) pos: Rows,
    pub(crate) osp: Rows,
}

// Written out, so that who drops one calls this, and does not take it apart at each exit.
impl Drop for Table {
    fn drop(self) {
        let Table {
            terms: _terms,
            spo: _spo,
            pos: _pos,
            osp: _osp,
        } = self;
    }
}

impl Model for Table {
    ghost use Rattle.triple_table.specs.Stored.{Stored, IsStored};

    ghost Value = { Stored };

    ghost view = { λ t. record { terms = t.terms; spo = t.spo; pos = t.pos; osp = t.osp } };

    ghost invariant = { λ t. IsStored record { terms = t.terms; spo = t.spo; pos = t.pos; osp = t.osp } };
}

impl Table {
    /// The rows of an order.
    fn rows(&self, order: Order) -> &Rows
        ensures rows { result.now ≡ rows_in self.now order }
        ensures ordered { IsOrdered self.now order result.now }
    {
        match order {
            Order::Spo => &self.spo,
            Order::Pos => &self.pos,
            Order::Osp => &self.osp,
        }
    }

    /// The id of a term: its place, from 0, among all terms of the table in the order of terms. `None`
    /// exactly where no triple of the table holds it. With d the number of binary digits of the
    /// number of triples it compares at most d + 2 times, each a step. It takes no memory.
    pub fn id<L: Ledger>(&self, term: &Term, steps: &mut Steps<L>) -> Option<u32>
        ensures id { MatchOption result (Contains (terms_of (triples_in self.now)) term.now → ⊥)
            (λ id. (id < length (held_terms self.now)) × (term_at (held_terms self.now) id ≡ term.now)) }
        ensures counted { steps.old ≤ steps.new }
        ensures cost { (digits : ℕ) → length (triples_in self.now) < 2 ^ digits → steps.new ≤ steps.old + (digits + 2) }
    {
        let place = self.terms.find(term, steps)?;
        Some(place as u32)
    }

    /// The term with an id, which is to be an id of this table: below the number of its terms, as `id`
    /// and `at` give it.
    /// It keeps the rules of its texts.
    pub fn term(&self, id: u32) -> &Term
        requires { id < length (held_terms self.now) }
        ensures term { result.now ≡ term_at (held_terms self.now) id }
        ensures valid { IsValidTerm result.now }
    {
        let term = self.terms.get(id as usize);
        term.is_valid();
        term
    }

    /// How many bytes the canonical text of the term with an id has, which is to be an id of this table. The
    /// number is kept: only of a text of 4294967295 bytes or more is a byte read.
    pub fn canonical_len(&self, id: u32) -> u128
        requires { id < length (held_terms self.now) }
        ensures length { result ≡ length (canonical_term (term_at (held_terms self.now) id)) }
        ensures small { result < 2 ^ 67 }
    {
        self.terms.canonical_len(id as usize)
    }

    /// How many triples there are, each counted once. They are a data set of valid terms, and the term
    /// dictionary holds exactly their terms.
    #[tactic(auto, using(crate::proofs::Kept::triples_are_valid))]
    pub fn len(&self) -> usize
        ensures len { result ≡ length (triples_in self.now) }
        ensures data_set { IsDataSet (triples_in self.now) }
        ensures valid { AllByRecursion IsValidTriple (triples_in self.now) }
        ensures ranking { IsRanking (triples_in self.now) (held_terms self.now) }
    {
        self.terms.are_valid();
        self.spo.len()
    }

    /// The triples that match a pattern of ids, as a range of the order in which they stand side by
    /// side. The pattern is to have ids of this table alone; where no triple matches the range is
    /// empty. With d the number of binary digits of the number of triples it compares at most 2 d
    /// times, each a step. It takes no memory.
    pub fn range<L: Ledger>(&self, p: &IdPattern, steps: &mut Steps<L>) -> Range
        requires { IsIdPattern self.now p.now }
        ensures order { result.order ≡ order_for p.now }
        ensures range { IsRange self.now result }
        ensures fragment { IsFragment (triples_in self.now) (slots_at self.now p.now) (listed self.now result) }
        ensures counted { steps.old ≤ steps.new }
        ensures cost { (digits : ℕ) → length (triples_in self.now) < 2 ^ digits → steps.new ≤ steps.old + 2 * digits }
    {
        // a field is read, so that the table's invariant is at hand in the proof
        let _rows = &self.spo;
        let order = p.order();
        let rows = self.rows(order);
        let from = rows.place(p.bound(0), false, steps);
        let to = rows.place(p.bound(u32::MAX), true, steps);
        Range { order, from, to }
    }

    /// How many triples a range has, which is to be a range of this table, as `range` gives it. It
    /// takes no time that grows with the range.
    pub fn count(&self, r: &Range) -> usize
        requires { IsRange self.now r.now }
        ensures size { result ≡ r.now.to - r.now.from }
        ensures count { result ≡ length (listed self.now r.now) }
    {
        // a field is read, so that the table's invariant is at hand in the proof
        let _rows = &self.spo;
        r.to - r.from
    }

    /// The triple at place `i`, from 0, of a range, by ids of the table. The range is to be one of this
    /// table, and the place below its count.
    pub fn at(&self, r: &Range, i: usize) -> IdTriple
        requires range { IsRange self.now r.now }
        requires within { i < r.now.to - r.now.from }
        ensures ids { IsIdTriple (held_terms self.now) result }
        ensures triple { (d : Triple) →
            slice_index_or (listed self.now r.now) i d ≡ triple_at (held_terms self.now) result }
    {
        r.order.triple(self.rows(r.order).row(r.from + i))
    }
}

// Building the table: the terms by rank, and the triples as rows in each order.
ghost use Rattle.std.specs.Prelude.{ℕ, ◌≡◌, ◌*◌, ◌<◌, ◌≤◌, ◌^◌, ◌++◌, List, [], ◌∷◌, map, length, All, IfOk, OnOk, IsErrOf};
ghost use Rattle.std.specs.List.{Contains};
ghost use Rattle.std.specs.List.Sorted.{IsPermutation, IsSortedByKey, IsStrictlySortedBy};
ghost use Rattle.std.specs.Ordering.{nat_cmp};
ghost use Rattle.rdf_terms.specs.declared.term.Term.{Term};
ghost use Rattle.rdf_terms.specs.declared.term.Triple.{Triple};
ghost use Rattle.rdf_terms.specs.Order.{term_order, triple_order};
ghost use Rattle.rdf_terms.specs.Triples.{IsDataSet, IsGroundTriple, IsRdfQuad};
ghost use Rattle.rdf_terms.specs.Valid.{IsValidTerm};
ghost use Rattle.tpf_base.specs.Addresses.{IsAuthority};
ghost use Rattle.triple_table.specs.Chosen.{chosen};
ghost use Rattle.triple_table.specs.Genid.{skolem_triple};
ghost use Rattle.triple_table.specs.Lengths.{kept_length};
ghost use Rattle.triple_table.specs.Ranking.{borrowed_terms, ids_of, HasMoreTerms, HasRanks, HoldsMore, SameMembers};
ghost use Rattle.triple_table.specs.Rows.{key, row_of};
ghost use Rattle.triple_table.specs.Served.{Clashes, IsLeastClash, IsServed};
ghost use Rattle.triple_table.specs.Stored.{IsRanking, IsIdTriple, PassesMost, triple_at, triples_in, held_terms};

use crate::data_set::refuse_clash;
use crate::gather::{Places, gather, genid_terms, served_terms};
use crate::ids::{IdTriple, Order};
use crate::ranking::{Ranked, id_triples, rank_terms};
use crate::rows::{Rows, key};
use crate::term_list::{TermList, kept_length};
use crate::{BuildFault, Choice, Table};
use rdf_terms::{Quad, Term};
use std::alloc::Global;
use tpf_base::OutOfMemory;

/// Adds the copy of a term, and the length of its canonical text.
fn push_copy(
    alloc: Global,
    copies: &mut Vec<Term>,
    lengths: &mut Vec<u32>,
    term: &Term,
) -> Result<(), OutOfMemory>
    ensures copies { OnOk result (copies.new.items ≡ copies.old.items ++ term.now ∷ []) }
    ensures lengths { OnOk result (lengths.new.items ≡ lengths.old.items ++ kept_length term.now ∷ []) }
    ensures valid { IsValidTerm term.now }
{
    term.is_valid();
    lengths.push(kept_length(term))?;
    copies.push(term.copy(alloc)?)?;
    Ok(())
}

/// Copies of terms, each with the length of its canonical text.
fn copies_of(alloc: Global, terms: &[&Term]) -> Result<TermList, OutOfMemory>
    ensures { IfOk result (λ copies. copies ≡ borrowed_terms terms.now) }
{
    let mut copies = Vec::with_capacity(alloc, terms.len())?;
    let mut lengths = Vec::with_capacity(alloc, terms.len())?;
    for term in terms {
        push_copy(alloc, &mut copies, &mut lengths, term)?;
    }
    Ok(TermList::from_vecs(copies, lengths))
}

/// Copies of ranked terms, where they are not too many, and triples by the ranks of theirs.
fn by_ranks(
    alloc: Global,
    triples: &[Places],
    ranked: &Ranked<'_>,
    most: u32,
) -> Result<(TermList, Vec<IdTriple>), BuildFault>
    requires places { All (HasRanks ranked.now.ranks.items) triples.now }
    requires ranks { All (λ rank. rank < length (borrowed_terms ranked.now.terms.items)) ranked.now.ranks.items }
    ensures terms { IfOk result (λ r. r.0 ≡ borrowed_terms ranked.now.terms.items) }
    ensures few { IfOk result (λ r. length r.0 ≤ most) }
    ensures ids { IfOk result (λ r. r.1.items ≡ map (ids_of ranked.now.ranks.items) triples.now) }
    ensures too_many { IsErrOf result BuildFault.TooMany → most < length (borrowed_terms ranked.now.terms.items) }
    ensures never { (label : List ℕ) → ¬ (IsErrOf result (BuildFault.GenidClash label)) }
{
    if ranked.terms.len() > most as usize {
        return Err(BuildFault::TooMany);
    }
    let ids = id_triples(alloc, triples, ranked.ranks.as_slice())?;
    let terms = copies_of(alloc, ranked.terms.as_slice())?;
    Ok((terms, ids))
}

/// The served terms in their order, each once, and the chosen triples as they are served, with repeats,
/// by their ids.
fn ranked_triples(
    alloc: Global,
    quads: &[Quad],
    choice: &Choice,
    authority: &str,
    most: u32,
) -> Result<(TermList, Vec<IdTriple>), BuildFault>
    requires { IsAuthority authority.now }
    ensures ranking { IfOk result
        (λ r. IsRanking (map (skolem_triple authority.now) (chosen choice.now quads.now)) r.0) }
    ensures few { IfOk result (λ r. length r.0 ≤ most) }
    ensures ids { IfOk result (λ r. All (IsIdTriple r.0) r.1.items) }
    ensures triples { IfOk result
        (λ r. map (triple_at r.0) r.1.items ≡ map (skolem_triple authority.now) (chosen choice.now quads.now)) }
    ensures too_many { IsErrOf result BuildFault.TooMany →
        HasMoreTerms most (map (skolem_triple authority.now) (chosen choice.now quads.now)) }
    ensures never { (label : List ℕ) → ¬ (IsErrOf result (BuildFault.GenidClash label)) }
{
    let gathered = gather(alloc, quads, choice)?;
    let genids = genid_terms(alloc, gathered.terms.as_slice(), authority)?;
    let served = served_terms(alloc, gathered.terms.as_slice(), genids.as_slice())?;
    let ranking = rank_terms(alloc, served.as_slice());
    drop(served);
    let ranked = ranking?;
    by_ranks(alloc, gathered.triples.as_slice(), &ranked, most)
}

/// The triples by ids, each once, in their order.
fn distinct_ids(triples: Vec<IdTriple>) -> Vec<IdTriple>
    ensures ids { (terms : List Term) → All (IsIdTriple terms) triples.items → All (IsIdTriple terms) result.items }
    ensures ascending { (terms : List Term) → length terms < 2 ^ 32 → IsStrictlySortedBy term_order terms →
        All (IsIdTriple terms) triples.items → IsStrictlySortedBy triple_order (map (triple_at terms) result.items) }
    ensures members { (terms : List Term) →
        SameMembers (map (triple_at terms) result.items) (map (triple_at terms) triples.items) }
{
    let mut ids = triples;
    ids.sort_unstable_by_key(|triple| key(Order::Spo.row(*triple)));
    ids.dedup();
    ids
}

/// The rows of an order, sorted as numbers.
fn ordered_rows(alloc: Global, ids: &[IdTriple], order: Order) -> Result<Rows, OutOfMemory>
    ensures permutation { IfOk result (λ rows. IsPermutation (map (row_of order) ids.now) rows) }
    ensures sorted { IfOk result (λ rows. IsSortedByKey key nat_cmp rows) }
{
    let mut rows = Vec::with_capacity(alloc, ids.len())?;
    for triple in ids {
        rows.push(order.row(*triple))?;
    }
    rows.sort_unstable_by_key(|row| key(*row));
    Ok(Rows::from_vec(rows))
}

/// The table of a data set by ids, and its terms.
fn table_by_ids(alloc: Global, ids: &[IdTriple], terms: TermList) -> Result<Table, OutOfMemory>
    requires ids { All (IsIdTriple terms) ids.now }
    requires data_set { IsDataSet (map (triple_at terms) ids.now) }
    requires ranking { IsRanking (map (triple_at terms) ids.now) terms }
    requires few { length terms ≤ 3 * length ids.now }
    requires small { length terms < 2 ^ 32 }
    ensures members { IfOk result (λ table. SameMembers (triples_in table) (map (triple_at terms) ids.now)) }
    ensures data_set { IfOk result (λ table. IsDataSet (triples_in table)) }
    ensures ranking { IfOk result (λ table. IsRanking (triples_in table) (held_terms table)) }
    ensures terms { IfOk result (λ table. held_terms table ≡ terms) }
    ensures size { IfOk result (λ table. length (triples_in table) ≡ length ids.now) }
{
    let spo = ordered_rows(alloc, ids, Order::Spo)?;
    let pos = ordered_rows(alloc, ids, Order::Pos)?;
    let osp = ordered_rows(alloc, ids, Order::Osp)?;
    Ok(Table {
        terms,
        spo,
        pos,
        osp,
    })
}

/// The table of triples by ids that may repeat, where they are not too many.
fn table_of(
    alloc: Global,
    terms: TermList,
    triples: Vec<IdTriple>,
    most: u32,
) -> Result<Table, BuildFault>
    requires ids { All (IsIdTriple terms) triples.items }
    requires ground { (t : Triple) → Contains (map (triple_at terms) triples.items) t → IsGroundTriple t }
    requires ranking { IsRanking (map (triple_at terms) triples.items) terms }
    requires few { length terms ≤ most }
    ensures members { IfOk result (λ table. SameMembers (triples_in table) (map (triple_at terms) triples.items)) }
    ensures data_set { IfOk result (λ table. IsDataSet (triples_in table)) }
    ensures ranking { IfOk result (λ table. IsRanking (triples_in table) (held_terms table)) }
    ensures few_triples { IfOk result (λ table. length (triples_in table) ≤ most) }
    ensures few_terms { IfOk result (λ table. length (held_terms table) ≤ most) }
    ensures too_many { IsErrOf result BuildFault.TooMany → HoldsMore most (map (triple_at terms) triples.items) }
    ensures never { (label : List ℕ) → ¬ (IsErrOf result (BuildFault.GenidClash label)) }
{
    let ids = distinct_ids(triples);
    if ids.len() > most as usize {
        return Err(BuildFault::TooMany);
    }
    let table = table_by_ids(alloc, ids.as_slice(), terms)?;
    Ok(table)
}

impl Table {
    /// The table of the triples that `served` gives, of at most so many triples and so many terms.
    ///
    /// `GenidClash` comes as it does there. `TooMany` comes exactly where there is no clash and the
    /// distinct triples, or their distinct terms, are more than `most`. `OutOfMemory` comes where memory
    /// runs out, at any point. The conditions on the authority and the quads are those of `served`.
    ///
    /// No triple is copied or compared whole: the terms are ranked where they stand in the quads, each
    /// distinct term is copied once, and the triples are sorted as numbers. The work is that of
    /// sorting the terms.
    pub fn build(
        alloc: Global,
        quads: &[Quad],
        choice: &Choice,
        authority: &str,
        most: u32,
    ) -> Result<Table, BuildFault>
        requires authority { IsAuthority authority.now }
        requires classes { All IsRdfQuad quads.now }
        ensures served { IfOk result
            (λ table. IsServed authority.now (chosen choice.now quads.now) (triples_in table)) }
        ensures ranking { IfOk result (λ table. IsRanking (triples_in table) (held_terms table)) }
        ensures few_triples { IfOk result (λ table. length (triples_in table) ≤ most) }
        ensures few_terms { IfOk result (λ table. length (held_terms table) ≤ most) }
        ensures clash_free { OnOk result
            ((label : List ℕ) → ¬ (Clashes authority.now (chosen choice.now quads.now) label)) }
        ensures clash { (label : List ℕ) → IsErrOf result (BuildFault.GenidClash label) →
            IsLeastClash authority.now (chosen choice.now quads.now) label }
        ensures too_many { IsErrOf result BuildFault.TooMany →
            PassesMost most authority.now (chosen choice.now quads.now) }
    {
        refuse_clash(alloc, quads, choice, authority)?;
        let (terms, triples) = ranked_triples(alloc, quads, choice, authority, most)?;
        table_of(alloc, terms, triples, most)
    }
}

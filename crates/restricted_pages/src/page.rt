// A page of what rows leave of a fragment.
ghost use Rattle.std.specs.Prelude.{◌≡◌, ◌-◌, ◌*◌, ◌<◌, ◌≤◌, ◌^◌, min, length, All, IfOk};
ghost use Rattle.rdf_terms.specs.Fragments.{fragment, last_page_of};
ghost use Rattle.rdf_terms.specs.Triples.{IsDataSet};
ghost use Rattle.triple_table.specs.Stored.{IsRange, IsRanking, IsIdPattern, held_terms, listed, triples_in};
ghost use Rattle.restricted_pages.specs.Pages.{IsSelectedAnswer};
ghost use Rattle.restricted_pages.specs.Patterns.{AreWithin, IsKnown, IsPageFound, IsPageOf, IsPageOfList, IsStart, found, gathered, left_of};

use crate::list::{gathered, in_order, total_of};
use crate::patterns::{are_disjoint, order_of, patterns_of};
use crate::scan::walked;
use crate::sieve::Sieve;
use fragment_pages::page;
use rdf_terms::Slots;
use std::alloc::Global;
use std::sync::ledger::Ledger;
use tpf_base::{OutOfMemory, Steps};
use triple_table::{IdPattern, IdTriple, Range, Table};

/// A page of what rows leave of a fragment.
#[derive(Drop)]
pub struct RestrictedPage {
    /// The triples of the page, in the order of the fragment, by ids of the table.
    pub triples: Vec<IdTriple>,
    /// How many triples all pages have together.
    pub count: u64,
}

/// However few triples a table has, so many are listed and sorted rather than looked for in the whole fragment.
pub const ALWAYS_LISTED: u64 = 4096;

/// At most one triple in so many of a table is listed and sorted.
const LISTED_SHARE: u64 = 16;

/// The last page of so many triples.
fn last_of(count: u64, size: u64) -> u64
    requires { 1 ≤ size }
    ensures { result ≡ last_page_of count size }
{
    count.div_ceil(size).max(1)
}

/// The place of the first triple of page `k` of so many; `None` where there is no such page.
fn start_of(count: u64, k: u64, size: u64) -> Option<u64>
    requires { 1 ≤ size }
    ensures { IsStart count k size result }
{
    if k == 0 || k > last_of(count, size) {
        return None;
    }
    Some((k - 1) * size)
}

/// Page `k` of a list.
fn listed_page(
    alloc: Global,
    ids: &[IdTriple],
    k: u64,
    size: u64,
) -> Result<Option<RestrictedPage>, OutOfMemory>
    requires { 1 ≤ size }
    ensures { IfOk result (λ page. IsPageOfList ids.now k size page) }
{
    let count = ids.len() as u64;
    let Some(start) = start_of(count, k, size) else {
        return Ok(None);
    };
    let rest = &ids[start as usize..];
    let most = size.min(rest.len() as u64);
    let triples = rest[..most as usize].to_vec(alloc)?;
    Ok(Some(RestrictedPage { triples, count }))
}

/// The range of the fragment, and how many of its triples match one of the patterns where that is known without a
/// look at them: they match `total` triples where one that two of them match counts twice.
fn counted<L: Ledger>(
    table: &Table,
    slots: &Slots,
    patterns: &[IdPattern],
    total: u64,
    steps: &mut Steps<L>,
) -> (Range, Option<u64>)
    requires small { length (triples_in table.now) < 2 ^ 64 }
    requires data_set { IsDataSet (triples_in table.now) }
    requires ranking { IsRanking (triples_in table.now) (held_terms table.now) }
    requires patterns { AreWithin table.now slots.now patterns.now }
    requires total { total ≡ min (length (gathered table.now patterns.now)) (2 ^ 64 - 1) }
    ensures range { IsRange table.now result.0 }
    ensures lists { listed table.now result.0 ≡ fragment (triples_in table.now) slots.now }
    ensures count { IsKnown result.1 (length (left_of table.now slots.now patterns.now)) }
{
    let Some(whole) = page(table, slots, 1, 1, steps) else {
        unreachable!();
    };
    if are_disjoint(patterns) {
        (whole.range, Some(total))
    } else {
        (whole.range, None)
    }
}

/// Page `k` of the triples of a range, so many, that match one of the patterns; it is read up to the end of the page.
fn known_page(
    alloc: Global,
    table: &Table,
    range: &Range,
    patterns: &Sieve,
    count: u64,
    k: u64,
    size: u64,
) -> Result<Option<RestrictedPage>, OutOfMemory>
    requires size { 1 ≤ size }
    requires range { IsRange table.now range.now }
    requires ranking { IsRanking (triples_in table.now) (held_terms table.now) }
    requires ids { All (IsIdPattern table.now) patterns.now }
    ensures { IfOk result (λ page. IsPageOf table.now (found table.now range.now patterns.now) count k size page) }
{
    let Some(start) = start_of(count, k, size) else {
        return Ok(None);
    };
    let part = walked(alloc, table, range, patterns, start, size, false)?;
    Ok(Some(RestrictedPage {
        triples: part.triples,
        count,
    }))
}

/// Page `k` of the triples of a range that match one of the patterns; it is read once, and they are counted on the
/// way.
fn counted_page(
    alloc: Global,
    table: &Table,
    range: &Range,
    patterns: &Sieve,
    k: u64,
    size: u64,
) -> Result<Option<RestrictedPage>, OutOfMemory>
    requires size { 1 ≤ size }
    requires range { IsRange table.now range.now }
    requires ranking { IsRanking (triples_in table.now) (held_terms table.now) }
    requires ids { All (IsIdPattern table.now) patterns.now }
    ensures { IfOk result (λ page. IsPageFound table.now range.now patterns.now k size page) }
{
    let before = k.saturating_sub(1).saturating_mul(size);
    let part = walked(alloc, table, range, patterns, before, size, true)?;
    let count = part.count;
    match start_of(count, k, size) {
        Some(_) => Ok(Some(RestrictedPage {
            triples: part.triples,
            count,
        })),
        None => Ok(None),
    }
}

/// Page `k` of the triples of a range that match one of the patterns, whose number may be known.
fn walked_page(
    alloc: Global,
    table: &Table,
    range: &Range,
    patterns: &Sieve,
    known: Option<u64>,
    k: u64,
    size: u64,
) -> Result<Option<RestrictedPage>, OutOfMemory>
    requires size { 1 ≤ size }
    requires range { IsRange table.now range.now }
    requires ranking { IsRanking (triples_in table.now) (held_terms table.now) }
    requires ids { All (IsIdPattern table.now) patterns.now }
    requires known { IsKnown known (length (found table.now range.now patterns.now)) }
    ensures { IfOk result (λ page. IsPageFound table.now range.now patterns.now k size page) }
{
    match known {
        Some(count) => known_page(alloc, table, range, patterns, count, k, size),
        None => counted_page(alloc, table, range, patterns, k, size),
    }
}

/// Page `k`, counted from 1, of the triples that match the slots and at least one of the rows, with at most `size`
/// triples a page (brTPF, "bindings-restricted fragments"; Triple Pattern Fragments, "Paging"); `size` is to be at
/// least 1, and there is to be a row.
///
/// They stand in the order of the fragment, each once. `None` exactly where `k` is 0 or past the last page; where no
/// triple matches there is one empty page. Its one error is out of memory.
///
/// Each row costs two searches. Where the rows leave few triples, these are listed and sorted. Else the fragment is
/// walked once: up to the end of the page, or, where rows of different kinds leave triples in common, to its own end to
/// count them. Each triple is held by numbers against the rows whose ids have its remainders: of 64 some eight. The
/// memory is that of the page, of 512 lists of rows, and of a list of at most a sixteenth of the table's triples or of
/// `ALWAYS_LISTED` (4096).
pub fn restricted_page<L: Ledger>(
    alloc: Global,
    table: &Table,
    slots: &Slots,
    rows: &[Slots],
    k: u64,
    size: u64,
    steps: &mut Steps<L>,
) -> Result<Option<RestrictedPage>, OutOfMemory>
    requires size { 1 ≤ size }
    requires some { 1 ≤ length rows.now }
    ensures { IfOk result (λ page. IsSelectedAnswer table.now slots.now rows.now k size page) }
{
    let most = (table.len() as u64 / LISTED_SHARE).max(ALWAYS_LISTED);
    let patterns = patterns_of(alloc, table, slots, rows, steps)?;
    let total = total_of(table, patterns.as_slice(), steps);
    if total <= most {
        let ids = gathered(alloc, table, patterns.as_slice(), steps)?;
        let ids = in_order(ids, order_of(slots));
        listed_page(alloc, ids.as_slice(), k, size)
    } else {
        let sieve = Sieve::new(alloc, patterns)?;
        let (range, known) = counted(table, slots, sieve.patterns(), total, steps);
        walked_page(alloc, table, &range, &sieve, known, k, size)
    }
}

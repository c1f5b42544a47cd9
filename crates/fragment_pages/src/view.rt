// A page of a fragment, found by binary search.
ghost use Rattle.std.specs.Prelude.{ℕ, ◌≡◌, ◌+◌, ◌-◌, ◌*◌, ◌/◌, ◌<◌, ◌≤◌, ◌^◌, min, MatchOption, length};
ghost use Rattle.rdf_terms.specs.Fragments.{fragment, last_page_of};
ghost use Rattle.triple_table.specs.Stored.{triples_in, listed, IsRange};
ghost use Rattle.fragment_pages.specs.Pages.{IsPage, IsPageNumber};
ghost use Rattle.fragment_pages.specs.SlotIds.{IsSlotId, IsPatternOf};

use rdf_terms::{Slot, Slots};
use std::sync::ledger::Ledger;
use tpf_base::Steps;
use triple_table::{IdPattern, Order, Range, Table};

/// A page of a fragment: the triples at the places from `from` up to, and without, `to` of `range`.
#[derive(Clone, Copy)]
pub struct PageView {
    /// The whole fragment, as a range of the table.
    pub range: Range,
    /// The place of the page's first triple among those of `range`, counted from 0, as `Table::at`
    /// takes it.
    pub from: usize,
    /// The place behind its last triple, at most the count; the same as `from` where the fragment is
    /// empty.
    pub to: usize,
    /// How many triples the fragment has.
    pub count: u64,
    /// The last page: the count divided by the page size, rounded up, and at least 1.
    pub last: u64,
}

/// A slot by ids: `Some(None)` for an open one, `None` for a term that the table does not hold.
fn slot_id<L: Ledger>(table: &Table, slot: &Slot, steps: &mut Steps<L>) -> Option<Option<u32>>
    ensures id { IsSlotId table.now slot.now result }
    ensures counted { steps.old ≤ steps.new }
    ensures cost { (digits : ℕ) → length (triples_in table.now) < 2 ^ digits → steps.new ≤ steps.old + (digits + 2) }
{
    match slot {
        Slot::Any => Some(None),
        Slot::Fixed(term) => match table.id(term, steps) {
            Some(id) => Some(Some(id)),
            None => None,
        },
    }
}

/// The slots by ids, or `None` where one is a term that the table does not hold.
fn pattern_of<L: Ledger>(table: &Table, slots: &Slots, steps: &mut Steps<L>) -> Option<IdPattern>
    ensures pattern { IsPatternOf table.now slots.now result }
    ensures counted { steps.old ≤ steps.new }
    ensures cost { (digits : ℕ) → length (triples_in table.now) < 2 ^ digits
        → steps.new ≤ steps.old + 3 * (digits + 2) }
{
    let subject = slot_id(table, &slots.subject, steps)?;
    let predicate = slot_id(table, &slots.predicate, steps)?;
    let object = slot_id(table, &slots.object, steps)?;
    Some(IdPattern {
        subject,
        predicate,
        object,
    })
}

/// The range of a fragment; an empty one where a term of the slots is not held.
fn range_of<L: Ledger>(table: &Table, slots: &Slots, steps: &mut Steps<L>) -> Range
    ensures range { IsRange table.now result }
    ensures fragment { listed table.now result ≡ fragment (triples_in table.now) slots.now }
    ensures counted { steps.old ≤ steps.new }
    ensures cost { (digits : ℕ) → length (triples_in table.now) < 2 ^ digits
        → steps.new ≤ steps.old + (5 * digits + 10) }
{
    match pattern_of(table, slots, steps) {
        Some(pattern) => table.range(&pattern, steps),
        None => Range {
            order: Order::Spo,
            from: 0,
            to: 0,
        },
    }
}

/// The last page of so many triples.
fn last_of(count: u64, size: u64) -> u64
    requires { 1 ≤ size }
    ensures { result ≡ last_page_of count size }
{
    if count == 0 {
        1
    } else {
        (count - 1) / size + 1
    }
}

/// The place of the first triple of a page.
fn start_of(k: u64, size: u64, count: u64) -> u64
    requires size { 1 ≤ size }
    requires first { 1 ≤ k }
    requires last { k ≤ last_page_of count size }
    ensures start { result ≡ (k - 1) * size }
    ensures within { result ≤ count }
{
    (k - 1) * size
}

/// The place behind the last triple of a page.
fn end_of(from: u64, size: u64, count: u64) -> u64
    requires { from ≤ count }
    ensures { result ≡ min (from + size) count }
{
    if count - from < size {
        count
    } else {
        from + size
    }
}

/// Page `k`, counted from 1, of the triples that match the slots, with at most `size` triples a page
/// (Triple Pattern Fragments, "Paging"); `size` is to be at least 1.
///
/// `None` exactly where `k` is 0 or past the last page. Where the table does not hold a fixed term
/// the fragment is empty and has one empty page. With d the number of binary digits of the table's
/// length it compares at most 5 d + 10 times, each a step. It takes no memory.
pub fn page<L: Ledger>(
    table: &Table,
    slots: &Slots,
    k: u64,
    size: u64,
    steps: &mut Steps<L>,
) -> Option<PageView>
    requires { 1 ≤ size }
    ensures page { MatchOption result (IsPageNumber table.now slots.now k size → ⊥) (λ view.
        IsPageNumber table.now slots.now k size × IsPage table.now slots.now k size view) }
    ensures counted { steps.old ≤ steps.new }
    ensures cost { (digits : ℕ) → length (triples_in table.now) < 2 ^ digits
        → steps.new ≤ steps.old + (5 * digits + 10) }
{
    let range = range_of(table, slots, steps);
    let count = table.count(&range) as u64;
    let last = last_of(count, size);
    if k == 0 || k > last {
        return None;
    }
    let from = start_of(k, size, count);
    let to = end_of(from, size, count);
    Some(PageView {
        range,
        from: from as usize,
        to: to as usize,
        count,
        last,
    })
}

// What rows leave of slots, by the ids of a table.
ghost use Rattle.std.specs.Prelude.{◌≡◌, true, IfOk, OnOk, MatchOption};
ghost use Rattle.std.specs.List.{AllPairs, list_any};
ghost use Rattle.rdf_terms.specs.declared.slots.Slots.{Slots};
ghost use Rattle.restricted_pages.specs.Patterns.{NoneStands, StandsInBoth, IsJoinedId, IsJoined, ArePatternsOf, AddsRow, fits_id, fits, differ, are_apart, order_for_slots};

use rdf_terms::{Slot, Slots};
use std::alloc::Global;
use std::sync::ledger::Ledger;
use tpf_base::{OutOfMemory, Steps};
use triple_table::{IdPattern, IdTriple, Order, Table};

/// The slot in which exactly those terms stand that stand in both; `None` where there are none.
fn narrower<'a>(slot: &'a Slot, row: &'a Slot) -> Option<&'a Slot>
    ensures { MatchOption result (NoneStands slot.now row.now) (λ both. StandsInBoth slot.now row.now both.now) }
{
    match slot {
        Slot::Any => Some(row),
        Slot::Fixed(term) if row.matches(term) => Some(slot),
        Slot::Fixed(_) => None,
    }
}

/// What both slots leave, by ids: `Some(None)` where every term may stand, `None` where no term of the table may.
fn joined_id<L: Ledger>(
    table: &Table,
    slot: &Slot,
    row: &Slot,
    steps: &mut Steps<L>,
) -> Option<Option<u32>>
    ensures { IsJoinedId table.now slot.now row.now result }
{
    match narrower(slot, row) {
        None => None,
        Some(Slot::Any) => Some(None),
        Some(Slot::Fixed(term)) => match table.id(term, steps) {
            Some(id) => Some(Some(id)),
            None => None,
        },
    }
}

/// What slots and a row leave, by ids; `None` where no triple of the table matches both.
fn pattern_of<L: Ledger>(
    table: &Table,
    slots: &Slots,
    row: &Slots,
    steps: &mut Steps<L>,
) -> Option<IdPattern>
    ensures { IsJoined table.now slots.now row.now result }
{
    let subject = joined_id(table, &slots.subject, &row.subject, steps)?;
    let predicate = joined_id(table, &slots.predicate, &row.predicate, steps)?;
    let object = joined_id(table, &slots.object, &row.object, steps)?;
    Some(IdPattern {
        subject,
        predicate,
        object,
    })
}

/// One more pattern, unless there is none or it is there.
fn add(patterns: &mut Vec<IdPattern>, found: Option<IdPattern>) -> Result<(), OutOfMemory>
    ensures { OnOk result (AddsRow found patterns.old.items patterns.new.items) }
{
    let Some(pattern) = found else {
        return Ok(());
    };
    if !patterns.contains(&pattern) {
        patterns.push(pattern)?;
    }
    Ok(())
}

/// What the rows leave of slots, by ids, each pattern once.
pub(crate) fn patterns_of<L: Ledger>(
    alloc: Global,
    table: &Table,
    slots: &Slots,
    rows: &[Slots],
    steps: &mut Steps<L>,
) -> Result<Vec<IdPattern>, OutOfMemory>
    ensures { IfOk result (λ patterns. ArePatternsOf table.now slots.now rows.now patterns.items) }
{
    let mut patterns = Vec::new(alloc);
    for row in rows {
        let found = pattern_of(table, slots, row, steps);
        add(&mut patterns, found)?;
    }
    Ok(patterns)
}

/// Whether an id may stand at this place of a pattern.
fn fits_id(wanted: Option<u32>, id: u32) -> bool
    ensures { result ≡ fits_id wanted id }
{
    match wanted {
        None => true,
        Some(wanted) => wanted == id,
    }
}

/// Whether a triple matches one of the patterns.
pub(crate) fn matches_one(patterns: &[IdPattern], triple: IdTriple) -> bool
    ensures { result ≡ list_any (λ p. fits p triple) patterns.now }
{
    patterns.iter().any(|pattern| {
        fits_id(pattern.subject, triple.subject)
            && fits_id(pattern.predicate, triple.predicate)
            && fits_id(pattern.object, triple.object)
    })
}

/// Whether no id may stand at both places.
fn differ(one: Option<u32>, other: Option<u32>) -> bool
    ensures { result ≡ differ one other }
{
    match (one, other) {
        (Some(one), Some(other)) => one != other,
        _ => false,
    }
}

/// Whether two patterns have different ids at a place, so that no triple matches both.
fn are_apart(one: &IdPattern, other: &IdPattern) -> bool
    ensures { result ≡ are_apart one.now other.now }
{
    differ(one.subject, other.subject)
        || differ(one.predicate, other.predicate)
        || differ(one.object, other.object)
}

/// Whether each two of the patterns are apart.
pub(crate) fn are_disjoint(patterns: &[IdPattern]) -> bool
    ensures { result ≡ true → AllPairs (λ p q. are_apart p q ≡ true) patterns.now }
{
    for i in 0..patterns.len() {
        for j in i + 1..patterns.len() {
            if !are_apart(&patterns[i], &patterns[j]) {
                return false;
            }
        }
    }
    true
}

/// The order of the table in which the fragment of these slots stands.
pub(crate) fn order_of(slots: &Slots) -> Order
    ensures { result ≡ order_for_slots slots.now }
{
    match (
        matches!(slots.subject, Slot::Fixed(_)),
        matches!(slots.predicate, Slot::Fixed(_)),
        matches!(slots.object, Slot::Fixed(_)),
    ) {
        (false, true, _) => Order::Pos,
        (_, false, true) => Order::Osp,
        _ => Order::Spo,
    }
}

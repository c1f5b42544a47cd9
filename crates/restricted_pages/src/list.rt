// The triples of patterns as a list, for the case that they are few.
ghost use Rattle.std.specs.Prelude.{◌≡◌, ◌↔◌, ◌-◌, ◌^◌, length, min, IfOk, OnOk, All};
ghost use Rattle.std.specs.List.{Contains};
ghost use Rattle.std.specs.List.Sorted.{IsStrictlySortedBy};
ghost use Rattle.triple_table.specs.declared.ids.IdTriple.{IdTriple};
ghost use Rattle.triple_table.specs.Stored.{IsRange, IsIdPattern, IsIdTriple, held_terms, listed};
ghost use Rattle.restricted_pages.specs.Patterns.{AreIdsOf, Pushes, gathered, ids_in, ids_order};

use std::alloc::Global;
use std::sync::ledger::Ledger;
use tpf_base::{OutOfMemory, Steps};
use triple_table::{IdPattern, IdTriple, Order, Range, Table};

/// How many triples the patterns match, one that two patterns match counted twice; at most 2 ^ 64 - 1.
pub(crate) fn total_of<L: Ledger>(
    table: &Table,
    patterns: &[IdPattern],
    steps: &mut Steps<L>,
) -> u64
    requires { All (IsIdPattern table.now) patterns.now }
    ensures { result ≡ min (length (gathered table.now patterns.now)) (2 ^ 64 - 1) }
{
    let mut total: u64 = 0;
    for pattern in patterns {
        let range = table.range(pattern, steps);
        total = total.saturating_add(table.count(&range) as u64);
    }
    total
}

/// The triples of a range behind those that are there.
fn push_range(table: &Table, range: &Range, ids: &mut Vec<IdTriple>) -> Result<(), OutOfMemory>
    requires range { IsRange table.now range.now }
    requires ids { All (IsIdTriple (held_terms table.now)) ids.old.items }
    ensures { OnOk result (Pushes table.now ids.old.items ids.new.items (listed table.now range.now)) }
{
    for i in 0..table.count(range) {
        ids.push(table.at(range, i))?;
    }
    Ok(())
}

/// The triples that the patterns match, pattern by pattern, by ids.
pub(crate) fn gathered<L: Ledger>(
    alloc: Global,
    table: &Table,
    patterns: &[IdPattern],
    steps: &mut Steps<L>,
) -> Result<Vec<IdTriple>, OutOfMemory>
    requires { All (IsIdPattern table.now) patterns.now }
    ensures { IfOk result (λ ids. AreIdsOf table.now ids.items (gathered table.now patterns.now)) }
{
    let mut ids = Vec::new(alloc);
    for pattern in patterns {
        let range = table.range(pattern, steps);
        push_range(table, &range, &mut ids)?;
    }
    Ok(ids)
}

/// The ids by which an order compares, the first first.
fn ids_in(order: Order, triple: IdTriple) -> (u32, u32, u32)
    ensures { result ≡ ids_in order triple }
{
    let IdTriple {
        subject,
        predicate,
        object,
    } = triple;
    match order {
        Order::Spo => (subject, predicate, object),
        Order::Pos => (predicate, object, subject),
        Order::Osp => (object, subject, predicate),
    }
}

/// The triples in an order, each once.
pub(crate) fn in_order(triples: Vec<IdTriple>, order: Order) -> Vec<IdTriple>
    ensures ascending { IsStrictlySortedBy (ids_order order) result.items }
    ensures members { (t : IdTriple) → Contains result.items t ↔ Contains triples.items t }
{
    let mut ids = triples;
    ids.sort_unstable_by_key(|triple| ids_in(order, *triple));
    ids.dedup();
    ids
}

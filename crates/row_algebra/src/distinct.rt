// Rows that stand once.
ghost use Rattle.std.specs.Prelude.{◌≡◌, ℕ, ◌++◌, List, [], ◌∷◌, not, IfOk, OnOk};
ghost use Rattle.std.specs.List.{AllByRecursion, list_any};
ghost use Rattle.bgp_core.specs.Solutions.{Places};
ghost use Rattle.row_algebra.specs.Algebra.{HaveWidth, once, BindsOnly};
ghost use Rattle.row_algebra.specs.Finding.{news, same_key, flagged, row_if, HasKeys};

use crate::key::{Key, key_of};
use bgp_core::Row;
use std::alloc::Global;
use std::collections::BTreeSet;
use text_base::OutOfMemory;

/// Adds the terms of a row for some names to those that were seen, and answers whether they were not among them.
fn add_seen<'a>(
    alloc: Global,
    names: &[u32],
    row: &'a Row,
    seen: &mut BTreeSet<Key<'a>>,
) -> Result<bool, OutOfMemory>
    ensures new { IfOk result (λ new. (before : List Places) → HasKeys names.now before seen.old
        → new ≡ not (list_any (λ s. same_key names.now s row.entry.now) before)) }
    ensures seen { OnOk result ((before : List Places) → HasKeys names.now before seen.old
        → HasKeys names.now (before ++ row.entry.now ∷ []) seen.new) }
{
    let key = key_of(alloc, names, row)?;
    let new = seen.insert(key)?;
    Ok(new)
}

/// For each row whether it is the first with its terms for some names.
fn are_new(alloc: Global, names: &[u32], rows: &[Row]) -> Result<Vec<bool>, OutOfMemory>
    ensures { IfOk result (λ v. v.items ≡ news (same_key names.now) [] rows.now) }
{
    let mut seen = BTreeSet::new(alloc);
    let mut flags = Vec::with_capacity(alloc, rows.len())?;
    for row in rows {
        let new = add_seen(alloc, names, row, &mut seen)?;
        flags.push(new)?;
    }
    Ok(flags)
}

fn add_if(flag: bool, row: Row, rows: &mut Vec<Row>) -> Result<(), OutOfMemory>
    ensures { OnOk result (rows.new.items ≡ rows.old.items ++ row_if flag row) }
{
    if flag {
        rows.push(row)?;
    }
    Ok(())
}

/// The rows whose flags are set.
fn flagged(alloc: Global, flags: &[bool], rows: Vec<Row>) -> Result<Vec<Row>, OutOfMemory>
    ensures { IfOk result (λ v. v.items ≡ flagged flags.now rows.items) }
{
    let mut kept = Vec::new(alloc);
    let mut left = flags;
    for row in rows {
        if let [flag, rest @ ..] = left {
            add_if(*flag, row, &mut kept)?;
            left = rest;
        }
    }
    Ok(kept)
}

/// Each row once, in the order of their first places (Distinct; SPARQL 1.1, 18.5). Conditions: the rows have as many places
/// as each other, and bind no other name than these. The time grows with the rows and the logarithm of their number. The
/// only error is out of memory.
pub fn distinct_rows(alloc: Global, names: &[u32], rows: Vec<Row>) -> Result<Vec<Row>, OutOfMemory>
    requires width { (width : ℕ) × HaveWidth width rows.items }
    requires names { AllByRecursion (BindsOnly names.now) rows.items }
    ensures { IfOk result (λ v. v.items ≡ once rows.items) }
{
    let flags = are_new(alloc, names, rows.as_slice())?;
    let once = flagged(alloc, flags.as_slice(), rows)?;
    Ok(once)
}

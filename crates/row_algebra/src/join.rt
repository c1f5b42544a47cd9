// Join and LeftJoin of lists of rows.
ghost use Rattle.std.specs.Prelude.{◌≡◌, ◌++◌, IfOk, OnOk, length};
ghost use Rattle.std.specs.List.{AllByRecursion};
ghost use Rattle.row_algebra.specs.Algebra.{AreAsWide, HaveWidth, joined, optional, merge};
ghost use Rattle.row_algebra.specs.Finding.{BindsAll, IsIndexOf, merges_at, given_at, combined};

use crate::index::{Bucket, index_of, places_of};
use crate::key::{Key, key_of, shared_names};
use bgp_core::{Row, laws};
use std::alloc::Global;
use std::collections::BTreeMap;
use text_base::OutOfMemory;

/// Adds the union of two rows, if they are compatible.
fn add_merge(alloc: Global, row: &Row, other: &Row, rows: &mut Vec<Row>) -> Result<(), OutOfMemory>
    requires { length row.now ≡ length other.now }
    ensures { OnOk result (rows.new.items ≡ rows.old.items ++ merge row.now other.now) }
{
    if row.is_compatible(other) {
        rows.push(row.merged(alloc, other)?)?;
    }
    Ok(())
}

/// Adds the unions of a row with those at some places of a list that are compatible with it.
fn add_merges(
    alloc: Global,
    row: &Row,
    others: &[Row],
    places: &[usize],
    rows: &mut Vec<Row>,
) -> Result<(), OutOfMemory>
    requires { HaveWidth (length row.now) others.now }
    ensures { OnOk result (rows.new.items ≡ rows.old.items ++ merges_at row.now others.now places.now) }
{
    for place in places {
        if let Some(other) = others.get(*place) {
            add_merge(alloc, row, other, rows)?;
        }
    }
    Ok(())
}

/// Adds what a row of the left list gives with those at some places of the right one: the unions, or, where it is kept and
/// there are none, itself.
fn add_row(
    alloc: Global,
    keeps: bool,
    row: &Row,
    others: &[Row],
    places: &[usize],
    rows: &mut Vec<Row>,
) -> Result<(), OutOfMemory>
    requires { HaveWidth (length row.now) others.now }
    ensures { OnOk result (rows.new.items ≡ rows.old.items ++ given_at keeps others.now places.now row.now) }
{
    let before = rows.len();
    add_merges(alloc, row, others, places, rows)?;
    if keeps && rows.len() == before {
        rows.push(row.copy(alloc)?)?;
    }
    Ok(())
}

/// What the rows of the left list give with those of the right one, which stand in an index.
fn with_index<'a>(
    alloc: Global,
    keeps: bool,
    names: &[u32],
    index: &BTreeMap<Key<'a>, Bucket>,
    left: &'a [Row],
    right: &[Row],
) -> Result<Vec<Row>, OutOfMemory>
    requires index { IsIndexOf names.now right.now index.now }
    requires left { AllByRecursion (BindsAll names.now) left.now }
    requires right { AllByRecursion (BindsAll names.now) right.now }
    requires width { AreAsWide left.now right.now }
    ensures { IfOk result (λ v. v.items ≡ combined keeps left.entry.now right.now) }
{
    laws::merging_is_union();
    let mut rows = Vec::new(alloc);
    for row in left {
        let key = key_of(alloc, names, row)?;
        add_row(alloc, keeps, row, right, places_of(index, &key), &mut rows)?;
    }
    Ok(rows)
}

/// What the rows of the left list give with those of the right one. Rows of the right list are found by the terms of the
/// names that all rows of both lists bind.
fn combined<'a>(
    alloc: Global,
    keeps: bool,
    left: &'a [Row],
    right: &'a [Row],
) -> Result<Vec<Row>, OutOfMemory>
    requires { AreAsWide left.now right.now }
    ensures { IfOk result (λ v. v.items ≡ combined keeps left.entry.now right.entry.now) }
{
    let names = shared_names(alloc, left, right)?;
    let index = index_of(alloc, names.as_slice(), right)?;
    with_index(alloc, keeps, names.as_slice(), &index, left, right)
}

/// The union of each two rows of two lists that are compatible (Join; SPARQL 1.1, 18.5), by the rows of the left list and
/// then of the right. Condition: all rows have as many places. Rows of the right list are found by the terms of the names
/// that all rows of both lists bind: the time grows with the rows of both lists and with the pairs that agree in those
/// names. The only error is out of memory.
pub fn join_rows(alloc: Global, left: &[Row], right: &[Row]) -> Result<Vec<Row>, OutOfMemory>
    requires { AreAsWide left.now right.now }
    ensures { IfOk result (λ v. v.items ≡ joined left.now right.now) }
{
    combined(alloc, false, left, right)
}

/// The union of each two rows that are compatible, and each row of the left list that is compatible with none of the right
/// (LeftJoin; SPARQL 1.1, 18.5), by the rows of the left list and then of the right. Condition and time as with `join_rows`.
/// The only error is out of memory.
pub fn optional_rows(alloc: Global, left: &[Row], right: &[Row]) -> Result<Vec<Row>, OutOfMemory>
    requires { AreAsWide left.now right.now }
    ensures { IfOk result (λ v. v.items ≡ optional left.now right.now) }
{
    combined(alloc, true, left, right)
}

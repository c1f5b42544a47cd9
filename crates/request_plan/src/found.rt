// What the triples of a page make of a block of rows.
ghost use Rattle.std.specs.Prelude.{◌≡◌, ◌++◌, length, IfOk, OnOk, drop};
ghost use Rattle.std.specs.List.{All};
ghost use Rattle.bgp_core.specs.Queries.{HasPlacesFor};
ghost use Rattle.request_plan.specs.Plans.{found, found_by, found_of, all_askable, askable_rows};

use crate::binding::extension;
use crate::block::RowBlock;
use crate::pattern_list::PatternList;
use bgp_core::{Pattern, Row, instance_askable, match_triple};
use rdf_terms::Triple;
use std::alloc::Global;
use tpf_base::OutOfMemory;

/// Whether each of the patterns from a place on can be asked for under a row.
fn askable_from(patterns: &PatternList, index: usize, row: &Row) -> bool
    ensures { result ≡ all_askable row.now (drop index patterns.now) }
{
    if index >= patterns.len() {
        return true;
    }
    instance_askable(patterns.at(index), row) && askable_from(patterns, index + 1, row)
}

/// Whether each of the patterns can be asked for under a row.
fn are_askable(patterns: &PatternList, row: &Row) -> bool
    ensures { result ≡ all_askable row.now patterns.now }
{
    askable_from(patterns, 0, row)
}

/// The rows under which all patterns can be asked for, in their order. The only error is out of
/// memory.
pub fn askable_rows(
    alloc: Global,
    patterns: &PatternList,
    rows: Vec<Row>,
) -> Result<Vec<Row>, OutOfMemory>
    ensures { IfOk result (λ kept. kept.items ≡ askable_rows patterns.now rows.items) }
{
    let mut kept = Vec::with_capacity(alloc, rows.len())?;
    for row in rows {
        if are_askable(patterns, &row) {
            kept.push(row)?;
        }
    }
    Ok(kept)
}

/// Adds what a triple that stays held makes of a row. A term that is bound anew is copied.
fn add_match(
    alloc: Global,
    chosen: &Pattern,
    row: &Row,
    triple: &Triple,
    into: &mut Vec<Row>,
) -> Result<(), OutOfMemory>
    requires { HasPlacesFor (length row.now) chosen.now }
    ensures { OnOk result (into.new.items ≡
        into.old.items ++ found_of chosen.now row.now triple.now) }
{
    if let Some(next) = match_triple(alloc, chosen, row, triple)? {
        into.push(next)?;
    }
    Ok(())
}

/// Adds what a triple makes of a row. Its terms are moved into the row that it makes, or dropped.
fn add_extension(
    alloc: Global,
    chosen: &Pattern,
    row: &Row,
    triple: Triple,
    into: &mut Vec<Row>,
) -> Result<(), OutOfMemory>
    requires { HasPlacesFor (length row.now) chosen.now }
    ensures { OnOk result (into.new.items ≡
        into.old.items ++ found_of chosen.now row.now triple) }
{
    if let Some(next) = extension(alloc, chosen, row, triple)? {
        into.push(next)?;
    }
    Ok(())
}

/// Adds what a triple that stays held makes of the rows of a block, in their order.
fn add_held(
    alloc: Global,
    chosen: &Pattern,
    block: &RowBlock,
    triple: &Triple,
    into: &mut Vec<Row>,
) -> Result<(), OutOfMemory>
    requires { All (λ row. HasPlacesFor (length row) chosen.now) block.now }
    ensures { OnOk result (into.new.items ≡
        into.old.items ++ found_by chosen.now block.now triple.now) }
{
    add_match(alloc, chosen, block.first(), triple, into)?;
    for row in block.others() {
        add_match(alloc, chosen, row, triple, into)?;
    }
    Ok(())
}

/// Adds what a triple makes of the rows of a block, in their order.
fn add_triple(
    alloc: Global,
    chosen: &Pattern,
    block: &RowBlock,
    triple: Triple,
    into: &mut Vec<Row>,
) -> Result<(), OutOfMemory>
    requires { All (λ row. HasPlacesFor (length row) chosen.now) block.now }
    ensures { OnOk result (into.new.items ≡
        into.old.items ++ found_by chosen.now block.now triple) }
{
    if block.others().is_empty() {
        return add_extension(alloc, chosen, block.first(), triple, into);
    }
    let added = add_held(alloc, chosen, block, &triple, into);
    drop(triple);
    added
}

/// The rows that the triples of a page make of a block, by the triples in their order and then the
/// rows. Terms are moved into the rows or dropped; where the block has several rows they are copied.
/// Condition: each row has a place for every name of the pattern. The only error is out of memory.
pub fn expand(
    alloc: Global,
    chosen: &Pattern,
    block: &RowBlock,
    triples: Vec<Triple>,
) -> Result<Vec<Row>, OutOfMemory>
    requires { All (λ row. HasPlacesFor (length row) chosen.now) block.now }
    ensures { IfOk result (λ f. f.items ≡ found chosen.now block.now triples.items) }
{
    let mut found = Vec::new(alloc);
    for triple in triples {
        add_triple(alloc, chosen, block, triple, &mut found)?;
    }
    Ok(found)
}

/// The same of a page that is held, and stays held: terms that are bound anew are copied.
pub fn expand_held(
    alloc: Global,
    chosen: &Pattern,
    block: &RowBlock,
    held: &[Triple],
) -> Result<Vec<Row>, OutOfMemory>
    requires { All (λ row. HasPlacesFor (length row) chosen.now) block.now }
    ensures { IfOk result (λ f. f.items ≡ found chosen.now block.now held.now) }
{
    let mut found = Vec::new(alloc);
    for triple in held {
        add_held(alloc, chosen, block, triple, &mut found)?;
    }
    Ok(found)
}

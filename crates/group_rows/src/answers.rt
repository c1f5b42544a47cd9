// The answers of a query.
ghost use Rattle.std.specs.Prelude.{◌≡◌, length, map, IfOk};
ghost use Rattle.std.specs.List.{AllByRecursion};
ghost use Rattle.bgp_core.specs.Merging.{kept};
ghost use Rattle.group_query.specs.Trees.{group_tree};
ghost use Rattle.group_rows.specs.Evaluation.{once_if, selection};
ghost use Rattle.group_rows.specs.Gathering.{gathered, gathered_answers};
ghost use Rattle.row_algebra.specs.Algebra.{HaveWidth};

use crate::cut::{cut, selection, variables};
use crate::rows::Rows;
use crate::stack::run;
use bgp_core::{Query, Row};
use group_query::GroupQuery;
use row_algebra::distinct_rows;
use std::alloc::Global;
use std::collections::VecDeque;
use text_base::OutOfMemory;

/// The rows of the whole group.
fn gather(
    alloc: Global,
    query: &GroupQuery,
    blocks: VecDeque<Rows>,
) -> Result<Vec<Row>, OutOfMemory>
    requires { AllByRecursion (HaveWidth (length query.now.names)) blocks.items }
    ensures { IfOk result (λ v. v.items ≡ gathered query.now.names (group_tree query.now) blocks.items) }
{
    let names = query.shown().names();
    let flags = variables(alloc, names)?;
    let mut stack = run(alloc, names, flags.as_slice(), query.steps(), blocks)?;
    match stack.pop_front() {
        Some(rows) => Ok(rows.into_vec()),
        None => Ok(Vec::new(alloc)),
    }
}

/// The rows cut to the selected names, and each once where that is asked for.
fn show(
    alloc: Global,
    shown: &Query,
    distinct: bool,
    rows: Vec<Row>,
) -> Result<Vec<Row>, OutOfMemory>
    requires { HaveWidth (length shown.now.names) rows.items }
    ensures { IfOk result (λ v. v.items ≡
        once_if distinct (map (kept (selection shown.now.names shown.now.selected)) rows.items)) }
{
    let flags = selection(alloc, shown)?;
    let rows = cut(alloc, flags.as_slice(), rows)?;
    if distinct {
        distinct_rows(alloc, shown.selected(), rows)
    } else {
        Ok(rows)
    }
}

/// The answers of a query with groups whose blocks, in the order in which they are written, have these rows (SPARQL 1.1,
/// 18.5 and 18.6): cut to the selected names, with DISTINCT each once. Each block's rows are its solutions, with the places
/// of blank nodes or without; a block without a list has no row. Condition: each row has a place for every name. The only
/// error is out of memory.
pub fn evaluate(
    alloc: Global,
    query: &GroupQuery,
    blocks: VecDeque<Rows>,
) -> Result<Vec<Row>, OutOfMemory>
    requires { AllByRecursion (HaveWidth (length query.now.names)) blocks.items }
    ensures { IfOk result (λ v. v.items ≡ gathered_answers query.now blocks.items) }
{
    let rows = gather(alloc, query, blocks)?;
    show(alloc, query.shown(), query.is_distinct(), rows)
}

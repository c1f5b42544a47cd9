// Nodes that were not started.
ghost use Rattle.std.specs.Prelude.{◌≡◌, ◌<◌, ◌++◌, length, map, IfOk, OnOk};
ghost use Rattle.request_plan.specs.Blocks.{cut_by};
ghost use Rattle.request_plan.specs.Plans.{HavePlacesFor};
ghost use Rattle.join_core.specs.Nodes.{nodes_in, rows_out};
ghost use Rattle.join_core.specs.Shown.{IsBlockFor};
ghost use Rattle.join_core.specs.Levels.{seed_node};

use crate::node::Node;
use bgp_core::Row;
use request_plan::{Cut, PatternList, RowBlock, askable_rows, cut_rows};
use std::alloc::Global;
use std::marker::Model;
use std::rc::Rc;
use tpf_base::OutOfMemory;

/// A node that was not started: a block of rows, and the patterns that are still to be matched,
/// which all such nodes of a page share.
#[derive(Drop)]
pub(crate) struct Opening {
    rows: RowBlock,
    rest: Rc<PatternList>,
}

impl Model for Opening {
    ghost use Rattle.join_core.specs.Shown.{IsBlockFor};
    ghost use Rattle.join_core.specs.Levels.{Seed};

    ghost Value = { Seed };

    ghost view = { λ o. record { rows = o.rows; rest = o.rest.value } };

    ghost invariant = { λ o. IsBlockFor o.rest.value o.rows };
}

impl Opening {
    /// Rows with the patterns that are left, all of which can be asked for under each of them.
    pub(crate) fn new(rows: RowBlock, rest: Rc<PatternList>) -> Opening
        requires { IsBlockFor rest.value rows }
        ensures { result ≡ record { rows = rows; rest = rest.value } }
    {
        Opening { rows, rest }
    }

    /// The node, which has asked for nothing. It shares the terms of the rows.
    pub(crate) fn node(&self, alloc: Global) -> Result<Node, OutOfMemory>
        ensures { IfOk result (λ n. n ≡ seed_node self.now) }
    {
        Ok(Node::fresh(alloc, self.rows.copy(alloc)?, self.rest.clone()?))
    }
}

/// Adds a node for each block of the rows, but for those under which a pattern cannot be asked for.
/// There is a pattern.
fn add_nodes(
    alloc: Global,
    cut: &Cut,
    others: &Rc<PatternList>,
    rows: Vec<Row>,
    nodes: &mut Vec<Opening>,
) -> Result<(), OutOfMemory>
    requires places { HavePlacesFor others.now.value rows.items }
    requires some { 0 < length others.now.value }
    ensures { OnOk result (map seed_node nodes.new.items ≡ map seed_node nodes.old.items
        ++ nodes_in (cut_by cut.now) others.now.value rows.items) }
{
    let kept = askable_rows(alloc, others, rows)?;
    for block in cut_rows(alloc, cut, others, kept)? {
        nodes.push(Opening::new(block, others.clone()?))?;
    }
    Ok(())
}

/// Rows with no pattern left are put out. The others become blocks, but for those under which a
/// pattern that is left cannot be asked for.
pub(crate) fn add_rows(
    alloc: Global,
    cut: &Cut,
    others: &Rc<PatternList>,
    found: Vec<Row>,
    nodes: &mut Vec<Opening>,
    rows: &mut Vec<Row>,
) -> Result<(), OutOfMemory>
    requires { HavePlacesFor others.now.value found.items }
    ensures nodes { OnOk result (map seed_node nodes.new.items ≡ map seed_node nodes.old.items
        ++ nodes_in (cut_by cut.now) others.now.value found.items) }
    ensures rows { OnOk result (rows.new.items ≡
        rows.old.items ++ rows_out others.now.value found.items) }
{
    if others.len() > 0 {
        return add_nodes(alloc, cut, others, found, nodes);
    }
    let mut found = found;
    rows.append(&mut found)?;
    Ok(())
}

// Queries with groups.
ghost use Rattle.std.specs.Prelude.{◌≡◌, ◌<◌, length};
ghost use Rattle.std.specs.List.{AllByRecursion};
ghost use Rattle.group_query.specs.Trees.{tree_of, IsPostfix, TreeFits, shown_query};

use crate::step::Step;
use bgp_core::Query;
use std::alloc::Global;
use std::marker::Model;
use text_base::Text;

/// A query with groups: the steps of its group, the names in it, those that are selected, and whether each
/// row stands once. Each name in it has a text, and each fixed part is a valid term and no blank node.
pub struct GroupQuery {
    steps: Vec<Step>,
    shown: Query,
    distinct: bool,
}

// Written out, so that who drops one calls this, and does not take it apart at each exit.
impl Drop for GroupQuery {
    fn drop(self) {
        let GroupQuery {
            steps: _steps,
            shown: _shown,
            distinct: _distinct,
        } = self;
    }
}

impl Model for GroupQuery {
    ghost use Rattle.std.specs.Prelude.{◌≡◌, [], length};
    ghost use Rattle.group_query.specs.Trees.{GroupData, IsPostfix, TreeFits, tree_of};

    ghost Value = { GroupData };

    ghost view = { λ g. record { steps = g.steps.items; names = g.shown.names; selected = g.shown.selected; distinct = g.distinct } };

    ghost invariant = { λ g. IsPostfix g.steps.items × TreeFits (length g.shown.names) (tree_of g.steps.items) × (g.shown.patterns ≡ []) };
}

impl GroupQuery {
    /// The query of the group with these steps, the texts of its names by their numbers, and the numbers of
    /// those that are selected. Conditions: the steps are those of a tree; each name of a pattern, and each
    /// that is selected, has a text, and no fixed part is a blank node. It takes no memory.
    pub fn new(
        alloc: Global,
        steps: Vec<Step>,
        names: Vec<Text>,
        selected: Vec<u32>,
        distinct: bool,
    ) -> GroupQuery
        requires postfix { IsPostfix steps.items }
        requires fit { TreeFits (length names.items) (tree_of steps.items) }
        requires selected { AllByRecursion (λ n. n < length names.items) selected.items }
        ensures { result ≡
            record { steps = steps.items; names = names.items; selected = selected.items; distinct = distinct } }
    {
        GroupQuery {
            steps,
            shown: Query::new(Vec::new(alloc), names, selected),
            distinct,
        }
    }

    /// The steps of the group.
    pub fn steps(&self) -> &[Step]
        ensures value { result.now ≡ self.now.steps }
        ensures postfix { IsPostfix result.now }
        ensures fit { TreeFits (length self.now.names) (tree_of result.now) }
    {
        self.steps.as_slice()
    }

    /// A query without a pattern that has the names and selects those that this one selects.
    pub fn shown(&self) -> &Query
        ensures { result.now ≡ shown_query self.now }
    {
        &self.shown
    }

    /// Whether each row stands once.
    pub fn is_distinct(&self) -> bool
        ensures { result ≡ self.now.distinct }
    {
        self.distinct
    }
}

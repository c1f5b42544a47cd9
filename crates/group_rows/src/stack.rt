// Steps over a stack of lists of rows, its top first, so that a group of many parts needs no deep recursion.
ghost use Rattle.std.specs.Prelude.{◌≡◌, ℕ, ◌∷◌, [], ◌++◌, List, length, map, replicate, None, IfOk, OnOk, MatchOption};
ghost use Rattle.std.specs.List.{AllByRecursion};
ghost use Rattle.bgp_core.specs.Merging.{kept};
ghost use Rattle.bgp_core.specs.Solutions.{Places};
ghost use Rattle.group_rows.specs.Gathering.{first};
ghost use Rattle.group_rows.specs.Stacks.{rest, both, blocks_after, stack_after, run};
ghost use Rattle.row_algebra.specs.Algebra.{HaveWidth};
ghost use Rattle.group_rows.specs.Evaluation.{variables};
ghost use Rattle.row_algebra.specs.Algebra as algebra;

use crate::cut::cut;
use crate::rows::Rows;
use bgp_core::Row;
use group_query::Step;
use row_algebra::{join_rows, optional_rows};
use std::alloc::Global;
use std::collections::VecDeque;
use text_base::{OutOfMemory, Text};

/// Takes the two lists on top, the lower one first; where there are not two, the stack is empty then.
fn top_two(stack: &mut VecDeque<Rows>) -> Option<(Rows, Rows)>
    ensures { MatchOption result
        ((stack.new.items ≡ []) × ((f : List Places → List Places → List Places) → both f stack.old.items ≡ []))
        (λ p. stack.old.items ≡ p.1 ∷ p.0 ∷ stack.new.items) }
{
    let right = stack.pop_front()?;
    let left = stack.pop_front()?;
    Some((left, right))
}

fn join_top(alloc: Global, stack: &mut VecDeque<Rows>) -> Result<(), OutOfMemory>
    requires { (width : ℕ) × AllByRecursion (HaveWidth width) stack.old.items }
    ensures { OnOk result (stack.new.items ≡ both algebra.joined stack.old.items) }
{
    let Some((left, right)) = top_two(stack) else {
        return Ok(());
    };
    let rows = join_rows(alloc, left.as_slice(), right.as_slice())?;
    stack.push_front(Rows::new(rows))?;
    Ok(())
}

fn optional_top(alloc: Global, stack: &mut VecDeque<Rows>) -> Result<(), OutOfMemory>
    requires { (width : ℕ) × AllByRecursion (HaveWidth width) stack.old.items }
    ensures { OnOk result (stack.new.items ≡ both algebra.optional stack.old.items) }
{
    let Some((left, right)) = top_two(stack) else {
        return Ok(());
    };
    let rows = optional_rows(alloc, left.as_slice(), right.as_slice())?;
    stack.push_front(Rows::new(rows))?;
    Ok(())
}

/// The rows of both lists, those of the first before those of the second.
fn appended(left: Vec<Row>, right: Vec<Row>) -> Result<Vec<Row>, OutOfMemory>
    ensures { IfOk result (λ v. v.items ≡ left.items ++ right.items) }
{
    let mut rows = left;
    for row in right {
        rows.push(row)?;
    }
    Ok(rows)
}

fn unite_top(stack: &mut VecDeque<Rows>) -> Result<(), OutOfMemory>
    ensures { OnOk result (stack.new.items ≡ both (λ a b. a ++ b) stack.old.items) }
{
    let Some((left, right)) = top_two(stack) else {
        return Ok(());
    };
    let rows = appended(left.into_vec(), right.into_vec())?;
    stack.push_front(Rows::new(rows))?;
    Ok(())
}

/// Pushes the next block's rows, without what blank nodes stand for.
fn push_block(
    alloc: Global,
    flags: &[bool],
    blocks: &mut VecDeque<Rows>,
    stack: &mut VecDeque<Rows>,
) -> Result<(), OutOfMemory>
    ensures blocks { OnOk result (blocks.new.items ≡ rest blocks.old.items) }
    ensures stack { OnOk result (stack.new.items ≡ map (kept flags.now) (first blocks.old.items) ∷ stack.old.items) }
{
    let rows = match blocks.pop_front() {
        Some(rows) => rows.into_vec(),
        None => Vec::new(alloc),
    };
    stack.push_front(Rows::new(cut(alloc, flags, rows)?))?;
    Ok(())
}

/// Pushes one row without a name.
fn push_one(alloc: Global, names: usize, stack: &mut VecDeque<Rows>) -> Result<(), OutOfMemory>
    ensures { OnOk result (stack.new.items ≡ (replicate names None ∷ []) ∷ stack.old.items) }
{
    let mut rows = Vec::with_capacity(alloc, 1)?;
    rows.push(Row::empty(alloc, names))?;
    stack.push_front(Rows::new(rows))?;
    Ok(())
}

fn take_step(
    alloc: Global,
    names: &[Text],
    flags: &[bool],
    step: &Step,
    blocks: &mut VecDeque<Rows>,
    stack: &mut VecDeque<Rows>,
) -> Result<(), OutOfMemory>
    requires flags { flags.now ≡ variables names.now }
    requires width { AllByRecursion (HaveWidth (length names.now)) stack.old.items }
    ensures blocks { OnOk result (blocks.new.items ≡ blocks_after step.now blocks.old.items) }
    ensures stack { OnOk result (stack.new.items ≡ stack_after names.now step.now blocks.old.items stack.old.items) }
{
    match step {
        Step::Block(_) => push_block(alloc, flags, blocks, stack),
        Step::Empty => push_one(alloc, names.len(), stack),
        Step::Join => join_top(alloc, stack),
        Step::Optional => optional_top(alloc, stack),
        Step::Union => unite_top(stack),
    }
}

/// Takes the steps one after another.
pub fn run(
    alloc: Global,
    names: &[Text],
    flags: &[bool],
    steps: &[Step],
    blocks: VecDeque<Rows>,
) -> Result<VecDeque<Rows>, OutOfMemory>
    requires flags { flags.now ≡ variables names.now }
    requires width { AllByRecursion (HaveWidth (length names.now)) blocks.items }
    ensures { IfOk result (λ stack. stack.items ≡ run names.now steps.now blocks.items []) }
{
    let mut blocks = blocks;
    let mut stack = VecDeque::new(alloc);
    for step in steps {
        take_step(alloc, names, flags, step, &mut blocks, &mut stack)?;
    }
    Ok(stack)
}

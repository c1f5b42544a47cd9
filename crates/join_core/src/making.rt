// What pages make of nodes.
ghost use Rattle.std.specs.Prelude.{◌≡◌, ◌==◌, [], None, length, IfOk};
ghost use Rattle.std.specs.List.{All};
ghost use Rattle.bgp_core.specs.Queries.{HasPlacesFor};
ghost use Rattle.join_core.specs.Events.{chosen_page, next_walk};
ghost use Rattle.join_core.specs.Made.{AllAreIdle, opened_nodes};
ghost use Rattle.join_core.specs.Nodes.{opened, put_out};
ghost use Rattle.request_plan.specs.Plans.{HavePlacesFor};
ghost use Rattle.request_plan.specs.Blocks.{cut_by};

use crate::node::{Node, walking};
use crate::opening::{Opening, add_rows};
use bgp_core::{Pattern, Row};
use fragment_page::TripleList;
use request_plan::{Cut, JointPage, PatternList, Round, RowBlock, expand, expand_held};
use std::alloc::Global;
use std::rc::Rc;
use tpf_base::OutOfMemory;

/// What a page makes of a node: nodes that it opens, rows that it puts out, and the node after it,
/// if it goes on.
#[derive(Drop)]
pub(crate) struct Made {
    pub(crate) opened: Vec<Opening>,
    pub(crate) rows: Vec<Row>,
    pub(crate) after: Option<Node>,
}

/// The node that walks on after some pages, if there is a further one, whose round it takes.
fn walk_on(
    alloc: Global,
    rows: &RowBlock,
    rest: &Rc<PatternList>,
    chosen: &Rc<Pattern>,
    pages: u64,
    next: Option<Round>,
) -> Result<Option<Node>, OutOfMemory>
    requires places { HavePlacesFor rest.now.value rows.now }
    requires chosen { All (λ row. HasPlacesFor (length row) chosen.now.value) rows.now }
    ensures { IfOk result (λ o. o ≡
        next_walk chosen.now.value rest.now.value rows.now pages next) }
{
    match next {
        None => Ok(None),
        Some(round) => Ok(Some(walking(alloc, rows, rest, chosen, pages, round)?)),
    }
}

/// What a page of a pattern makes of a block. Its triples are moved or dropped one by one.
pub(crate) fn made_of(
    alloc: Global,
    cut: &Cut,
    rows: &RowBlock,
    rest: &Rc<PatternList>,
    chosen: &Rc<Pattern>,
    pages: u64,
    page: JointPage,
) -> Result<Made, OutOfMemory>
    requires places { HavePlacesFor rest.now.value rows.now }
    requires chosen { All (λ row. HasPlacesFor (length row) chosen.now.value) rows.now }
    ensures opened { IfOk result (λ m. opened_nodes m ≡
        opened (cut_by cut.now) chosen.now.value rest.now.value rows.now page.triples) }
    ensures rows { IfOk result (λ m. m.rows.items ≡
        put_out chosen.now.value rest.now.value rows.now page.triples) }
    ensures after { IfOk result (λ m. m.after ≡
        next_walk chosen.now.value rest.now.value rows.now pages page.next) }
    ensures idle { IfOk result (λ m. AllAreIdle m) }
{
    let JointPage { triples, next, .. } = page;
    let found = match expand(alloc, chosen, rows, triples.into_vec()) {
        Ok(found) => found,
        Err(error) => {
            // One call drops it; a return would drop it part by part.
            drop(next);
            return Err(error);
        }
    };
    let mut opened = Vec::new(alloc);
    let mut out = Vec::new(alloc);
    let Ok(()) = add_rows(alloc, cut, rest, found, &mut opened, &mut out) else {
        drop(next);
        return Err(OutOfMemory);
    };
    let after = walk_on(alloc, rows, rest, chosen, pages, next)?;
    Ok(Made {
        opened,
        rows: out,
        after,
    })
}

/// The round of a next page again, if there is one.
fn copy_next(alloc: Global, next: &Option<Round>) -> Result<Option<Round>, OutOfMemory>
    ensures { IfOk result (λ o. o ≡ next.now) }
{
    match next {
        Some(round) => Ok(Some(round.copy(alloc)?)),
        None => Ok(None),
    }
}

/// What a page that stays held makes of a block, as `made_of`.
fn made_of_held(
    alloc: Global,
    cut: &Cut,
    rows: &RowBlock,
    rest: &Rc<PatternList>,
    chosen: &Rc<Pattern>,
    pages: u64,
    page: &JointPage,
) -> Result<Made, OutOfMemory>
    requires places { HavePlacesFor rest.now.value rows.now }
    requires chosen { All (λ row. HasPlacesFor (length row) chosen.now.value) rows.now }
    ensures opened { IfOk result (λ m. opened_nodes m ≡
        opened (cut_by cut.now) chosen.now.value rest.now.value rows.now page.now.triples) }
    ensures rows { IfOk result (λ m. m.rows.items ≡
        put_out chosen.now.value rest.now.value rows.now page.now.triples) }
    ensures after { IfOk result (λ m. m.after ≡
        next_walk chosen.now.value rest.now.value rows.now pages page.now.next) }
    ensures idle { IfOk result (λ m. AllAreIdle m) }
{
    let found = expand_held(alloc, chosen, rows, page.triples.as_slice())?;
    let mut opened = Vec::new(alloc);
    let mut out = Vec::new(alloc);
    add_rows(alloc, cut, rest, found, &mut opened, &mut out)?;
    let further = copy_next(alloc, &page.next)?;
    let after = walk_on(alloc, rows, rest, chosen, pages, further)?;
    Ok(Made {
        opened,
        rows: out,
        after,
    })
}

/// What becomes of a node that makes nothing and does not go on.
pub(crate) fn nothing(alloc: Global) -> Made
    ensures opened { result.opened.items ≡ [] }
    ensures rows { result.rows.items ≡ [] }
    ensures after { result.after ≡ None }
    ensures idle { AllAreIdle result }
{
    Made {
        opened: Vec::new(alloc),
        rows: Vec::new(alloc),
        after: None,
    }
}

/// Whether a page says that its fragment has no triple.
fn counts_none(page: &JointPage) -> bool
    ensures { result ≡ (page.now.count == 0) }
{
    page.count == 0
}

/// What a node takes of the page that it chose: nothing where its count is 0.
pub(crate) fn chosen_part(alloc: Global, page: JointPage) -> JointPage
    ensures { result ≡ chosen_page page }
{
    if counts_none(&page) {
        return JointPage {
            triples: TripleList::from_vec(Vec::new(alloc)),
            count: page.count,
            next: None,
        };
    }
    page
}

/// What the first page of the chosen pattern makes of a block where it stays held: nothing where
/// its count is 0.
pub(crate) fn made_first_held(
    alloc: Global,
    cut: &Cut,
    rows: &RowBlock,
    rest: &Rc<PatternList>,
    chosen: &Rc<Pattern>,
    page: &JointPage,
) -> Result<Made, OutOfMemory>
    requires places { HavePlacesFor rest.now.value rows.now }
    requires chosen { All (λ row. HasPlacesFor (length row) chosen.now.value) rows.now }
    ensures opened { IfOk result (λ m. opened_nodes m ≡
        opened (cut_by cut.now) chosen.now.value rest.now.value rows.now
        (chosen_page page.now).triples) }
    ensures rows { IfOk result (λ m. m.rows.items ≡
        put_out chosen.now.value rest.now.value rows.now (chosen_page page.now).triples) }
    ensures after { IfOk result (λ m. m.after ≡
        next_walk chosen.now.value rest.now.value rows.now 1 (chosen_page page.now).next) }
    ensures idle { IfOk result (λ m. AllAreIdle m) }
{
    if counts_none(page) {
        return Ok(nothing(alloc));
    }
    made_of_held(alloc, cut, rows, rest, chosen, 1, page)
}

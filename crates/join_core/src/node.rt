// The nodes of a join.
ghost use Rattle.std.specs.Prelude.{◌≡◌, ◌<◌, length, IfOk, OnOk, OnErr, IfSome, Some, None, true, false, IsTrue, slice_index_or, IfNone};
ghost use Rattle.std.specs.List.{list_all, All, remove};
ghost use Rattle.bgp_core.specs.declared.pattern.Pattern.{Pattern};
ghost use Rattle.bgp_core.specs.Queries.{HasPlacesFor};
ghost use Rattle.request_plan.specs.Blocks.{cut_by};
ghost use Rattle.request_plan.specs.Plans.{HavePlacesFor};
ghost use Rattle.join_core.specs.Shown.{IsBlockFor};
ghost use Rattle.join_core.specs.Sound.{IsAskedBy};
ghost use Rattle.join_core.specs.Nodes.{fresh, node, is_got};
ghost use Rattle.join_core.specs.Nodes.Stage.{Walking};
ghost use Rattle.join_core.specs.Events.{CanAsk, asked, IsNextRound, waits_for, first_waiting, with_first_at, holding, is_full, chosen_page, IsFirstOf, first_at, least_in, opened_by, out_by, after_by, has_ask, is_idle};
ghost use Rattle.join_core.specs.Made.{AllAreIdle, IsChoiceOf, IsMadeOf, opened_nodes};

use crate::choice::least_count;
use crate::first::First;
use crate::making::{Made, chosen_part, made_first_held, made_of, nothing};
use crate::next_page::NextPage;
use bgp_core::Pattern;
use request_plan::{Cut, FormList, JointPage, PatternList, Round, RowBlock, first_round};
use std::alloc::Global;
use std::marker::Model;
use std::mem;
use std::rc::Rc;
use tpf_base::OutOfMemory;

/// A walk over the pages of the chosen pattern.
#[derive(Drop)]
pub(crate) struct Walk {
    pub(crate) chosen: Rc<Pattern>,
    pub(crate) pages: u64,
    pub(crate) next: NextPage,
}

/// What a node does: it asks for the first pages of its patterns, or walks over the pages of the
/// chosen one.
#[derive(Drop)]
pub(crate) enum Progress {
    Asks(Vec<First>),
    Walks(Walk),
}

/// What a node waits for under a ticket: the first page of a pattern, by its place, or the next
/// page.
#[derive(Clone, Copy, Drop)]
pub(crate) enum Waits {
    First(usize),
    Next,
}

/// A block of rows with the patterns that are still to be matched.
#[derive(Drop)]
pub(crate) struct Node {
    rows: RowBlock,
    rest: Rc<PatternList>,
    progress: Progress,
}

impl Model for Node {
    ghost use Rattle.join_core.specs.Nodes.{NodeData};
    ghost use Rattle.request_plan.specs.Plans.{HavePlacesFor};
    ghost use Rattle.join_core.specs.Shown.{stage_of, IsMadeStage};

    ghost Value = { NodeData };

    ghost view = { λ n. record { rows = n.rows; rest = n.rest.value; stage = stage_of n.progress } };

    ghost invariant = { λ n. HavePlacesFor n.rest.value n.rows
        × IsMadeStage n.rows n.rest.value (stage_of n.progress) };
}

/// The place of the first page that is out under a ticket.
fn first_waiting(firsts: &[First], ticket: u64) -> Option<usize>
    ensures value { result ≡ first_waiting ticket firsts.now }
    ensures within { IfSome result (λ i. i < length firsts.now) }
{
    match firsts {
        [] => None,
        [First::Out(out), ..] if *out == ticket => Some(0),
        [_, rest @ ..] => match first_waiting(rest, ticket) {
            Some(index) => Some(index + 1),
            None => None,
        },
    }
}

/// Whether all of these pages are held.
fn are_got(firsts: &[First]) -> bool
    ensures { result ≡ list_all is_got firsts.now }
{
    match firsts {
        [] => true,
        [first, rest @ ..] => first.is_got() && are_got(rest),
    }
}

impl Node {
    /// A node that has asked for nothing.
    pub(crate) fn fresh(alloc: Global, rows: RowBlock, rest: Rc<PatternList>) -> Node
        requires { IsBlockFor rest.value rows }
        ensures { result ≡ fresh rest.value rows }
    {
        Node {
            rows,
            rest,
            progress: Progress::Asks(Vec::new(alloc)),
        }
    }

    /// Hands out the next round that the node has to ask, under a ticket.
    pub(crate) fn ask(
        &mut self,
        alloc: Global,
        forms: &FormList,
        ticket: u64,
    ) -> Result<Round, OutOfMemory>
        requires { CanAsk self.old }
        ensures done { OnOk result (self.new ≡ asked ticket self.old) }
        ensures round { IfOk result (λ r. IsNextRound forms.now self.old r) }
        ensures asked_by { IfOk result (λ a. IsAskedBy forms.now self.old.stage a) }
        ensures failed { OnErr result (self.new ≡ self.old) }
    {
        match &mut self.progress {
            Progress::Asks(firsts) => {
                let pattern = self.rest.at(firsts.len());
                let round = first_round(alloc, forms, pattern, &self.rows)?;
                let Ok(()) = firsts.push(First::Out(ticket)) else {
                    drop(round);
                    return Err(OutOfMemory);
                };
                Ok(round)
            }
            Progress::Walks(walk) => Ok(walk.next.hand_out(ticket)),
        }
    }

    /// What the node waits for under a ticket.
    pub(crate) fn waits_for(&self, ticket: u64) -> Option<Waits>
        ensures { result ≡ waits_for ticket self.now }
    {
        match &self.progress {
            Progress::Asks(firsts) => match first_waiting(firsts, ticket) {
                Some(index) => Some(Waits::First(index)),
                None => None,
            },
            Progress::Walks(walk) => match walk.next.ticket() {
                Some(out) if out == ticket => Some(Waits::Next),
                _ => None,
            },
        }
    }

    /// Writes over what is held of a first page.
    fn set_first(&mut self, index: usize, first: First)
        requires { IsFirstOf index self.old }
        ensures { self.new ≡ with_first_at index first self.old }
    {
        drop(self.swap_first(index, first));
    }

    /// Writes over what is held of a first page, and gives back what was there.
    fn swap_first(&mut self, index: usize, first: First) -> Option<First>
        requires { IsFirstOf index self.old }
        ensures after { self.new ≡ with_first_at index first self.old }
        ensures before { result ≡ first_at index self.old }
    {
        let Progress::Asks(firsts) = &mut self.progress else {
            drop(first);
            return None;
        };
        Some(mem::replace(&mut firsts[index], first))
    }

    /// Whether it holds all first pages.
    fn is_full(&self) -> bool
        ensures { result ≡ is_full self.now }
    {
        match &self.progress {
            Progress::Asks(firsts) => { firsts.len() == self.rest.len() && are_got(firsts) }
            Progress::Walks(_) => false,
        }
    }

    /// Whether it was started and has a first page to hand out.
    pub(crate) fn has_ask(&self) -> bool
        ensures value { result ≡ has_ask self.now }
        ensures can_ask { IsTrue result → CanAsk self.now }
    {
        match &self.progress {
            Progress::Asks(firsts) => !firsts.is_empty() && firsts.len() < self.rest.len(),
            Progress::Walks(_) => false,
        }
    }

    /// Whether it may be started.
    pub(crate) fn is_idle(&self) -> bool
        ensures value { result ≡ is_idle self.now }
        ensures can_ask { IsTrue result → CanAsk self.now }
    {
        match &self.progress {
            Progress::Asks(firsts) => firsts.is_empty(),
            Progress::Walks(walk) => walk.next.ticket().is_none(),
        }
    }
}

/// What a node that walks has of the node before it: its rows, the patterns that are left, and the
/// chosen one.
fn parts_of_walk(
    alloc: Global,
    rows: &RowBlock,
    rest: &Rc<PatternList>,
    chosen: &Rc<Pattern>,
) -> Result<(RowBlock, Rc<PatternList>, Rc<Pattern>), OutOfMemory>
    ensures rows { IfOk result (λ parts. parts.0 ≡ rows.now) }
    ensures rest { IfOk result (λ parts. parts.1.value ≡ rest.now.value) }
    ensures chosen { IfOk result (λ parts. parts.2.value ≡ chosen.now.value) }
{
    let rest = rest.clone()?;
    let chosen = chosen.clone()?;
    Ok((rows.copy(alloc)?, rest, chosen))
}

/// The node that walks over the pages of the chosen pattern, from a round on.
pub(crate) fn walking(
    alloc: Global,
    rows: &RowBlock,
    rest: &Rc<PatternList>,
    chosen: &Rc<Pattern>,
    pages: u64,
    round: Round,
) -> Result<Node, OutOfMemory>
    requires places { HavePlacesFor rest.now.value rows.now }
    requires chosen { All (λ row. HasPlacesFor (length row) chosen.now.value) rows.now }
    ensures { IfOk result (λ n. n ≡
        node rows.now rest.now.value (Walking chosen.now.value pages round None)) }
{
    match parts_of_walk(alloc, rows, rest, chosen) {
        Ok((rows, rest, chosen)) => {
            let walk = Walk {
                chosen,
                pages,
                next: NextPage::Held(round),
            };
            Ok(Node {
                rows,
                rest,
                progress: Progress::Walks(walk),
            })
        }
        Err(error) => {
            // One call drops it; a return would drop it part by part.
            drop(round);
            Err(error)
        }
    }
}

impl Node {
    /// What the next page of a walk makes of the node.
    pub(crate) fn next_page(
        &self,
        alloc: Global,
        cut: &Cut,
        page: JointPage,
    ) -> Result<Made, OutOfMemory>
        ensures opened { IfOk result (λ m. opened_nodes m ≡
            opened_by (cut_by cut.now) self.now page.triples) }
        ensures rows { IfOk result (λ m. m.rows.items ≡ out_by self.now page.triples) }
        ensures after { IfOk result (λ m. m.after ≡ after_by self.now page.next) }
        ensures idle { IfOk result (λ m. AllAreIdle m) }
    {
        let Progress::Walks(walk) = &self.progress else {
            drop(page);
            return Ok(nothing(alloc));
        };
        let pages = walk.pages.saturating_add(1);
        made_of(
            alloc,
            cut,
            &self.rows,
            &self.rest,
            &walk.chosen,
            pages,
            page,
        )
    }

    /// The patterns but the one at a place.
    fn others(&self, alloc: Global, index: usize) -> Result<Rc<PatternList>, OutOfMemory>
        requires { index < length self.now.rest }
        ensures patterns { IfOk result (λ rest. rest.value ≡ remove self.now.rest index) }
        ensures places { IfOk result (λ rest. HavePlacesFor rest.value self.now.rows) }
    {
        let patterns = self.rest.without(alloc, index)?;
        let rest = Rc::new(alloc, patterns)?;
        Ok(rest)
    }

    /// What the first page of the pattern at a place makes of the node: nothing where the count is
    /// 0.
    fn go_on(
        &self,
        alloc: Global,
        cut: &Cut,
        index: usize,
        page: JointPage,
    ) -> Result<Made, OutOfMemory>
        requires { index < length self.now.rest }
        ensures made { IfOk result (λ m. (p : Pattern) → p ≡ slice_index_or self.now.rest index p →
            IsMadeOf (cut_by cut.now) p (remove self.now.rest index) self.now.rows
            1 (chosen_page page) m) }
        ensures idle { IfOk result (λ m. AllAreIdle m) }
    {
        let rest = match self.others(alloc, index) {
            Ok(rest) => rest,
            Err(error) => {
                drop(page);
                return Err(error);
            }
        };
        let page = chosen_part(alloc, page);
        made_of(alloc, cut, &self.rows, &rest, self.rest.at(index), 1, page)
    }

    /// The place of the least count of the first pages, the first on a tie.
    fn least(&self) -> usize
        ensures { result ≡ least_in self.now.stage }
    {
        match &self.progress {
            Progress::Asks(firsts) => least_count(firsts),
            Progress::Walks(_) => 0,
        }
    }

    /// What the held first page of the pattern with the least count makes of the node, as `go_on`.
    /// The page stays held.
    fn choose(&self, alloc: Global, cut: &Cut) -> Result<Made, OutOfMemory>
        requires { is_full self.now ≡ true }
        ensures chosen { IfOk result (λ m. IsChoiceOf (cut_by cut.now) self.now m) }
        ensures idle { IfOk result (λ m. AllAreIdle m) }
    {
        let Progress::Asks(firsts) = &self.progress else {
            return Ok(nothing(alloc));
        };
        let index = least_count(firsts);
        if index >= firsts.len() {
            return Ok(nothing(alloc));
        }
        let First::Got(page) = &firsts[index] else {
            return Ok(nothing(alloc));
        };
        let rest = self.others(alloc, index)?;
        made_first_held(alloc, cut, &self.rows, &rest, self.rest.at(index), page)
    }

    /// Puts a ticket back in the place of the page that came last and has the least count, and goes
    /// on with the page.
    fn choose_last(
        &mut self,
        alloc: Global,
        cut: &Cut,
        index: usize,
        ticket: u64,
    ) -> Result<Made, OutOfMemory>
        requires full { is_full self.old ≡ true }
        requires place { IsFirstOf index self.old }
        requires least { least_in self.old.stage ≡ index }
        ensures back { self.new ≡ with_first_at index (First.Out ticket) self.old }
        ensures chosen { IfOk result (λ m. IsChoiceOf (cut_by cut.now) self.old m) }
        ensures idle { IfOk result (λ m. AllAreIdle m) }
    {
        match self.swap_first(index, First::Out(ticket)) {
            Some(First::Got(page)) => self.go_on(alloc, cut, index, page),
            Some(First::Out(_)) => unreachable!(),
            None => unreachable!(),
        }
    }

    /// What the pattern with the least count makes of a node that holds all first pages, the last
    /// of which came to a place. That page is moved where it is chosen, and gone either way: the
    /// ticket stands there again. A page that was held before stays held, since it has to be there
    /// if memory runs out, and what is new of it is copied.
    fn take_last(
        &mut self,
        alloc: Global,
        cut: &Cut,
        index: usize,
        ticket: u64,
    ) -> Result<Made, OutOfMemory>
        requires full { is_full self.old ≡ true }
        requires place { IsFirstOf index self.old }
        ensures back { self.new ≡ with_first_at index (First.Out ticket) self.old }
        ensures chosen { IfOk result (λ m. IsChoiceOf (cut_by cut.now) self.old m) }
        ensures idle { IfOk result (λ m. AllAreIdle m) }
    {
        if self.least() == index {
            return self.choose_last(alloc, cut, index, ticket);
        }
        let made = self.choose(alloc, cut);
        self.set_first(index, First::Out(ticket));
        made
    }

    /// Takes a first page. Where it is the last to come, the pattern with the least count is
    /// chosen, and the answer is what its page makes of the node, which is as it was: it is to be
    /// replaced. Out of memory, the node is as it was.
    pub(crate) fn take_first(
        &mut self,
        alloc: Global,
        cut: &Cut,
        index: usize,
        ticket: u64,
        page: JointPage,
    ) -> Result<Option<Made>, OutOfMemory>
        requires { waits_for ticket self.old ≡ Some (Waits.First index) }
        ensures held { IfOk result (λ o. IfNone o
            ((is_full (holding index page self.old) ≡ false)
            × (self.new ≡ holding index page self.old))) }
        ensures full { IfOk result (λ o. IfSome o (λ m.
            (is_full (holding index page self.old) ≡ true) × (self.new ≡ self.old))) }
        ensures chosen { IfOk result (λ o. IfSome o (λ m.
            IsChoiceOf (cut_by cut.now) (holding index page self.old) m)) }
        ensures idle { IfOk result (λ o. IfSome o (λ m. AllAreIdle m)) }
        ensures failed { OnErr result (self.new ≡ self.old) }
    {
        self.set_first(index, First::Got(page));
        if !self.is_full() {
            return Ok(None);
        }
        match self.take_last(alloc, cut, index, ticket) {
            Ok(made) => Ok(Some(made)),
            Err(error) => Err(error),
        }
    }
}

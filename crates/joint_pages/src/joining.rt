// The pages of a round, taken one after another.
ghost use Rattle.std.specs.Prelude.{◌≡◌, ◌+◌, ◌<◌, ◌≤◌, ◌^◌, ◌++◌, IfOk, OnOk, not, option_to_list};
ghost use Rattle.std.specs.Bool.{OnFalse};
ghost use Rattle.std.specs.List.{list_any};
ghost use Rattle.rdf_terms.specs.Fragments.{put};
ghost use Rattle.rdf_terms.specs.Order.{triple_order};
ghost use Rattle.rdf_terms.specs.Same.{triple_eq};
ghost use Rattle.bgp_core.specs.Solutions.{unless_before, distinct_after};
ghost use Rattle.joint_pages.specs.Parts.{page_of, pages_in};
ghost use Rattle.joint_pages.specs.Joined.{added, next_round, joined};
ghost use Rattle.joint_pages.specs.Joining.{with_page, with_pages, joining_behind, page_made};

use crate::part::Part;
use fragment_page::{Page, TripleList};
use rdf_terms::Triple;
use request_plan::{JointPage, Round, TripleSet};
use std::alloc::Global;
use std::marker::Model;
use std::rc::Rc;
use template_fill::WebAddress;
use tpf_base::OutOfMemory;

/// What the pages of a round that were taken come to: the triples that came until then, those of them that are new, the sum of
/// the counts, and the further pages.
#[derive(Drop)]
pub(crate) struct Joining {
    taken: TripleSet,
    triples: Vec<Triple>,
    count: u128,
    nexts: Vec<WebAddress>,
}

impl Model for Joining {
    ghost use Rattle.joint_pages.specs.Joining.{JoiningData};

    ghost Value = { JoiningData };

    ghost view = { λ j. record { taken = j.taken; triples = j.triples.items; count = j.count; nexts = j.nexts.items } };
}

/// Puts a copy of a triple into a set, and says whether it is new there.
pub(crate) fn put_copy(
    alloc: Global,
    triple: &Triple,
    set: &mut TripleSet,
) -> Result<bool, OutOfMemory>
    ensures is_new { IfOk result (λ is_new.
        is_new ≡ not (list_any (λ other. triple_eq other triple.now) set.old)) }
    ensures put { OnOk result (set.new ≡ put triple_order triple.now set.old) }
    ensures held { IfOk result (λ is_new. OnFalse is_new (set.new ≡ set.old)) }
{
    set.insert(triple.copy(alloc)?)
}

/// Takes one triple: where it is new, it is then among those that came.
fn take_one(
    alloc: Global,
    triple: Triple,
    taken: &mut TripleSet,
    triples: &mut Vec<Triple>,
) -> Result<(), OutOfMemory>
    ensures triples { OnOk result (triples.new.items ≡ triples.old.items ++ unless_before taken.old triple) }
    ensures taken { OnOk result (taken.new ≡ added taken.old (unless_before taken.old triple)) }
{
    match put_copy(alloc, &triple, taken) {
        Ok(true) => {
            triples.push(triple)?;
            Ok(())
        }
        Ok(false) => {
            // One call drops it; a return would drop it part by part.
            drop(triple);
            Ok(())
        }
        Err(error) => {
            drop(triple);
            Err(error)
        }
    }
}

/// Takes the triples of one page.
fn take_new(
    alloc: Global,
    page: Vec<Triple>,
    taken: &mut TripleSet,
    triples: &mut Vec<Triple>,
) -> Result<(), OutOfMemory>
    ensures triples { OnOk result (triples.new.items ≡ triples.old.items ++ distinct_after taken.old page.items) }
    ensures taken { OnOk result (taken.new ≡ added taken.old (distinct_after taken.old page.items)) }
{
    for triple in page {
        take_one(alloc, triple, taken, triples)?;
    }
    Ok(())
}

/// Adds the further page of a server, if it has one.
fn add_next(nexts: &mut Vec<WebAddress>, next: Option<WebAddress>) -> Result<(), OutOfMemory>
    ensures { OnOk result (nexts.new.items ≡ nexts.old.items ++ option_to_list next) }
{
    let Some(next) = next else {
        return Ok(());
    };
    nexts.push(next)?;
    Ok(())
}

/// The next round, where a server has a further page.
fn round_of_nexts(
    alloc: Global,
    nexts: Vec<WebAddress>,
    taken: TripleSet,
) -> Result<Option<Round>, OutOfMemory>
    ensures { IfOk result (λ next. next ≡ next_round nexts.items taken) }
{
    let mut nexts = nexts;
    if nexts.is_empty() {
        return Ok(None);
    }
    let first = nexts.remove(0);
    let taken = Rc::new(alloc, taken)?;
    Ok(Some(Round::several(first, nexts, taken)))
}

impl Joining {
    /// No page was taken; these triples came before, and so many servers are asked.
    fn behind(alloc: Global, taken: TripleSet, servers: usize) -> Result<Joining, OutOfMemory>
        ensures { IfOk result (λ j. j ≡ joining_behind taken) }
    {
        Ok(Joining {
            taken,
            triples: Vec::new(alloc),
            count: 0,
            nexts: Vec::with_capacity(alloc, servers)?,
        })
    }

    /// Takes a page. Condition: the sum of the counts fits.
    fn take(&mut self, alloc: Global, page: Page) -> Result<(), OutOfMemory>
        requires { self.old.count + 2 ^ 64 ≤ 2 ^ 128 }
        ensures taken { OnOk result (self.new ≡ with_page self.old page) }
        ensures count { OnOk result (self.new.count < self.old.count + 2 ^ 64) }
    {
        let Page {
            triples,
            count,
            next,
            form,
            ..
        } = page;
        drop(form);
        self.count += count as u128;
        add_next(&mut self.nexts, next)?;
        take_new(
            alloc,
            triples.into_vec(),
            &mut self.taken,
            &mut self.triples,
        )
    }

    /// Takes the page of a part, if it came. Condition: the sum of the counts fits.
    fn take_part(&mut self, alloc: Global, part: Part) -> Result<(), OutOfMemory>
        requires { self.old.count + 2 ^ 64 ≤ 2 ^ 128 }
        ensures taken { OnOk result (self.new ≡ with_pages self.old (page_of part.page)) }
        ensures count { OnOk result (self.new.count < self.old.count + 2 ^ 64) }
    {
        let Some(page) = part.into_page() else {
            return Ok(());
        };
        self.take(alloc, page)
    }

    /// The joint page.
    fn into_page(self, alloc: Global) -> Result<JointPage, OutOfMemory>
        ensures { IfOk result (λ page. page ≡ page_made self) }
    {
        Ok(JointPage {
            triples: TripleList::from_vec(self.triples),
            count: self.count,
            next: round_of_nexts(alloc, self.nexts, self.taken)?,
        })
    }
}

/// Takes the pages of parts, one after another, behind the triples that came before.
fn take_parts(alloc: Global, parts: Vec<Part>, taken: TripleSet) -> Result<Joining, OutOfMemory>
    ensures { IfOk result (λ j. j ≡ with_pages (joining_behind taken) (pages_in parts.items)) }
{
    let mut joining = Joining::behind(alloc, taken, parts.len())?;
    for part in parts {
        joining.take_part(alloc, part)?;
    }
    Ok(joining)
}

/// The joint page of parts, behind the triples that came before.
pub(crate) fn join_parts(
    alloc: Global,
    parts: Vec<Part>,
    taken: TripleSet,
) -> Result<JointPage, OutOfMemory>
    ensures { IfOk result (λ page. page ≡ joined taken (pages_in parts.items)) }
{
    take_parts(alloc, parts, taken)?.into_page(alloc)
}

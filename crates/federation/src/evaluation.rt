// One query over several servers.
ghost use Rattle.std.specs.Prelude.{◌≡◌, ◌+◌, ◌-◌, ◌*◌, ◌<◌, ◌≤◌, ◌^◌, List, [], length, true, false, IfOk};
ghost use Rattle.tpf_base.specs.Addresses.{Address};
ghost use Rattle.request_plan.specs.Worlds.{World};
ghost use Rattle.request_plan.specs.Rounds.{FormsAtHome};
ghost use Rattle.request_plan.specs.Beginnings.{BeginsWith, sizes_of, terms_of};
ghost use Rattle.federation.specs.Beginnings.{FitWorlds, joint_rows, joint_plan, most_pages};
ghost use Rattle.federation.specs.Federations.{SuitsAll, KeepsAll, KeepsSmall, account_of, standing_of};
ghost use Rattle.federation.specs.Steps.{IsFull, HasRoom, BeginsNext, AskedPart, AskedRound, Asks, JoinsRound, Answers, GivesOne};

use crate::rounds::{find, hand_out, take};
use bgp_core::{Query, Row};
use fragment_page::Page;
use join_core::RoundJoin;
use joint_pages::Gathering;
use request_plan::{Answered, Ask, FormList};
use std::alloc::Global;
use std::marker::Model;
use template_fill::WebAddress;
use tpf_base::OutOfMemory;

/// The evaluation of one query over several servers. It is a join in rounds, of which each asks every server that has it for the
/// page of one number of a fragment. The addresses of a round are handed out one by one, and its pages may come in any order, as
/// may those of other rounds. When all pages of a round are there, the join takes them as one page: the triples that no page of
/// the fragment before had, each once. A page is true where it is what each of the servers has at its address.
pub struct Federation {
    join: RoundJoin,
    rounds: Vec<Gathering>,
    given: u64,
    awaited: u64,
    most: u64,
}

// Written out, so that who drops one calls this, and does not take it apart at each exit.
impl Drop for Federation {
    fn drop(self) {
        let Federation {
            join: _join,
            rounds: _rounds,
            given: _given,
            awaited: _awaited,
            most: _most,
        } = self;
    }
}

impl Model for Federation {
    ghost use Rattle.federation.specs.Federations.{FederationData};
    ghost use Rattle.federation.specs.Counts.{IsCounted};

    ghost Value = { FederationData };

    ghost view = { λ f. record { join = f.join; rounds = f.rounds.items; given = f.given; awaited = f.awaited; most = f.most } };

    ghost invariant = { λ f. IsCounted f.join.tickets f.given f.awaited };
}

/// A round whose first address was handed out.
#[derive(Drop)]
pub(crate) struct Begun {
    pub(crate) gathering: Gathering,
    pub(crate) address: WebAddress,
}

/// How many pages may be awaited at once: one for each pattern, each row that is extended and each server. The count stands still at
/// 2^64 - 1.
fn most_awaited(patterns: usize, window: u32, forms: &FormList) -> u64
    ensures { result ≡ most_pages patterns window (length forms.now) }
{
    let rows = u64::from(window).saturating_mul(forms.len() as u64);
    (patterns as u64).saturating_mul(rows)
}

/// Begins the next round of a join, if there is one, and hands out its first address under a ticket. Condition: fewer than
/// 2^64 - 1 rounds were begun.
fn begin_round(
    join: &mut RoundJoin,
    alloc: Global,
    ticket: u64,
) -> Result<Option<Begun>, OutOfMemory>
    requires { join.old.tickets < 2 ^ 64 - 1 }
    ensures begins { IfOk result (BeginsNext join.old join.new ticket) }
    ensures tickets { join.new.tickets ≤ join.old.tickets + 1 }
{
    let Some(ask) = join.next_round(alloc)? else {
        return Ok(None);
    };
    let mut gathering = Gathering::begin(alloc, ask)?;
    match gathering.hand_out(ticket)? {
        None => Ok(None),
        Some(address) => Ok(Some(Begun { gathering, address })),
    }
}

/// Makes the joint page of a round, and answers the join's round with it.
fn join_round(
    join: &mut RoundJoin,
    alloc: Global,
    round: Gathering,
) -> Result<Answered, OutOfMemory>
    ensures joins { IfOk result (JoinsRound join.old join.new round) }
    ensures tickets { join.new.tickets ≡ join.old.tickets }
{
    let number = round.number();
    let alone = join.asks_one();
    let page = round.joint_page(alloc, alone)?;
    join.answer(alloc, number, page)
}

impl Federation {
    /// The evaluation of a query over servers, whose first pages have the addresses of these forms, with at most `window` rows
    /// extended at a time. Where the forms are those of the servers, the solutions over the union of what they hold are owed, and
    /// the plan of all of them together is left to ask. Conditions: the window is at least 1, and there is a form. The only error
    /// is out of memory.
    pub fn new(
        alloc: Global,
        query: &Query,
        forms: FormList,
        window: u32,
    ) -> Result<Federation, OutOfMemory>
        requires window { 1 ≤ window }
        requires some { 0 < length forms }
        ensures suits { (worlds : List World) → FitWorlds worlds forms → IfOk result (SuitsAll worlds) }
        ensures owes { (worlds : List World) → FitWorlds worlds forms → IfOk result (λ f.
            BeginsWith (joint_rows worlds query.now) (joint_plan worlds query.now) (account_of worlds f)) }
        ensures keeps { (homes : List Address) → FormsAtHome homes forms →
            IfOk result (KeepsAll (terms_of homes query.now)) }
        ensures small { IfOk result (KeepsSmall (sizes_of query.now (window * length forms))) }
        ensures stands { IfOk result (λ f. ((standing_of f).given ≡ 0) × ((standing_of f).out ≡ [])) }
        ensures most { IfOk result (λ f. f.most ≡ most_pages (length query.now.patterns) window (length forms)) }
    {
        plan_laws::worlds_together_are_a_world();
        let most = most_awaited(query.patterns().len(), window, &forms);
        let join = RoundJoin::new(alloc, query, forms, window)?;
        Ok(Federation {
            join,
            rounds: Vec::new(alloc),
            given: 0,
            awaited: 0,
            most,
        })
    }

    /// Whether so many pages are awaited as may be.
    fn is_full(&self) -> bool
        ensures yes { result ≡ true → IsFull self.now }
        ensures no { result ≡ false → HasRoom self.now }
    {
        self.awaited > 0 && self.awaited >= self.most
    }

    /// Hands out an address of a round that is gathered; `None` exactly where no round wants one, and then nothing changes.
    fn ask_part(&mut self) -> Result<Option<Ask>, OutOfMemory>
        requires { self.old.given < 2 ^ 64 - 1 }
        ensures { IfOk result (AskedPart self.old self.new) }
    {
        let ticket = self.given;
        let Some(address) = hand_out(&mut self.rounds, ticket)? else {
            return Ok(None);
        };
        self.given += 1;
        self.awaited += 1;
        Ok(Some(Ask { ticket, address }))
    }

    /// Hands out the first address of the next round; `None` exactly where the join has none now, and then nothing changes.
    fn ask_round(&mut self, alloc: Global) -> Result<Option<Ask>, OutOfMemory>
        requires { self.old.given < 2 ^ 64 - 1 }
        ensures { IfOk result (AskedRound self.old self.new) }
    {
        let ticket = self.given;
        self.given = ticket + 1;
        let Some(begun) = begin_round(&mut self.join, alloc, ticket)? else {
            self.given = ticket;
            return Ok(None);
        };
        let Begun { gathering, address } = begun;
        self.rounds.push(gathering)?;
        self.awaited += 1;
        Ok(Some(Ask { ticket, address }))
    }

    /// The next page to ask for, if there is one now: of a round that is gathered, or else of the next one.
    pub(crate) fn ask(&mut self, alloc: Global) -> Result<Option<Ask>, OutOfMemory>
        requires { self.old.given < 2 ^ 64 - 1 }
        ensures { IfOk result (Asks self.old self.new) }
    {
        if self.is_full() {
            return Ok(None);
        }
        match self.ask_part()? {
            Some(ask) => Ok(Some(ask)),
            None => self.ask_round(alloc),
        }
    }

    /// Takes the page that was asked for under a ticket. Where all pages of its round are there then, the join takes the round.
    pub(crate) fn take_page(
        &mut self,
        alloc: Global,
        ticket: u64,
        page: Page,
    ) -> Result<Answered, OutOfMemory>
        ensures { IfOk result (Answers self.old self.new ticket page) }
    {
        let Some(spot) = find(self.rounds.as_slice(), ticket) else {
            return Ok(Answered::Stranger);
        };
        self.awaited = self.awaited.saturating_sub(1);
        match take(&mut self.rounds, spot, page) {
            None => Ok(Answered::Taken),
            Some(round) => {
                join_round(&mut self.join, alloc, round)?;
                Ok(Answered::Taken)
            }
        }
    }

    /// Takes a row of the join that waits.
    pub(crate) fn give_row(&mut self) -> Option<Row>
        ensures { GivesOne self.old self.new result }
    {
        self.join.take_row()
    }

    /// Whether the join is over and no round is gathered.
    pub(crate) fn is_over(&self) -> bool
        ensures { result ≡ (standing_of self.now).done }
    {
        self.join.is_done() && self.rounds.is_empty()
    }
}

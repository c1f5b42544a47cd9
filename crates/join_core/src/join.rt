// The join over the pages of one server.
ghost use Rattle.std.specs.Prelude.{ℕ, ◌≡◌, ◌+◌, ◌-◌, ◌*◌, ◌<◌, ◌≤◌, ◌^◌, ◌↔◌, length, min, None, Ok, IfOk, OnErr, IsTrue};
ghost use Rattle.std.specs.List.{count_by};
ghost use Rattle.request_plan.specs.Worlds.{World};
ghost use Rattle.join_core.specs.Events.{works};
ghost use Rattle.request_plan.specs.Evaluations.{Terms, AsksAtHome, NextAtHome};
ghost use Rattle.join_core.specs.Sound.{KeepsTo, IsKeptSmall};
ghost use Rattle.join_core.specs.Joins.{nodes, Suits, IsTrueFor, with_longest};
ghost use Rattle.join_core.specs.Outcomes.{AskDone, AskNumbered, NothingToAsk, AnswerDone, AnswerNumbered, AnswerTakes, WaitsMore, LongestAfter, IsStranger};
ghost use Rattle.request_plan.specs.JointPages.{joint_page};
ghost use Rattle.join_core.specs.Ones.{SuitsOne, round_ask, AskStartsOne};
ghost use Rattle.join_core.specs.NewJoins.{IsNewJoin};
ghost use Rattle.join_core.specs.TakenRows.{TakesRow};
ghost use Rattle.join_core.specs.Runs.{IsDone};
ghost use Rattle.join_core.specs.JoinAccounts.{is_over};

use crate::RoundJoin;
use bgp_core::{Query, Row};
use fragment_page::Page;
use request_plan::{Answered, Ask, BlockSize, FormList, JointPage};
use std::alloc::Global;
use std::marker::Model;
use tpf_base::OutOfMemory;

/// The join of a query's patterns over the pages of their fragments, where one server has them. A
/// node is a block of rows with the patterns that are still to be matched; its depth is the number
/// of patterns that were. The deepest node is started first, and at most a window of nodes work at
/// a time. It is the join in rounds (`RoundJoin`), of which each has one address.
pub struct Join {
    join: RoundJoin,
}

// Written out, so that who drops one calls this, and does not take it apart at each exit.
impl Drop for Join {
    fn drop(self) {
        let Join { join: _join } = self;
    }
}

impl Model for Join {
    ghost use Rattle.join_core.specs.Joins.{JoinData};

    ghost Value = { JoinData };

    ghost view = { λ j. j.join };
}

impl Join {
    /// The join of a query's patterns, whose first pages have the addresses of the server's form,
    /// with at most `window` nodes at work, each of one row. One node is open, the empty row with
    /// all patterns; for a query without patterns the empty row waits at once. Of several forms the
    /// first server alone is asked. Condition: the window is at least 1. The only error is out of
    /// memory.
    pub fn new(
        alloc: Global,
        query: &Query,
        forms: FormList,
        window: u32,
    ) -> Result<Join, OutOfMemory>
        requires { 1 ≤ window }
        ensures { IfOk result (IsNewJoin query.now forms window 1) }
    {
        let join = RoundJoin::new(alloc, query, forms, window)?;
        Ok(Join { join })
    }

    /// The same with nodes of blocks of at most `block` rows, each of which asks for what all its
    /// rows need at once by one address (bindings-restricted Triple Pattern Fragments). The rows
    /// that a page makes are cut from the front into blocks, each the longest for which no target
    /// of a first page has more than `LONGEST_TARGET` bytes (65536), and of at least one row.
    /// Condition: the window is at least 1. The only error is out of memory.
    pub fn in_blocks(
        alloc: Global,
        query: &Query,
        forms: FormList,
        window: u32,
        block: BlockSize,
    ) -> Result<Join, OutOfMemory>
        requires { 1 ≤ window }
        ensures { IfOk result (IsNewJoin query.now forms window block) }
    {
        let join = RoundJoin::in_blocks(alloc, query, forms, window, block)?;
        Ok(Join { join })
    }

    /// How many nodes work: those that were started and wait for a page, or have a first page to
    /// hand out. The count stands still at 2^64 - 1. It takes no memory.
    pub fn working(&self) -> usize
        ensures { result ≡ min (count_by works (nodes self.now.levels)) (2 ^ 64 - 1) }
    {
        self.join.working()
    }

    /// How many nodes are open; the count stands still at 2^64 - 1. With n patterns, pages of at
    /// most m triples and blocks of at most b rows they are at most 1 + (n - 1) m b `window`. It
    /// takes no memory.
    pub fn open_rows(&self) -> usize
        ensures value { result ≡ min (length (nodes self.now.levels)) (2 ^ 64 - 1) }
        ensures small { (n m : ℕ) → IsKeptSmall n m self.now →
            result ≤ 1 + (n - 1) * ((m * self.now.block) * self.now.window) }
    {
        self.join.open_rows()
    }

    /// The next page to ask for, if there is one, under a ticket with a new number. A node that was
    /// started asks for the first pages of its patterns one after another. Where none has one to
    /// ask for, the deepest node that may be started is started, and of equal ones the earliest
    /// opened. There is none exactly where no started node has a first page to hand out and either
    /// `window` nodes work or none may be started. Condition: fewer than 2^64 - 1 tickets were
    /// given. The only error is out of memory, and then nothing changed.
    pub fn next_ask(&mut self, alloc: Global) -> Result<Option<Ask>, OutOfMemory>
        requires { self.old.tickets < 2 ^ 64 - 1 }
        ensures asks { (w : World) → SuitsOne w self.old →
            IfOk result (λ ask. AskDone w self.old self.new (round_ask ask)) }
        ensures numbered { IfOk result (λ ask. AskNumbered self.old self.new (round_ask ask)) }
        ensures starts { IfOk result (AskStartsOne self.old self.new) }
        ensures nothing { (result ≡ Ok None) → NothingToAsk self.old }
        ensures keeps { (terms : Terms) → KeepsTo terms self.old → KeepsTo terms self.new }
        ensures at_home { (terms : Terms) → KeepsTo terms self.old →
            IfOk result (AsksAtHome terms.homes) }
        ensures small { (n m : ℕ) → IsKeptSmall n m self.old → IsKeptSmall n m self.new }
        ensures failed { OnErr result (self.new ≡ self.old) }
    {
        match self.join.next_round(alloc)? {
            None => Ok(None),
            Some(ask) => {
                let (address, _others, _taken) = ask.round.into_parts();
                Ok(Some(Ask {
                    ticket: ask.ticket,
                    address,
                }))
            }
        }
    }

    /// Takes the page that was asked for under a ticket. The node that waited for it walks on or
    /// holds it; where it then holds all its first pages, it goes on with the one of the least
    /// count, the first on a tie, and ends where that count is 0. `Stranger` exactly where the
    /// ticket was not handed out or was answered before; then nothing changes. The only error is
    /// out of memory, and then nothing changed but that the page is gone: the ticket is out still.
    pub fn answer(
        &mut self,
        alloc: Global,
        ticket: u64,
        page: Page,
    ) -> Result<Answered, OutOfMemory>
        ensures taken { (w : World) → Suits w self.old →
            IsTrueFor w self.old ticket (joint_page page) →
            IfOk result (AnswerDone w self.old self.new ticket) }
        ensures numbered { IfOk result (AnswerNumbered self.old self.new ticket) }

        // But for the length of the longest page, of which `longest` speaks.
        ensures takes { IfOk result
            (AnswerTakes self.old (with_longest self.new self.old.longest)
            ticket (joint_page page)) }
        ensures stranger { (result ≡ Ok Answered.Stranger) → IsStranger self.old ticket }
        ensures keeps { (terms : Terms) → KeepsTo terms self.old →
            NextAtHome terms.homes page.next → KeepsTo terms self.new }
        ensures small { (n : ℕ) → IsKeptSmall n self.old.longest self.old →
            IsKeptSmall n self.new.longest self.new }
        ensures grows { WaitsMore self.old self.new }
        ensures longest { IfOk result
            (LongestAfter self.old.longest self.new.longest (length page.triples)) }
        ensures kept { self.new.tickets ≡ self.old.tickets }
        ensures failed { OnErr result (self.new ≡ self.old) }
    {
        self.join.answer(alloc, ticket, JointPage::one(alloc, page))
    }

    /// Takes a row that waits; `None` exactly where none does, and then nothing changes. It takes
    /// no memory.
    pub fn take_row(&mut self) -> Option<Row>
        ensures { TakesRow self.old self.new result }
    {
        self.join.take_row()
    }

    /// Whether no node is open, no ticket is out and no row waits. It takes no memory.
    pub fn is_done(&self) -> bool
        ensures done { IsTrue result ↔ IsDone self.now }
        ensures value { result ≡ is_over self.now }
    {
        self.join.is_done()
    }

    /// The most triples of a page that was taken, and at least 1. It takes no memory.
    pub fn longest_page(&self) -> usize
        ensures { result ≡ self.now.longest }
    {
        self.join.longest_page()
    }
}

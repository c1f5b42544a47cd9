// The blocks of a query with groups, asked one after another.
ghost use Rattle.std.specs.Prelude.{◌≡◌, ◌≤◌, ◌⊎◌, length, [], IfErr, OnOk, IsErrOf, true, false};
ghost use Rattle.std.specs.List.{AllByRecursion};
ghost use Rattle.tpf_base.specs.Links.{SameAllowed};
ghost use Rattle.bgp_core.specs.Queries.{IsPatternOf};
ghost use Rattle.tpf_client.specs.Bounds.{SuitsCalls};
ghost use Rattle.group_patterns.specs.Blocks.{AsksSome};
ghost use Rattle.group_patterns.specs.Asking.{no_progress, Keeps, KeepsNot, AsksBlock, BlockEnds, AsksStep, StepEnds, AsksBlocks, BlocksFit, block_in, blocks_in};

use crate::block::{collect_block, patterns_of};
use crate::fault::of_block;
use bgp_core::{Pattern, Row};
use group_query::Step;
use group_rows::Rows;
use request_plan::BlockSize;
use std::alloc::Global;
use std::collections::VecDeque;
use std::marker::Model;
use std::sync::Wait;
use template_fill::WebAddress;
use text_base::Text;
use tpf_base::Dial;
use tpf_client::{ClientFault, Options, Report};

/// What the calls for all blocks of a query have in common: the names of the query, the page at which each starts, and what bounds
/// all of them together.
#[derive(Drop)]
pub(crate) struct BlockCalls<'a> {
    pub(crate) names: &'a [Text],
    pub(crate) start: &'a WebAddress,
    pub(crate) options: &'a Options,
}

/// What the blocks that were asked so far came to: their rows, what is left of the budget, and the version that the last
/// one told.
#[derive(Drop)]
pub(crate) struct Asking {
    rows: VecDeque<Rows>,
    left: u64,
    version: Option<u64>,
}

impl Model for Asking {
    ghost use Rattle.group_patterns.specs.Asking.{Progress};

    ghost Value = { Progress };

    ghost view = { λ a. record { rows = a.rows.items; left = a.left; version = a.version } };
}

impl Asking {
    /// No block was asked yet. It takes no memory.
    pub(crate) fn new(alloc: Global, budget: u64) -> Asking
        ensures { result ≡ no_progress budget }
    {
        Asking {
            rows: VecDeque::new(alloc),
            left: budget,
            version: None,
        }
    }

    /// What is left of the budget.
    pub(crate) fn left(&self) -> u64
        ensures { result ≡ self.now.left }
    {
        self.left
    }

    /// The version that the last block told; `None` also where no block was asked.
    pub(crate) fn version(&self) -> Option<u64>
        ensures { result ≡ self.now.version }
    {
        self.version
    }

    /// The rows of the blocks, in the order in which these were asked. It takes no memory.
    pub(crate) fn into_rows(self) -> VecDeque<Rows>
        ensures { result.items ≡ self.rows }
    {
        self.rows
    }

    /// Whether blocks were asked, and the last one told another version.
    fn told_other(&self, version: Option<u64>) -> bool
        ensures other { result ≡ true → (self.now.rows ≡ [] → ⊥) × (self.now.version ≡ version → ⊥) }
        ensures same { result ≡ false → (self.now.rows ≡ []) ⊎ (self.now.version ≡ version) }
    {
        !self.rows.is_empty() && self.version != version
    }

    /// Keeps what a block told and gave. `Changed` where it told another version than the blocks before it.
    fn keep(&mut self, rows: Vec<Row>, report: Report) -> Result<(), ClientFault>
        requires within { report.requests ≤ self.old.left }
        ensures ok { OnOk result (Keeps (record { report = report; rows = rows.items }) self.old self.new) }
        ensures err { IfErr result (KeepsNot (record { report = report; rows = rows.items }) self.old) }
    {
        if self.told_other(report.version) {
            return Err(ClientFault::Changed(self.version, report.version));
        }
        self.version = report.version;
        self.left -= report.requests;
        match self.rows.push_back(Rows::new(rows)) {
            Ok(()) => Ok(()),
            Err(_) => Err(ClientFault::OutOfMemory),
        }
    }

    /// Asks a block with what is left of the budget, and keeps what it told and gave.
    fn ask_block<R: Wait, W: Dial>(
        &mut self,
        rt: &R,
        alloc: Global,
        calls: &BlockCalls<'_>,
        patterns: &[Pattern],
        wire: &mut W,
    ) -> Result<(), ClientFault>
        requires bounds { SuitsCalls calls.now.options.now }
        requires fit { AllByRecursion (IsPatternOf (length calls.now.names.now)) patterns.now }
        ensures ok { OnOk result (AsksBlock (W.allows wire.old) calls.now.options.now calls.now.start.now
            calls.now.names.now patterns.now self.old self.new (W.state wire.old) (W.state wire.new)) }
        ensures err { IfErr result (λ fault. BlockEnds (W.allows wire.old) calls.now.options.now calls.now.start.now
            calls.now.names.now patterns.now self.old fault (W.state wire.old) (W.state wire.new)) }
        ensures sink { IsErrOf result ClientFault.Sink → ⊥ }
        ensures allowed { SameAllowed (W.allows wire.old) (W.allows wire.new) }
    {
        if self.left == 0 {
            return Err(ClientFault::Budget(calls.options.budget));
        }
        let own = Options {
            window: calls.options.window,
            block: BlockSize::one(),
            links: calls.options.links,
            retries: calls.options.retries,
            budget: self.left,
            max_body: calls.options.max_body,
        };
        match collect_block(rt, alloc, calls.names, patterns, calls.start, &own, wire) {
            Err(fault) => Err(of_block(fault, calls.options.budget)),
            Ok((rows, report)) => self.keep(rows, report),
        }
    }

    /// Asks the block of a step, where it has one.
    fn ask_step<R: Wait, W: Dial>(
        &mut self,
        rt: &R,
        alloc: Global,
        calls: &BlockCalls<'_>,
        step: &Step,
        wire: &mut W,
    ) -> Result<(), ClientFault>
        requires bounds { SuitsCalls calls.now.options.now }
        requires fit { BlocksFit (length calls.now.names.now) (block_in step.now) }
        ensures ok { OnOk result (AsksStep (W.allows wire.old) calls.now.options.now calls.now.start.now
            calls.now.names.now (block_in step.now) self.old self.new (W.state wire.old) (W.state wire.new)) }
        ensures err { IfErr result (λ fault. StepEnds (W.allows wire.old) calls.now.options.now calls.now.start.now
            calls.now.names.now (block_in step.now) self.old fault (W.state wire.old) (W.state wire.new)) }
        ensures sink { IsErrOf result ClientFault.Sink → ⊥ }
        ensures allowed { SameAllowed (W.allows wire.old) (W.allows wire.new) }
    {
        match patterns_of(step) {
            None => Ok(()),
            Some(patterns) => self.ask_block(rt, alloc, calls, patterns, wire),
        }
    }

    /// Asks the blocks of steps, one after another.
    pub(crate) fn ask_all<R: Wait, W: Dial>(
        &mut self,
        rt: &R,
        alloc: Global,
        calls: &BlockCalls<'_>,
        steps: &[Step],
        wire: &mut W,
    ) -> Result<(), ClientFault>
        requires bounds { SuitsCalls calls.now.options.now }
        requires fresh { self.old ≡ no_progress calls.now.options.now.budget }
        requires fit { BlocksFit (length calls.now.names.now) (blocks_in steps.now) }
        ensures ok { OnOk result (AsksBlocks (W.allows wire.old) calls.now.options.now calls.now.start.now
            calls.now.names.now (blocks_in steps.now) self.new (W.state wire.old) (W.state wire.new)) }
        ensures err { IfErr result (λ fault. AsksSome (W.allows wire.old) calls.now.options.now calls.now.start.now
            calls.now.names.now (blocks_in steps.now) fault (W.state wire.old) (W.state wire.new)) }
        ensures sink { IsErrOf result ClientFault.Sink → ⊥ }
        ensures allowed { SameAllowed (W.allows wire.old) (W.allows wire.new) }
    {
        for step in steps {
            match self.ask_step(rt, alloc, calls, step, wire) {
                Ok(()) => {}
                Err(fault) => return Err(fault),
            }
        }
        Ok(())
    }
}

// A pool runs: it starts exchanges and polls them, one after another, until a reply comes or all wait.
ghost use Rattle.std.specs.Prelude.{◌≡◌, ◌≢◌, ◌<◌, ◌≤◌, ◌↔◌, ◌⊎◌, [], length, Ok, Err, IsTrue, true, false};
ghost use Rattle.tpf_base.specs.Links.{SameAllowed};
ghost use Rattle.request_pool.specs.Pools.{IsOverBudget, held, in_flight, CanStart};
ghost use Rattle.request_pool.specs.Owned.{SuitsWire};
ghost use Rattle.request_pool.specs.Runs.{RunsTo, is_end};
ghost use Rattle.request_pool.specs.Steps.{StepsTo, MayWait, Lines};

use crate::fault::{Polled, PoolFault, Stepped};
use crate::pool::Pool;
use exchange::ReceiveBuffer;
use std::mem;
use tpf_base::Dial;

impl Pool {
    /// Starts and polls, and then waits.
    pub(crate) fn go<W: Dial>(
        &mut self,
        wire: &mut W,
        buffer: &mut ReceiveBuffer,
    ) -> Result<Stepped, PoolFault>
        requires suits { SuitsWire self.old (W.state wire.old) }
        requires some { held self.old ≢ [] }
        ensures steps { StepsTo result self.old self.new (W.state wire.old) (W.state wire.new) }
        ensures suits { SuitsWire self.new (W.state wire.new) }
        ensures over { IsOverBudget self.old → (result ≡ Err PoolFault.Budget) ⊎ (result ≡ Err PoolFault.OutOfMemory) }
        ensures allowed { SameAllowed (W.allows wire.old) (W.allows wire.new) }
    {
        if !self.lines_up() {
            return Err(PoolFault::OutOfMemory);
        }
        if self.is_over_budget() {
            return Err(PoolFault::Budget);
        }
        match self.run_on(wire, buffer) {
            Ok(
                Polled::Came {
                    ticket,
                    address,
                    reply,
                },
            ) => Ok(Stepped::Came {
                ticket,
                address,
                reply,
            }),
            Ok(Polled::Pending) => {
                self.bounds();
                self.wait(wire)
            }
            Ok(Polled::Failed) => unreachable!(),
            Err(fault) => Err(fault),
        }
    }

    /// Puts those in flight in one line, unless the step goes on where the one before stopped. Out of
    /// memory, all is as it was, and the answer is false.
    fn lines_up(&mut self) -> bool
        ensures ok { result ≡ true → Lines self.old self.new }
        ensures err { result ≡ false → self.new ≡ self.old }
    {
        if self.goes_on() {
            return true;
        }
        self.gather()
    }

    /// Whether the step goes on where the one before stopped. To begin at the oldest again is the better
    /// order, and costs a receive for each exchange that is passed once more; it is done as long as these
    /// are together no more than are in flight, so that a reply costs no more where more are in flight.
    fn goes_on(&self) -> bool {
        self.passed_again() > self.in_flight()
    }

    /// How many exchanges are passed once more since a round began, if it begins at the oldest again.
    fn passed_again(&self) -> usize {
        if self.due.is_empty() {
            0
        } else {
            self.passed.saturating_add(self.polled.len())
        }
    }

    /// Puts those in flight in one line, the oldest first. Out of memory, all is as it was, and the
    /// answer is false.
    fn gather(&mut self) -> bool
        ensures ok { result ≡ true → self.new ≡ record self.old { polled = in_flight self.old; due = [] } }
        ensures err { result ≡ false → self.new ≡ self.old }
    {
        self.passed = self.passed_again();
        self.polled.append(&mut self.due).is_ok()
    }

    /// Whether a place is free and an ask waits.
    fn can_start(&self) -> bool
        ensures { IsTrue result ↔ CanStart self.now }
    {
        self.in_flight() < self.links as usize && !self.waiting.is_empty()
    }

    /// Whether one more exchange is wanted than the budget allows.
    fn is_over_budget(&self) -> bool
        ensures { IsTrue result ↔ IsOverBudget self.now }
    {
        self.can_start() && self.started >= self.budget
    }

    /// Polls what the step before left to be polled, and then runs.
    fn run_on<W: Dial>(
        &mut self,
        wire: &mut W,
        buffer: &mut ReceiveBuffer,
    ) -> Result<Polled, PoolFault>
        requires suits { SuitsWire self.old (W.state wire.old) }
        ensures runs { RunsTo result self.old self.new (W.state wire.old) (W.state wire.new) }
        ensures may_wait { result ≡ Ok Polled.Pending → MayWait (W.state wire.old) self.new (W.state wire.new) }
        ensures suits { SuitsWire self.new (W.state wire.new) }
        ensures allowed { SameAllowed (W.allows wire.old) (W.allows wire.new) }
    {
        let left = self.poll_all(wire, buffer);
        if ends(&left) {
            return left;
        }
        drop(left);
        self.run(wire, buffer)
    }

    /// Starts what may be started, polls all in flight, and starts again what failures made room for.
    fn run<W: Dial>(
        &mut self,
        wire: &mut W,
        buffer: &mut ReceiveBuffer,
    ) -> Result<Polled, PoolFault>
        requires suits { SuitsWire self.old (W.state wire.old) }
        requires none_due { self.old.due ≡ [] }
        ensures runs { RunsTo result self.old self.new (W.state wire.old) (W.state wire.new) }
        ensures may_wait { result ≡ Ok Polled.Pending → MayWait (W.state wire.old) self.new (W.state wire.new) }
        ensures suits { SuitsWire self.new (W.state wire.new) }
        ensures allowed { SameAllowed (W.allows wire.old) (W.allows wire.new) }
    {
        let started = self.start_all(wire, buffer);
        if ends(&started) {
            return started;
        }
        drop(started);
        self.begin_round();
        let polled = self.poll_all(wire, buffer);
        if ends(&polled) {
            return polled;
        }
        drop(polled);
        let again = self.start_all(wire, buffer);
        self.bounds();
        again
    }

    /// How many exchanges may be in flight, and that no more are. It does nothing.
    pub(crate) fn bounds(&self)
        ensures some { 0 < self.now.links }
        ensures few { length (in_flight self.now) ≤ self.now.links }
    {
        let _links = self.links;
    }

    /// All in flight are to be polled.
    fn begin_round(&mut self)
        requires none_due { self.old.due ≡ [] }
        ensures { self.new ≡ record self.old { polled = []; due = self.old.polled } }
    {
        mem::swap(&mut self.polled, &mut self.due);
    }

    /// Starts asks until no place is free or none waits, or a reply came.
    fn start_all<W: Dial>(
        &mut self,
        wire: &mut W,
        buffer: &mut ReceiveBuffer,
    ) -> Result<Polled, PoolFault>
        requires suits { SuitsWire self.old (W.state wire.old) }
        ensures runs { RunsTo result self.old self.new (W.state wire.old) (W.state wire.new) }
        ensures suits { SuitsWire self.new (W.state wire.new) }
        ensures due { self.new.due ≡ self.old.due }
        ensures full { result ≡ Ok Polled.Pending → ¬ CanStart self.new }
        ensures allowed { SameAllowed (W.allows wire.old) (W.allows wire.new) }
    {
        while self.can_start() {
            let started = self.start(wire, buffer);
            if ends(&started) {
                return started;
            }
            drop(started);
        }
        Ok(Polled::Pending)
    }

    /// Polls what is to be polled, the oldest first, until a reply came.
    fn poll_all<W: Dial>(
        &mut self,
        wire: &mut W,
        buffer: &mut ReceiveBuffer,
    ) -> Result<Polled, PoolFault>
        requires suits { SuitsWire self.old (W.state wire.old) }
        ensures runs { RunsTo result self.old self.new (W.state wire.old) (W.state wire.new) }
        ensures suits { SuitsWire self.new (W.state wire.new) }
        ensures none_due { result ≡ Ok Polled.Pending → self.new.due ≡ [] }
        ensures allowed { SameAllowed (W.allows wire.old) (W.allows wire.new) }
    {
        while self.is_due() {
            let polled = self.poll_next(wire, buffer);
            if ends(&polled) {
                return polled;
            }
            drop(polled);
        }
        Ok(Polled::Pending)
    }

    /// Whether an exchange is to be polled in this round.
    fn is_due(&self) -> bool
        ensures some { result ≡ true → self.now.due ≢ [] }
        ensures none { result ≡ false → self.now.due ≡ [] }
    {
        !self.due.is_empty()
    }
}

/// Whether a run ends with this.
fn ends(polled: &Result<Polled, PoolFault>) -> bool
    ensures { result ≡ is_end polled.now }
{
    match polled {
        Ok(Polled::Pending) => false,
        Ok(Polled::Failed) => false,
        Ok(Polled::Came { .. }) => true,
        Err(_) => true,
    }
}

// A pool of exchanges over one wire.
ghost use Rattle.std.specs.Prelude.{◌≡◌, ◌≢◌, ◌<◌, ◌≤◌, ◌⊎◌, [], length, Some, None, Ok, Err, IfOk, OnOk, OnErr, min, ◌^◌, ◌-◌, IfErr};
ghost use Rattle.std.specs.List.{AllByRecursion};
ghost use Rattle.tpf_base.specs.declared.limits.TheConstants.{MOST_LINKS};
ghost use Rattle.tpf_base.specs.Links.{WireState, SameAllowed};
ghost use Rattle.request_pool.specs.Pools.{Pooled, IsOverBudget, empty_pool, held, in_flight, bounds_of, with_ask};
ghost use Rattle.request_pool.specs.Owned.{SuitsWire};
ghost use Rattle.request_pool.specs.Steps.{StepsTo, EndsPool, HoldsOn, WaitsOnce};
ghost use Rattle.request_pool.specs.Faults.{kept_of, shown_by};

use crate::asks::{Flight, Spare, Waiting};
use crate::fault::{KeptFault, PoolFault, Stepped};
use exchange::ReceiveBuffer;
use std::alloc::Global;
use std::collections::VecDeque;
use std::marker::Model;
use template_fill::WebAddress;
use tpf_base::{Dial, OutOfMemory};

/// Exchanges over one wire, at most so many at once. Asks wait in the order in which they were put;
/// one that fails is asked again before all others, as often as it may be tried again.
///
/// Contracts see its bounds, the asks that wait, the exchanges in flight, the links that were left,
/// how many exchanges were started, and the fault that ended it.
#[derive(Drop)]
pub struct Pool {
    pub(crate) alloc: Global,
    pub(crate) links: u32,
    pub(crate) retries: u32,
    pub(crate) budget: u64,
    pub(crate) limit: u64,
    pub(crate) waiting: VecDeque<Waiting>,
    pub(crate) polled: VecDeque<Flight>,
    pub(crate) due: VecDeque<Flight>,
    pub(crate) spare: Vec<Spare>,
    /// How many exchanges were passed once more since a round began.
    pub(crate) passed: usize,
    pub(crate) started: u64,
    pub(crate) fault: Option<KeptFault>,
    pub(crate) buffer: Option<ReceiveBuffer>,
}

impl Model for Pool {
    ghost use Rattle.std.specs.Prelude.{◌≤◌, ◌<◌, ◌+◌, length};
    ghost use Rattle.request_pool.specs.Pools.{Pooled};
    ghost use Rattle.request_pool.specs.Faults.{shown_by};

    ghost Value = { Pooled };

    ghost view = { λ p. record {
      links = p.links;
      retries = p.retries;
      budget = p.budget;
      limit = p.limit;
      waiting = p.waiting.items;
      polled = p.polled.items;
      due = p.due.items;
      spare = p.spare.items;
      started = p.started;
      fault = shown_by p.fault;
    } };

    ghost invariant = { λ p. (0 < p.links) × (length p.polled.items + length p.due.items ≤ p.links) };
}

impl Pool {
    /// A pool that holds nothing: at most `links` exchanges are in flight at once, and as many links
    /// (connections) that exchanges left open are kept for later asks; a ticket is asked again at most
    /// `retries` times; at most `budget` exchanges are started; and a reply may have a body of at most
    /// `limit` bytes. Condition: `links` is 1 to `MOST_LINKS` (256). It takes no memory.
    pub fn new(alloc: Global, links: u32, retries: u32, budget: u64, limit: u64) -> Pool
        requires some { 0 < links }
        requires few { links ≤ MOST_LINKS }
        ensures empty { result ≡ empty_pool links retries budget limit }
        ensures suits { (wire : WireState) → SuitsWire result wire }
    {
        Pool {
            alloc,
            links,
            retries,
            budget,
            limit,
            waiting: VecDeque::new(alloc),
            polled: VecDeque::new(alloc),
            due: VecDeque::new(alloc),
            spare: Vec::new(alloc),
            passed: 0,
            started: 0,
            fault: None,
            buffer: None,
        }
    }

    /// Holds an ask, which waits behind those that wait. Condition: no ask is held under its ticket.
    /// Out of memory, all is as it was and the address is gone.
    pub fn put(&mut self, ticket: u64, address: WebAddress) -> Result<(), OutOfMemory>
        requires fresh { AllByRecursion (λ ask. ask.ticket ≢ ticket) (held self.old) }
        ensures ok { OnOk result (self.new ≡ with_ask ticket address self.old) }
        ensures err { OnErr result (self.new ≡ self.old) }
        ensures suits { (wire : WireState) → SuitsWire self.old wire → SuitsWire self.new wire }
    {
        self.waiting.push_back(Waiting {
            ticket,
            address,
            failed: 0,
        })?;
        Ok(())
    }

    /// How many exchanges were started since the pool was made, each try of an ask as one.
    pub fn started(&self) -> u64
        ensures { result ≡ self.now.started }
    {
        self.started
    }

    /// How many exchanges are in flight.
    pub fn in_flight(&self) -> usize
        ensures { result ≡ length (in_flight self.now) }
    {
        self.polled.len() + self.due.len()
    }

    /// How many asks are held: those that wait and those in flight. It stands still at 2^64 - 1.
    pub fn held(&self) -> usize
        ensures { result ≡ min (length (held self.now)) (2 ^ 64 - 1) }
    {
        self.waiting.len().saturating_add(self.in_flight())
    }

    /// Starts the asks that wait, as many as may be in flight, polls each exchange in flight, the
    /// oldest first, and waits for the wire once where no reply came. Behind a step that gave a reply it
    /// may go on first with the exchanges that this one did not poll. Where nothing is held, it answers
    /// `Idle` and calls nothing.
    ///
    /// It ends at the first reply that comes, and hands back the address that was asked for. Each step
    /// has the same wire, and nothing else calls on it between two steps. A fault is handed over with
    /// its bytes, of which the pool keeps none; each later step answers the same fault without them.
    pub fn step<W: Dial>(&mut self, wire: &mut W) -> Result<Stepped, PoolFault>
        requires suits { SuitsWire self.old (W.state wire.old) }
        ensures suits { SuitsWire self.new (W.state wire.new) }
        ensures allowed { SameAllowed (W.allows wire.old) (W.allows wire.new) }
        ensures ok { self.old.fault ≡ None
            → IfOk result (λ stepped. StepsTo (Ok stepped) self.old self.new (W.state wire.old) (W.state wire.new)) }
        ensures holds { self.old.fault ≡ None → IfOk result (λ stepped. HoldsOn stepped self.old self.new) }
        ensures waits { self.old.fault ≡ None → WaitsOnce result (W.state wire.old) (W.state wire.new) }
        ensures err { self.old.fault ≡ None
            → IfErr result (λ fault. EndsPool fault self.old self.new (W.state wire.old) (W.state wire.new)) }
        ensures bounds { bounds_of (record self.new { fault = None }) ≡ bounds_of (record self.old { fault = None }) }
        ensures no_fault { self.old.fault ≡ None → OnOk result (self.new.fault ≡ None) }
        ensures idle { self.old.fault ≡ None → held self.old ≡ [] → result ≡ Ok Stepped.Idle }
        ensures over { self.old.fault ≡ None → IsOverBudget self.old
            → (result ≡ Err PoolFault.Budget) ⊎ (result ≡ Err PoolFault.OutOfMemory) }
        ensures again { (fault : PoolFault) → self.old.fault ≡ Some fault
            → (result ≡ Err fault) × (self.new ≡ self.old) × (W.state wire.new ≡ W.state wire.old) }
    {
        match self.kept_fault() {
            Some(kept) => Err(kept.fault(self.alloc)),
            None => match self.turn(wire) {
                Ok(stepped) => Ok(stepped),
                Err(fault) => {
                    self.end_with(&fault);
                    Err(fault)
                }
            },
        }
    }

    /// What is kept of the fault that ended it.
    fn kept_fault(&self) -> Option<KeptFault>
        ensures { self.now.fault ≡ shown_by result }
    {
        self.fault
    }

    /// Ends with a fault.
    fn end_with(&mut self, fault: &PoolFault)
        ensures { self.new ≡ record self.old { fault = Some (kept_of fault.now) } }
    {
        self.fault = Some(KeptFault::of(fault));
    }

    /// A step before which no step had a fault.
    fn turn<W: Dial>(&mut self, wire: &mut W) -> Result<Stepped, PoolFault>
        requires suits { SuitsWire self.old (W.state wire.old) }
        ensures steps { StepsTo result self.old self.new (W.state wire.old) (W.state wire.new) }
        ensures suits { SuitsWire self.new (W.state wire.new) }
        ensures idle { held self.old ≡ [] → result ≡ Ok Stepped.Idle }
        ensures over { IsOverBudget self.old → (result ≡ Err PoolFault.Budget) ⊎ (result ≡ Err PoolFault.OutOfMemory) }
        ensures allowed { SameAllowed (W.allows wire.old) (W.allows wire.new) }
    {
        if self.held() == 0 {
            return Ok(Stepped::Idle);
        }
        match self.take_buffer() {
            Some(buffer) => self.turn_with(wire, buffer),
            None => Err(PoolFault::OutOfMemory),
        }
    }

    /// The buffer into which replies are received, and room for as many links as may be kept; or none
    /// out of memory.
    fn take_buffer(&mut self) -> Option<ReceiveBuffer>
        ensures { self.new ≡ self.old }
    {
        if !self.has_places() {
            return None;
        }
        match self.buffer.take() {
            Some(buffer) => Some(buffer),
            None => ReceiveBuffer::new(self.alloc).ok(),
        }
    }

    /// Makes room for as many links as may be kept, so that keeping one takes no memory. Out of memory,
    /// the answer is false.
    fn has_places(&mut self) -> bool
        ensures { self.new ≡ self.old }
    {
        let places = (self.links as usize).saturating_sub(self.spare.len());
        self.spare.try_reserve_exact(places).is_ok()
    }

    /// A step with the buffer, which is kept for the next one.
    fn turn_with<W: Dial>(
        &mut self,
        wire: &mut W,
        buffer: ReceiveBuffer,
    ) -> Result<Stepped, PoolFault>
        requires suits { SuitsWire self.old (W.state wire.old) }
        requires some { held self.old ≢ [] }
        ensures steps { StepsTo result self.old self.new (W.state wire.old) (W.state wire.new) }
        ensures suits { SuitsWire self.new (W.state wire.new) }
        ensures over { IsOverBudget self.old → (result ≡ Err PoolFault.Budget) ⊎ (result ≡ Err PoolFault.OutOfMemory) }
        ensures allowed { SameAllowed (W.allows wire.old) (W.allows wire.new) }
    {
        let mut buffer = buffer;
        let stepped = self.go(wire, &mut buffer);
        self.keep_buffer(buffer);
        stepped
    }

    /// Keeps the buffer for the next step.
    fn keep_buffer(&mut self, buffer: ReceiveBuffer)
        ensures { self.new ≡ self.old }
    {
        self.buffer = Some(buffer);
    }
}

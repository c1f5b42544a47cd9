// What is asked for.
ghost use Rattle.std.specs.Prelude.{◌≡◌, ◌≢◌, ◌<◌, ◌^◌, None, OnOk, OnErr};
ghost use Rattle.std.specs.List.{AllByRecursion};
ghost use Rattle.tpf_base.specs.Links.{SameAllowed};
ghost use Rattle.request_pool.specs.Pools.{empty_pool, held};
ghost use Rattle.request_pool.specs.Owned.{SuitsWire, held_on};
ghost use Rattle.request_pool.specs.Closing.{ClosesSome};
ghost use Rattle.tpf_client.specs.Asking.{PutsOne, StepsOn, next_of};
ghost use Rattle.tpf_client.specs.Bounds.{SuitsCalls};

use crate::{Options, laws};
use http_wire::Reply;
use request_pool::{Pool, PoolFault, Stepped};
use std::alloc::Global;
use std::marker::Model;
use template_fill::WebAddress;
use tpf_base::{Dial, OutOfMemory};

/// The reply to an ask: its ticket, and the address that was asked for.
#[derive(Drop)]
pub(crate) struct Arrived {
    pub(crate) ticket: u64,
    pub(crate) address: WebAddress,
    pub(crate) reply: Reply,
}

/// What a step came to.
#[derive(Drop)]
pub(crate) enum Next {
    /// The whole reply to an ask.
    Came(Arrived),
    /// Nothing came, and the wire was waited for.
    Waited,
    /// No ask is held.
    Idle,
}

/// The asks of a call: a pool of exchanges, of which no two asks have one ticket. Contracts see the
/// pool.
#[derive(Drop)]
pub(crate) struct Asks {
    pool: Pool,
}

impl Model for Asks {
    ghost use Rattle.request_pool.specs.Pools.{Pooled};
    ghost use Rattle.tpf_client.specs.Asking.{TicketsDiffer};

    ghost Value = { Pooled };

    ghost view = { λ a. a.pool };

    ghost invariant = { λ a. TicketsDiffer a.pool };
}

/// What a step of the pool comes to.
fn next_of(stepped: Result<Stepped, PoolFault>) -> Result<Next, PoolFault>
    ensures { result ≡ next_of stepped }
{
    match stepped {
        Ok(
            Stepped::Came {
                ticket,
                address,
                reply,
            },
        ) => Ok(Next::Came(Arrived {
            ticket,
            address,
            reply,
        })),
        Ok(Stepped::Waited) => Ok(Next::Waited),
        Ok(Stepped::Idle) => Ok(Next::Idle),
        Err(fault) => Err(fault),
    }
}

impl Asks {
    /// Nothing is asked for yet. It takes no memory.
    pub(crate) fn new(alloc: Global, options: &Options) -> Asks
        requires bounds { SuitsCalls options.now }
        ensures empty { result ≡ empty_pool options.now.links options.now.retries options.now.budget
            options.now.max_body }
        ensures limit { options.now.max_body < 2 ^ 64 }
    {
        Asks {
            pool: Pool::new(
                alloc,
                options.links,
                options.retries,
                options.budget,
                options.max_body,
            ),
        }
    }

    /// How many requests were started.
    pub(crate) fn started(&self) -> u64
        ensures { result ≡ self.now.started }
    {
        self.pool.started()
    }

    /// Asks for an address under a ticket. Out of memory, the asks are as they were.
    pub(crate) fn put(&mut self, ticket: u64, address: WebAddress) -> Result<(), OutOfMemory>
        requires fresh { AllByRecursion (λ ask. ask.ticket ≢ ticket) (held self.old) }
        ensures ok { OnOk result (PutsOne (record { ticket = ticket; address = address }) self.old self.new) }
        ensures err { OnErr result (self.new ≡ self.old) }
    {
        address.is_valid();
        self.pool.put(ticket, address)
    }

    /// Starts and polls what is asked for, and waits where nothing moved.
    pub(crate) fn step<W: Dial>(&mut self, wire: &mut W) -> Result<Next, PoolFault>
        requires suits { SuitsWire self.old (W.state wire.old) }
        requires no_fault { self.old.fault ≡ None }
        ensures steps { StepsOn (W.allows wire.old) result self.old self.new (W.state wire.old) (W.state wire.new) }
        ensures allowed { SameAllowed (W.allows wire.old) (W.allows wire.new) }
    {
        let stepped = self.pool.step(wire);
        laws::is_lawful(wire);
        next_of(stepped)
    }

    /// Closes all links that are held. Nothing is asked for afterwards.
    pub(crate) fn close<W: Dial>(&mut self, wire: &mut W)
        requires suits { SuitsWire self.old (W.state wire.old) }
        ensures closes { ClosesSome (held_on self.old) (λ k. 0) (W.state wire.old) (W.state wire.new) }
        ensures allowed { SameAllowed (W.allows wire.old) (W.allows wire.new) }
    {
        self.pool.close(wire);
    }
}

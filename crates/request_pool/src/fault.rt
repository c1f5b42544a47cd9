// What a step of a pool answers.
ghost use Rattle.std.specs.Prelude.{◌≡◌};
ghost use Rattle.request_pool.specs.Faults.{kept_of, as_fault};

use http_wire::{Reply, ReplyFault};
use std::alloc::Global;
use template_fill::WebAddress;
use tpf_base::Bytes;

/// What a step came to.
#[derive(Drop)]
pub enum Stepped {
    /// The whole reply to the request for the address of a ticket, which is held no longer. The address
    /// is handed back with it.
    Came {
        ticket: u64,
        address: WebAddress,
        reply: Reply,
    },
    /// Nothing came, and the wire was waited for once.
    Waited,
    /// No ask is held.
    Idle,
}

/// Why a pool ended.
#[derive(Debug, Drop)]
pub enum PoolFault {
    /// A ticket failed once more than it may be tried again, and the last time the wire's count of
    /// faults rose.
    Exchange,
    /// The same, and the last time `MOST_IDLE` (1000) waits had followed one another.
    Stalled,
    /// The same, and the last time its link ended before the reply was whole. What was received in
    /// reply is handed over.
    Cut { received: Bytes },
    /// A reply is refused. What was received in reply is handed over.
    Reply { fault: ReplyFault, received: Bytes },
    /// As many exchanges were started as the budget allows, and an ask waits for which a place is free.
    Budget,
    /// Out of memory.
    OutOfMemory,
}

/// What a pool keeps of the fault that ended it: all but the bytes, which were handed over.
#[derive(Clone, Copy)]
pub(crate) enum KeptFault {
    Exchange,
    Stalled,
    Cut,
    Reply(ReplyFault),
    Budget,
    OutOfMemory,
}

impl KeptFault {
    /// What is kept of a fault.
    pub(crate) fn of(fault: &PoolFault) -> KeptFault
        ensures { as_fault result ≡ kept_of fault.now }
    {
        match fault {
            PoolFault::Exchange => KeptFault::Exchange,
            PoolFault::Stalled => KeptFault::Stalled,
            PoolFault::Cut { .. } => KeptFault::Cut,
            PoolFault::Reply { fault, .. } => KeptFault::Reply(*fault),
            PoolFault::Budget => KeptFault::Budget,
            PoolFault::OutOfMemory => KeptFault::OutOfMemory,
        }
    }

    /// The fault, without bytes. It takes no memory.
    pub(crate) fn fault(self, alloc: Global) -> PoolFault
        ensures { result ≡ as_fault self }
    {
        let received = Bytes::from_vec(Vec::new(alloc));
        match self {
            KeptFault::Exchange => PoolFault::Exchange,
            KeptFault::Stalled => PoolFault::Stalled,
            KeptFault::Cut => PoolFault::Cut { received },
            KeptFault::Reply(fault) => PoolFault::Reply { fault, received },
            KeptFault::Budget => PoolFault::Budget,
            KeptFault::OutOfMemory => PoolFault::OutOfMemory,
        }
    }
}

/// What a poll of one exchange in flight came to.
#[derive(Drop)]
pub enum Polled {
    /// It is still in flight.
    Pending,
    /// Its reply came.
    Came {
        ticket: u64,
        address: WebAddress,
        reply: Reply,
    },
    /// It failed, and its ask waits again.
    Failed,
}

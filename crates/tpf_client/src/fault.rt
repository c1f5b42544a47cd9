// Why a call ended.
ghost use Rattle.std.specs.Prelude.{◌≡◌};
ghost use Rattle.tpf_client.specs.Causes.{shown_as};
ghost use Rattle.tpf_client.specs.Rows.{sink_fault};

use control_reader::PageFault;
use http_wire::ReplyFault;
use request_pool::PoolFault;
use tpf_base::{Bytes, Fault};

/// Why a call ended before its result was whole. Its connections are closed by then.
#[derive(Debug, Drop)]
pub enum ClientFault {
    /// A request failed once more than it may be sent again, and the last time the wire's count of
    /// faults rose.
    Exchange,
    /// The same, and the last time `MOST_IDLE` (1000) waits had followed one another with no byte moved.
    Stalled,
    /// The same, and the last time its connection (link) ended before the reply was whole. What was
    /// received in reply is kept.
    Cut { received: Bytes },
    /// A reply is refused for its head, status, media type, content coding, framing or length (RFC 9110;
    /// RFC 9112). What was received in reply is kept.
    Reply { fault: ReplyFault, received: Bytes },
    /// The body of a reply, which is kept, is no page of the address that was asked for.
    Page { fault: PageFault, body: Bytes },
    /// A page tells another version of the data than the start page, whose version is the first.
    Changed(Option<u64>, Option<u64>),
    /// As many requests were started as `budget` says, which is this number, and one more is wanted.
    Budget(u64),
    /// The sink failed: its count of faults rose in the call.
    Sink,
    /// Out of memory. It may come at any time.
    OutOfMemory,
}

/// The fault of a sink as that of a call.
pub fn of_sink(fault: Fault) -> ClientFault
    ensures { result ≡ sink_fault fault }
{
    match fault {
        Fault::Failed => ClientFault::Sink,
        Fault::OutOfMemory => ClientFault::OutOfMemory,
    }
}

/// The fault of a pool as that of a call with a budget.
pub(crate) fn shown(fault: PoolFault, budget: u64) -> ClientFault
    ensures { result ≡ shown_as budget fault }
{
    match fault {
        PoolFault::Exchange => ClientFault::Exchange,
        PoolFault::Stalled => ClientFault::Stalled,
        PoolFault::Cut { received } => ClientFault::Cut { received },
        PoolFault::Reply { fault, received } => ClientFault::Reply { fault, received },
        PoolFault::Budget => ClientFault::Budget(budget),
        PoolFault::OutOfMemory => ClientFault::OutOfMemory,
    }
}

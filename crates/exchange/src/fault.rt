// Why an exchange gave no reply.
use http_wire::ReplyFault;
use tpf_base::Bytes;

/// Why an exchange gave no reply.
#[derive(Debug, Drop)]
pub enum ExchangeFault {
    /// The wire failed at a dial, a send or a receive, and its count of faults rose in this poll.
    Failed,
    /// The link ended before the reply was whole. What was received in reply is kept.
    Cut { received: Bytes },
    /// The reply is refused. What was received in reply is kept.
    Bad { fault: ReplyFault, received: Bytes },
    /// Out of memory.
    OutOfMemory,
}

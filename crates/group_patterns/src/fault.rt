// Faults of a block as those of the whole call.
ghost use Rattle.std.specs.Prelude.{◌≡◌};
ghost use Rattle.group_patterns.specs.Blocks.{of_block};

use tpf_client::ClientFault;

/// The fault of a block's call as that of the whole call, which tells the whole budget.
pub(crate) fn of_block(fault: ClientFault, budget: u64) -> ClientFault
    ensures { result ≡ of_block budget fault }
{
    match fault {
        ClientFault::Exchange => ClientFault::Exchange,
        ClientFault::Stalled => ClientFault::Stalled,
        ClientFault::Cut { received } => ClientFault::Cut { received },
        ClientFault::Reply { fault, received } => ClientFault::Reply { fault, received },
        ClientFault::Page { fault, body } => ClientFault::Page { fault, body },
        ClientFault::Changed(first, other) => ClientFault::Changed(first, other),
        ClientFault::Budget(_) => ClientFault::Budget(budget),
        ClientFault::Sink => ClientFault::Sink,
        ClientFault::OutOfMemory => ClientFault::OutOfMemory,
    }
}

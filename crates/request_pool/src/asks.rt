// What a pool holds.
use exchange::Exchange;
use template_fill::WebAddress;
use tpf_base::Bytes;

/// An address that is asked for under a ticket and waits, and how often that failed.
#[derive(Drop)]
pub(crate) struct Waiting {
    pub(crate) ticket: u64,
    pub(crate) address: WebAddress,
    pub(crate) failed: u32,
}

/// An exchange in flight, its ticket, and how often that failed. The exchange has the address.
#[derive(Drop)]
pub(crate) struct Flight {
    pub(crate) ticket: u64,
    pub(crate) failed: u32,
    pub(crate) exchange: Exchange,
}

/// A link that an exchange left open, and the authority of the address that it was for.
#[derive(Drop)]
pub(crate) struct Spare {
    pub(crate) link: u64,
    pub(crate) authority: Bytes,
}

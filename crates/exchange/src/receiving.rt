// Receiving a reply.
ghost use Rattle.std.specs.Prelude.{◌≡◌, ◌<◌, ◌≤◌, length, true};
ghost use Rattle.tpf_base.specs.HttpReply.{is_open};
ghost use Rattle.tpf_base.specs.Links.{SameAllowed};
ghost use Rattle.exchange.specs.declared.buffer.TheConstants.{ROOM};
ghost use Rattle.exchange.specs.Receiving.{ReceivesUpTo, ReceivingEnds};

use crate::incoming::Incoming;
use tpf_base::{Moved, Wire};

/// How receiving came to an end.
#[derive(Clone, Copy)]
pub(crate) enum Received {
    /// The reply is whole, or it is refused.
    Read,
    /// The link ended before that.
    End,
    /// The last call moved nothing, and the stalls of the link rose.
    NotYet,
    /// The wire failed, and its count of faults rose.
    Failed,
    /// Out of memory. Bytes that were received last may be lost.
    OutOfMemory,
}

/// Receives on an open link, piece by piece, until the reply is read or a call moves no byte.
pub(crate) fn receive<W: Wire>(
    wire: &mut W,
    link: u64,
    piece: &mut [u8],
    incoming: &mut Incoming,
) -> Received
    requires is_open { ((W.state wire.old).links link).is_open ≡ true }
    requires room { 0 < length piece.old }
    requires few { length piece.old ≤ ROOM }
    requires goes_on { is_open incoming.old.place ≡ true }
    ensures receives { ReceivesUpTo result link incoming.old incoming.new (W.state wire.old) (W.state wire.new) }
    ensures end_ { ReceivingEnds result link incoming.new (W.state wire.old) (W.state wire.new) }
    ensures allowed { SameAllowed (W.allows wire.old) (W.allows wire.new) }
{
    loop {
        match wire.recv(link, piece) {
            Moved::Moved(n) => match incoming.read(&piece[..n]) {
                Ok(true) => {}
                Ok(false) => return Received::Read,
                Err(_) => return Received::OutOfMemory,
            },
            Moved::End => return Received::End,
            Moved::NotYet => return Received::NotYet,
            Moved::Failed => return Received::Failed,
            Moved::OutOfMemory => return Received::OutOfMemory,
        }
    }
}

// Sending bytes on an open link, with as many calls as that takes.
ghost use Rattle.std.specs.Prelude.{◌≡◌, ◌≢◌, ◌≤◌, length, true};
ghost use Rattle.tpf_base.specs.Links.{SameAllowed};
ghost use Rattle.tpf_base.specs.Sending.{FrontSent, SendsFrom, SendsEnd};

use crate::{Moved, Wire};

/// How calls on a link came to an end.
#[derive(Clone, Copy, Debug)]
pub enum Halt {
    /// All bytes were sent.
    Done,
    /// The last call moved nothing, and the stalls of the link rose.
    NotYet,
    /// The wire failed, and its count of faults rose.
    Failed,
    /// Out of memory. What was sent before is counted.
    OutOfMemory,
}

/// Sends what is left of the bytes on an open link, of which the first `sent` were sent before, until
/// all are sent or a call moves none. `sent` counts what was sent, unless the wire `Failed`: then more
/// of the bytes may have been sent than are counted. Nothing else is called.
pub fn send_rest<W: Wire>(wire: &mut W, link: u64, bytes: &[u8], sent: &mut usize) -> Halt
    requires is_open { ((W.state wire.old).links link).is_open ≡ true }
    requires within { sent.old ≤ length bytes.now }
    ensures sends { result ≢ Halt.Failed
        → SendsFrom link bytes.now sent.old sent.new (W.state wire.old) (W.state wire.new) }
    ensures still { result ≡ Halt.Done → sent.new ≡ sent.old → W.state wire.new ≡ W.state wire.old }
    ensures within { sent.new ≤ length bytes.now }
    ensures front { FrontSent link bytes.now sent.old (W.state wire.old) (W.state wire.new) }
    ensures end_ { SendsEnd result link bytes.now sent.new (W.state wire.old) (W.state wire.new) }
    ensures allowed { SameAllowed (W.allows wire.old) (W.allows wire.new) }
{
    let whole = bytes.len();
    while *sent < whole {
        match wire.send(link, &bytes[*sent..]) {
            Moved::Moved(n) => *sent += n,
            Moved::NotYet => return Halt::NotYet,
            Moved::OutOfMemory => return Halt::OutOfMemory,
            Moved::Failed => return Halt::Failed,
            Moved::End => return Halt::Failed,
        }
    }
    Halt::Done
}

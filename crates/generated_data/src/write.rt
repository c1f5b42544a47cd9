// The generated data, written to a sink.
ghost use Rattle.std.specs.Prelude.{◌≡◌, ◌≤◌, true, OnOk, OnErr, IsErrOf};
ghost use Rattle.std.specs.Io.KnownBytes.{Appends};
ghost use Rattle.tpf_base.specs.Causes.{Rose, DoesNotFail};
ghost use Rattle.tpf_base.specs.Wrote.{AppendsPrefix};
ghost use Rattle.rdf_terms.specs.Canon.{canon};
ghost use Rattle.generated_data.specs.Generated.{generated};

use crate::lines::add_person;
use std::alloc::Global;
use tpf_base::{Fault, Sink, write_all};

/// How many bytes are gathered before they are written.
const PIECE: usize = 65536;

/// Room for the lines about one person.
const ROOM: usize = 1024;

/// Writes the generated data of so many persons as N-Quads, in pieces of about 64 KiB.
///
/// Each person knows one other; every third has a name, and every tenth a city. Each quad is one
/// line in the canonical form of N-Triples, and no persons give no line.
///
/// Nothing is kept: the one buffer that the pieces share is made before the first is written.
/// At a fault a prefix of the text is written. `Failed` comes only where the sink's count of faults
/// rose in this call, and never over a faultless sink; `OutOfMemory` comes where memory runs out.
pub fn write_generated<K: Sink>(alloc: Global, persons: u32, out: &mut K) -> Result<(), Fault>
    ensures ok { OnOk result (Appends (K.state out.old).taken (K.state out.new).taken (canon (generated persons))) }
    ensures err { OnErr result
        (AppendsPrefix (K.state out.old).taken (K.state out.new).taken (canon (generated persons))) }
    ensures later { (K.state out.old).faults ≤ (K.state out.new).faults }
    ensures failed { IsErrOf result Fault.Failed → Rose (K.state out.old).faults (K.state out.new).faults }
    ensures faultless { (K.state out.new).faultless ≡ (K.state out.old).faultless }
    ensures spared { (K.state out.old).faultless ≡ true
        → DoesNotFail (K.state out.old).faults (K.state out.new).faults result }
{
    let Ok(mut piece) = Vec::with_capacity(alloc, PIECE + ROOM) else {
        return Err(Fault::OutOfMemory);
    };
    for person in 0..persons {
        let Ok(()) = add_person(&mut piece, persons, person) else {
            return Err(Fault::OutOfMemory);
        };
        if piece.len() >= PIECE {
            write_all(out, &piece)?;
            piece.clear();
        }
    }
    write_all(out, piece.as_slice())
}

// The door of a service.
ghost use Rattle.std.specs.Prelude.{◌≡◌, ◌≤◌, ◌⊎◌, codes, IfErr, OnOk};
ghost use Rattle.std.specs.Io.KnownBytes.{Appends};
ghost use Rattle.tpf_base.specs.Wrote.{AppendsPrefix};
ghost use Rattle.tpf_base.specs.Calls.{OnlyListens};
ghost use Rattle.data_files.specs.Kept.{KeepsSink};
ghost use Rattle.data_servers.specs.Servers.{serving};
ghost use Rattle.serve_command.specs.Services.{door_of, DoorCause, SayCause, SaysReady};

use crate::ServiceFault;
use fragment_server::FragmentServer;
use tpf_base::{Accept, Fault, Sink, write_all};

/// Opens the door at the host and the port of the base.
fn open_door<W: Accept>(server: &FragmentServer, wire: &mut W) -> Result<(), ServiceFault>
    ensures opened { OnOk result ((W.state wire.new).door.place ≡ door_of (serving server.now).config.base) }
    ensures place { ((W.state wire.new).door.place ≡ (W.state wire.old).door.place)
        ⊎ ((W.state wire.new).door.place ≡ door_of (serving server.now).config.base) }
    ensures only { OnlyListens (W.state wire.old) (W.state wire.new) }
    ensures calm { OnOk result ((W.state wire.new).door.faults ≡ (W.state wire.old).door.faults) }
    ensures door { (W.state wire.old).door.faults ≤ (W.state wire.new).door.faults }
    ensures err { IfErr result (DoorCause (W.state wire.old) (W.state wire.new) 0 0) }
{
    let base = server.server().config().base();
    match wire.listen(base.host(), base.port()) {
        Ok(()) => Ok(()),
        Err(Fault::Failed) => Err(ServiceFault::Wire),
        Err(Fault::OutOfMemory) => Err(ServiceFault::OutOfMemory),
    }
}

/// Writes `ready` and LF.
fn say_ready<K: Sink>(out: &mut K) -> Result<(), ServiceFault>
    ensures ready { OnOk result (Appends (K.state out.old).taken (K.state out.new).taken (codes "ready\n")) }
    ensures front { AppendsPrefix (K.state out.old).taken (K.state out.new).taken (codes "ready\n") }
    ensures err { IfErr result (SayCause (K.state out.old).faults (K.state out.new).faults) }
    ensures output { KeepsSink (K.state out.old) (K.state out.new) }
{
    match write_all(out, b"ready\n") {
        Ok(()) => Ok(()),
        Err(Fault::Failed) => Err(ServiceFault::Sink),
        Err(Fault::OutOfMemory) => Err(ServiceFault::OutOfMemory),
    }
}

/// Opens the door, and says so.
pub(crate) fn begin<W: Accept, K: Sink>(
    server: &FragmentServer,
    wire: &mut W,
    out: &mut K,
) -> Result<(), ServiceFault>
    ensures only { OnlyListens (W.state wire.old) (W.state wire.new) }
    ensures says { SaysReady (serving server.now).config.base
        (W.state wire.old) (W.state wire.new) (K.state out.old) (K.state out.new) result }
    ensures err { IfErr result (DoorCause (W.state wire.old) (W.state wire.new)
        (K.state out.old).faults (K.state out.new).faults) }
    ensures calm { OnOk result ((W.state wire.new).door.faults ≡ (W.state wire.old).door.faults) }
    ensures door { (W.state wire.old).door.faults ≤ (W.state wire.new).door.faults }
    ensures output { KeepsSink (K.state out.old) (K.state out.new) }
{
    if let Err(fault) = open_door(server, wire) {
        return Err(fault);
    }
    say_ready(out)
}

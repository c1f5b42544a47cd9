// A service: turns, and what follows each.
ghost use Rattle.std.specs.Prelude.{ℕ, ◌≡◌, ◌+◌, ◌-◌, ◌≤◌, ◌<◌, ◌^◌, IfOk, OnOk, IfErr, IfSome, None, Some, true, false, ◌↔◌};
ghost use Rattle.tpf_base.specs.Causes.{counted};
ghost use Rattle.tpf_base.specs.Links.{listens};
ghost use Rattle.serve_loop.specs.declared.live.TheConstants.{MOST_LIVE};
ghost use Rattle.serve_loop.specs.Traffic.{moment};
ghost use Rattle.serve_loop.specs.Held.{held, held_count, lives};
ghost use Rattle.serve_loop.specs.Relates.{SuitsWire};
ghost use Rattle.serve_loop.specs.Calls.{ServesAlone, RestsWire, served_with};
ghost use Rattle.serve_loop.specs.Sentence.{AllClosed, LeavesOlder, CarriesOn, ServesOn, SpeaksSince, SpeaksWholeSince};
ghost use Rattle.serve_loop.specs.Service.{ServesTurns, FailsTurns, FailsWait, RoseAtDoor};
ghost use Rattle.serve_loop.specs.Greets.{FollowsTurn, FailsAfter};
ghost use Rattle.serve_loop.specs.AskedTurns.{AsksOnce};

use crate::live::{ServeFault, Served, Turned};
use crate::round::Round;
use crate::turn::Loop;
use connections::{Converses, Supply};
use std::alloc::Global;
use std::sync::Wait;
use tpf_base::{Accept, Fault, Wire};

/// Waits until a link or the door may be ready.
fn rest<W: Wire>(wire: &mut W) -> Result<(), ServeFault>
    ensures only { RestsWire (W.state wire.old) (W.state wire.new) }
    ensures waits { (W.state wire.new).waits ≡ counted (W.state wire.old).waits }
    ensures fails { IfErr result (λ fault. FailsWait fault (W.state wire.old) (W.state wire.new)) }
    ensures calm { OnOk result ((W.state wire.new).door.faults ≡ (W.state wire.old).door.faults) }
{
    match wire.wait() {
        Ok(_) => Ok(()),
        Err(Fault::Failed) => Err(ServeFault::Wire),
        Err(Fault::OutOfMemory) => Err(ServeFault::OutOfMemory),
    }
}

/// Waits where the service rests; else accepts the links that wait at the door.
fn follow<C: Converses, W: Accept>(
    connections: &mut Loop<C>,
    server: &C::Server,
    wire: &mut W,
    rests: bool,
) -> Result<(), ServeFault>
    requires listens { listens (W.state wire.old) ≡ true }
    requires few { held_count connections.old ≤ MOST_LIVE }
    requires suits { SuitsWire C.Suits server.now (λ key. held connections.old key) (W.state wire.old) }
    ensures few { held_count connections.new ≤ MOST_LIVE }
    ensures suits { SuitsWire C.Suits server.now (λ key. held connections.new key) (W.state wire.new) }
    ensures follows { OnOk result (FollowsTurn C.kind rests
        (lives connections.old) (lives connections.new) (W.state wire.old) (W.state wire.new)) }
    ensures fails { IfErr result (λ fault. FailsAfter C.kind fault rests
        (lives connections.old) (lives connections.new) (W.state wire.old) (W.state wire.new)) }
    ensures calm { OnOk result ((W.state wire.new).door.faults ≡ (W.state wire.old).door.faults) }
    ensures wire { IfErr result (λ fault. fault ≡ ServeFault.Wire → RoseAtDoor (W.state wire.old) (W.state wire.new)) }
    ensures alone { ServesAlone (W.state wire.old) (W.state wire.new) }
{
    if rests {
        return rest(wire);
    }
    connections.greet(server, wire)
}

/// Whether so many connections are enough.
fn is_reached(stop_after: Option<u64>, connections: u64) -> bool
    ensures reached { result ≡ true → IfSome stop_after (λ most. most ≤ connections) }
    ensures some { result ≡ true → stop_after ≡ None → ⊥ }
    ensures fewer { result ≡ false → IfSome stop_after (λ most. connections < most) }
    ensures fits { IfSome stop_after (λ most. most < 2 ^ 64) }
{
    match stop_after {
        None => false,
        Some(most) => connections >= most,
    }
}

impl Served {
    /// With what one more turn ended.
    fn with(self, turned: Turned) -> Served
        ensures { result ≡ served_with self turned }
    {
        Served {
            connections: self.connections.saturating_add(turned.ended),
            starved: self.starved.saturating_add(turned.starved),
        }
    }
}

/// Takes turns until so many connections have ended, each over the next part of a round, with what follows it.
fn serve_on<R: Wait, C: Converses, S: Supply<C::Server>, W: Accept>(
    rt: &R,
    connections: &mut Loop<C>,
    server: &mut C::Server,
    supply: &mut S,
    wire: &mut W,
    stop_after: Option<u64>,
) -> Result<Served, ServeFault>
    requires listens { listens (W.state wire.old) ≡ true }
    requires empty { held_count connections.old ≡ 0 }
    requires none { (key : ℕ) → held connections.old key ≡ None }
    requires suits { SuitsWire C.Suits server.old (λ key. held connections.old key) (W.state wire.old) }
    ensures alone { ServesAlone (W.state wire.old) (W.state wire.new) }
    ensures suits { SuitsWire C.Suits server.new (λ key. held connections.new key) (W.state wire.new) }
    ensures carries { CarriesOn C.kind (S.may supply.old) (lives connections.old) (lives connections.new)
        (moment (C.Server.serving server.old) (S.state supply.old) (W.state wire.old))
        (moment (C.Server.serving server.new) (S.state supply.new) (W.state wire.new)) }
    ensures serves { IfOk result (ServesOn C.kind (S.may supply.old) (lives connections.old) (lives connections.new)
        (moment (C.Server.serving server.old) (S.state supply.old) (W.state wire.old))
        (moment (C.Server.serving server.new) (S.state supply.new) (W.state wire.new))) }
    ensures turns { IfOk result (λ served. ServesTurns C.kind (C.Server.serving server.old).config
        stop_after served.connections (W.state wire.old) (W.state wire.new)) }
    ensures fails { IfErr result (λ fault. FailsTurns C.kind (C.Server.serving server.old).config
        stop_after fault (W.state wire.old) (W.state wire.new)) }
    ensures asks { AsksOnce C.kind (S.may supply.old)
        (moment (C.Server.serving server.old) (S.state supply.old) (W.state wire.old))
        (moment (C.Server.serving server.new) (S.state supply.new) (W.state wire.new)) }
    ensures stops { IfOk result (λ served. IfSome stop_after (λ most. most ≤ served.connections)) }
    ensures first { IfOk result (λ served. IfSome stop_after (λ most. served.connections ≤ (most - 1) + MOST_LIVE)) }
    ensures never { OnOk result (stop_after ≡ None → ⊥) }
    ensures calm { OnOk result ((W.state wire.new).door.faults ≡ (W.state wire.old).door.faults) }
    ensures wire { IfErr result (λ fault. fault ≡ ServeFault.Wire → RoseAtDoor (W.state wire.old) (W.state wire.new)) }
    ensures follows { C.Server.Follows server.old server.new }
    ensures keeps { S.Keeps supply.old supply.new }
    ensures same { (data_set : C.Server.Data) → S.may supply.new data_set ↔ S.may supply.old data_set }
{
    let mut served = Served {
        connections: 0,
        starved: 0,
    };
    let mut round = Round::new();
    for _ in rt.forever() {
        let begun = connections.beyond();
        let part = connections.part_before(round.next, round.newest, round.spread, begun);
        let turned = connections.turn(part, server, supply, wire)?;
        served = served.with(turned);
        if is_reached(stop_after, served.connections) {
            return Ok(served);
        }
        follow(connections, server, wire, round.is_quiet(part, turned))?;
        round = round.after(part, turned, begun);
    }
    Ok(served)
}

/// Serves the links (the connections) that come to the door (the listener) of a wire, until at least
/// `stop_after` of them have ended, and for as long as it can where that is `None`. It goes round them: a
/// turn steps those of the next links in order whose numbers lie at most `SPREAD` from one another (twice
/// as far behind each turn in which nothing moved or ended), and those that were given since the turn
/// before the last one began. So a new link is stepped in the next turns, however many others there are,
/// and each other one once a round. Behind each turn it accepts the links that wait at the door, until
/// none does or `MOST_LIVE` are live; only behind a round in which nothing moved or ended it waits. At
/// each exit the links that are still live are closed. No link from before is touched, none is dialled,
/// and the door is not opened again. The counts of the answer stand still at their last value. The supply
/// is asked once for each reload request that waits in a turn, and for nothing else (`asks`).
///
/// `Wire` where an accept or a wait failed: the faults of the door rose. A link that fails ends its own
/// connection alone. `OutOfMemory` where memory ran out in one of them, or for the place of a new
/// connection; where it ran out for one connection alone, that one ends and is counted.
pub fn serve<R: Wait, C: Converses, S: Supply<C::Server>, W: Accept>(
    rt: &R,
    alloc: Global,
    server: &mut C::Server,
    supply: &mut S,
    wire: &mut W,
    stop_after: Option<u64>,
) -> Result<Served, ServeFault>
    requires listens { listens (W.state wire.old) ≡ true }
    ensures alone { ServesAlone (W.state wire.old) (W.state wire.new) }
    ensures older { LeavesOlder (W.state wire.old) (W.state wire.new) }
    ensures prefixes { SpeaksSince C.kind (S.may supply.old)
        (moment (C.Server.serving server.old) (S.state supply.old) (W.state wire.old))
        (moment (C.Server.serving server.new) (S.state supply.new) (W.state wire.new)) }
    ensures whole { IfOk result (SpeaksWholeSince C.kind (S.may supply.old)
        (moment (C.Server.serving server.old) (S.state supply.old) (W.state wire.old))
        (moment (C.Server.serving server.new) (S.state supply.new) (W.state wire.new))) }
    ensures closed { AllClosed (W.state wire.old) (W.state wire.new) }
    ensures turns { IfOk result (λ served. ServesTurns C.kind (C.Server.serving server.old).config
        stop_after served.connections (W.state wire.old) (W.state wire.new)) }
    ensures fails { IfErr result (λ fault. FailsTurns C.kind (C.Server.serving server.old).config
        stop_after fault (W.state wire.old) (W.state wire.new)) }
    ensures asks { AsksOnce C.kind (S.may supply.old)
        (moment (C.Server.serving server.old) (S.state supply.old) (W.state wire.old))
        (moment (C.Server.serving server.new) (S.state supply.new) (W.state wire.new)) }
    ensures stops { IfOk result (λ served. IfSome stop_after (λ most. most ≤ served.connections)) }
    ensures first { IfOk result (λ served. IfSome stop_after (λ most. served.connections ≤ (most - 1) + MOST_LIVE)) }
    ensures never { OnOk result (stop_after ≡ None → ⊥) }
    ensures links { IfOk result (λ served. (W.state wire.old).given + served.connections ≤ (W.state wire.new).given) }
    ensures calm { OnOk result ((W.state wire.new).door.faults ≡ (W.state wire.old).door.faults) }
    ensures wire { IfErr result (λ fault. fault ≡ ServeFault.Wire → RoseAtDoor (W.state wire.old) (W.state wire.new)) }
    ensures follows { C.Server.Follows server.old server.new }
    ensures keeps { S.Keeps supply.old supply.new }
    ensures same { (data_set : C.Server.Data) → S.may supply.new data_set ↔ S.may supply.old data_set }
{
    let mut connections: Loop<C> = Loop::new(alloc);
    let served = serve_on(rt, &mut connections, server, supply, wire, stop_after);
    connections.close(wire);
    served
}

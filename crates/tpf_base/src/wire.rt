// Links to other hosts.
ghost use Rattle.std.specs.Prelude.{ℕ, ◌≡◌, ◌<◌, List, length, IfOk, OnOk, OnErr, IfSome, IfNone, true};
ghost use Rattle.tpf_base.specs.Causes.{HasCause, Rose};
ghost use Rattle.tpf_base.specs.Links.{WireState, listens, IsToldBy, ReceivesOwed, SameAllowed, OwesAllowed, OpensGiven, IsLively};
ghost use Rattle.tpf_base.specs.Calls.{SameWire, Sends, Receives, Closes, GivesDialled, GivesAccepted, GivesNone, OnlyDials, DialsSteadily, OnlyListens, Opens, LeavesDoor, OnlyAccepts, ServesSteadily, OnlyWaits, Wakes, WaitsSteadily};

use crate::Fault;

/// Over a lively wire fewer waits than this follow one another with no byte moved between.
pub const MOST_IDLE: u64 = 1000;

/// What a send or a receive did.
#[derive(Clone, Copy, Debug, PartialEq, Eq)]
pub enum Moved {
    /// So many bytes were sent or received, at least one.
    Moved(usize),
    /// The other end sends no more. Only a receive answers it.
    End,
    /// Nothing moved, and the link's count of stalls rose.
    NotYet,
    /// The link failed, and the wire's count of faults rose.
    Failed,
    /// Out of memory. Nothing moved.
    OutOfMemory,
}

/// What may be ready.
#[derive(Clone, Copy, Debug, PartialEq, Eq)]
pub enum Ready {
    /// A link: bytes may move on it.
    Link(u64),
    /// The door, which is the listener: a connection may wait to be accepted.
    Door,
}

/// Connections, which are called links: each carries bytes to another host and back.
///
/// Links have the numbers 0, 1, 2 .. in the order in which they were given, so no number is given
/// twice. Counts never fall, and one that is kept as a u64 stops at 2^64 - 1.
///
/// A wire tells of its links counts alone, or also the bytes that were sent and received, or also
/// those that the other end owes. No call changes how much it tells.
pub trait Wire {
    /// What it holds.
    ghost state: { Self → WireState };

    /// Which bytes the other ends may owe: of a host, a port and what was sent there. No call
    /// changes it.
    ghost allows: { Self → List ℕ → ℕ → List ℕ → List ℕ → Type 0 };

    /// Sends a prefix of the piece on an open link, at least one byte.
    ///
    /// `NotYet` and `OutOfMemory` sent nothing. `Failed` may have sent a prefix. `End` never comes.
    fn send(&mut self, link: u64, piece: &[u8]) -> Moved
        requires is_open { ((state self.old).links link).is_open ≡ true }
        requires some { 0 < length piece.now }
        ensures sends { Sends link piece.now (state self.old) (state self.new) result }
        ensures allowed { SameAllowed (allows self.old) (allows self.new) };

    /// Receives the next bytes of an open link into the beginning of the buffer.
    ///
    /// `End` says that no more come; where the wire tells what is owed and a part of it was not
    /// received, that is a fault. `NotYet`, `Failed` and `OutOfMemory` received nothing.
    fn recv(&mut self, link: u64, to: &mut [u8]) -> Moved
        requires is_open { ((state self.old).links link).is_open ≡ true }
        requires room { 0 < length to.old }
        ensures receives { Receives link to.new (state self.old) (state self.new) result }
        ensures allowed { SameAllowed (allows self.old) (allows self.new) };

    /// Closes an open link. Nothing moves on it from then on.
    fn close(&mut self, link: u64)
        requires is_open { ((state self.old).links link).is_open ≡ true }
        ensures closes { Closes link (state self.old) (state self.new) }
        ensures allowed { SameAllowed (allows self.old) (allows self.new) };

    /// Waits until an open link or the door may be ready, and says which.
    ///
    /// `Failed` where the time for it is over, or nothing can become ready: a fault of the door. After an
    /// error each link is as before.
    fn wait(&mut self) -> Result<Ready, Fault>
        ensures ok { IfOk result (λ answer. Wakes answer (state self.old) (state self.new)) }
        ensures err { OnErr result (GivesNone (state self.old) (state self.new)) }
        ensures only { OnlyWaits (state self.old) (state self.new) }
        ensures cause { HasCause (state self.old).faults (state self.new).faults result }
        ensures door { HasCause (state self.old).door.faults (state self.new).door.faults result }
        ensures steady { (state self.old).nature.steady ≡ true
            → WaitsSteadily (state self.old) (state self.new) result }
        ensures allowed { SameAllowed (allows self.old) (allows self.new) };

    /// Takes what is known of readiness without waiting, so that a link or the door that became ready
    /// is served in the next calls. Nothing that is told changes.
    fn look(&mut self)
        ensures same { SameWire (state self.old) (state self.new) }
        ensures allowed { SameAllowed (allows self.old) (allows self.new) };

    /// How many waits succeeded, one after another, since a byte last moved, a receive answered
    /// `End`, or a link was given.
    fn idle(&self) -> u64
        ensures { result ≡ (state self.now).idle };

    /// It tells of each link, given or not, as much as it says.
    ghost told: { (wire : Self) (k : ℕ) → IsToldBy (state wire).nature.tells ((state wire).links k) };

    /// No link is open but those that were given.
    ghost given_alone: { (wire : Self) → OpensGiven (state wire) };

    /// What was received is always the front of what is owed.
    ghost received_is_owed: { (wire : Self) (k : ℕ) → ReceivesOwed ((state wire).links k) };

    /// What a dialled link owes is allowed.
    ghost owed_is_allowed: { (wire : Self) (k : ℕ) → OwesAllowed (allows wire) ((state wire).links k) };

    /// Over a lively wire fewer than `MOST_IDLE` waits follow one another.
    ghost is_lively: { (wire : Self) → IsLively (state wire) };
}

/// A wire that opens links to other hosts.
pub trait Dial: Wire {
    /// Opens a link to a host at a port, and gives its number.
    ///
    /// `Failed` where the host is not there, or no number is left. Each call counts, and after an
    /// error no link was given.
    fn dial(&mut self, host: &str, port: u16) -> Result<u64, Fault>
        ensures ok { IfOk result (λ number.
            GivesDialled host.now port number (Self.state self.old) (Self.state self.new)) }
        ensures err { OnErr result (GivesNone (Self.state self.old) (Self.state self.new)) }
        ensures only { OnlyDials (Self.state self.old) (Self.state self.new) }
        ensures cause { HasCause (Self.state self.old).faults (Self.state self.new).faults result }
        ensures steady { (Self.state self.old).nature.steady ≡ true
            → DialsSteadily (Self.state self.old) (Self.state self.new) result }
        ensures allowed { SameAllowed (Self.allows self.old) (Self.allows self.new) };
}

/// A wire to which other hosts open links.
pub trait Accept: Wire {
    /// Opens the door, which is the listener, at a host and a port of this machine.
    ///
    /// `Failed` where it can't be opened, which is a fault of the door. Each call counts, and after an
    /// error the door is where it was.
    fn listen(&mut self, host: &str, port: u16) -> Result<(), Fault>
        ensures ok { OnOk result (Opens host.now port (Self.state self.old) (Self.state self.new)) }
        ensures err { OnErr result (LeavesDoor (Self.state self.old) (Self.state self.new)) }
        ensures only { OnlyListens (Self.state self.old) (Self.state self.new) }
        ensures cause { HasCause (Self.state self.old).faults (Self.state self.new).faults result }
        ensures door { HasCause (Self.state self.old).door.faults (Self.state self.new).door.faults result }
        ensures steady { (Self.state self.old).nature.steady ≡ true
            → ServesSteadily (Self.state self.old) (Self.state self.new) result }
        ensures allowed { SameAllowed (Self.allows self.old) (Self.allows self.new) };

    /// Accepts a connection that waits at the door and gives its number, or `None` where none waits.
    ///
    /// `Failed` where that can't be found out, or no number is left, which is a fault of the door. After
    /// an error no link was given.
    fn accept(&mut self) -> Result<Option<u64>, Fault>
        requires { listens (Self.state self.old) ≡ true }
        ensures given { IfOk result (λ link. IfSome link (λ number.
            GivesAccepted number (Self.state self.old) (Self.state self.new))) }
        ensures none { IfOk result (λ link. IfNone link (GivesNone (Self.state self.old) (Self.state self.new))) }
        ensures stalled { IfOk result (λ link. IfNone link
            (Rose (Self.state self.old).door.stalls (Self.state self.new).door.stalls)) }
        ensures err { OnErr result (GivesNone (Self.state self.old) (Self.state self.new)) }
        ensures only { OnlyAccepts (Self.state self.old) (Self.state self.new) }
        ensures cause { HasCause (Self.state self.old).faults (Self.state self.new).faults result }
        ensures door { HasCause (Self.state self.old).door.faults (Self.state self.new).door.faults result }
        ensures steady { (Self.state self.old).nature.steady ≡ true
            → ServesSteadily (Self.state self.old) (Self.state self.new) result }
        ensures allowed { SameAllowed (Self.allows self.old) (Self.allows self.new) };
}

// One connection of a server, of any kind.
ghost use Rattle.std.specs.Prelude.{◌≡◌, ◌≤◌, true, false, length, OnOk};
ghost use Rattle.connections.specs.Kinds.{Kind, Opens, Feeds, Fills, Takes, Reloads, IsOutcome, Grows, BeginsResponse, IsWhole};

use crate::{Reloaded, Serves};
use std::alloc::Global;
use tpf_base::OutOfMemory;

/// A connection: from the bytes that come to those of the response.
///
/// After `OutOfMemory` nothing is promised of it: it can only be closed.
pub trait Converses: Drop {
    /// The server that answers.
    type Server: Serves;

    /// What its bytes mean.
    ghost kind: { Kind Self Self.Server.Data Self.Server.Settings };

    /// What it owes can be made with the server.
    ghost Suits: { Self.Server → Self → Type 0 };

    /// A connection on which no byte came. It takes no memory.
    fn new(alloc: Global) -> Self
        ensures opens { Opens kind result }
        ensures suits { (server : Self.Server) → Suits server result };

    /// Takes the next bytes of the connection, and reads the heads that stand whole, up to the first
    /// that closes or asks for a reload.
    fn feed(&mut self, server: &Self::Server, piece: &[u8]) -> Result<(), OutOfMemory>
        requires suits { Suits server.now self.old }
        requires idle { kind.wants self.old ≡ false }
        ensures feeds { OnOk result (Feeds kind (Self.Server.serving server.now) piece.now self.old self.new) }
        ensures suits { OnOk result (Suits server.now self.new) };

    /// Makes further bytes of the response behind those that are pending, until at least
    /// `ENOUGH_PENDING` are or nothing is owed.
    fn fill(&mut self, server: &Self::Server) -> Result<(), OutOfMemory>
        requires suits { Suits server.now self.old }
        ensures fills { OnOk result (Fills kind (Self.Server.serving server.now) self.old self.new) }
        ensures suits { OnOk result (Suits server.now self.new) };

    /// Whether bytes of the response are still to be made.
    fn owes(&self) -> bool
        ensures { result ≡ kind.owes self.now };

    /// The bytes of the response that are made and not taken.
    fn pending(&self) -> &[u8]
        ensures { result.now ≡ kind.pending self.now };

    /// Takes the first `n` of the pending bytes, which were sent.
    fn take(&mut self, n: usize)
        requires { n ≤ length (kind.pending self.old) }
        ensures takes { Takes kind n self.old self.new }
        ensures suits { (server : Self.Server) → Suits server self.old → Suits server self.new };

    /// Whether an answer with which the connection ends was given.
    fn closing(&self) -> bool
        ensures { result ≡ kind.closing self.now };

    /// Whether the first head that is not read asks for a reload.
    fn wants_reload(&self) -> bool
        ensures { result ≡ kind.wants self.now };

    /// Answers the request for a reload by how that came out, and reads the heads behind it.
    fn reloaded(&mut self, server: &Self::Server, outcome: Reloaded) -> Result<(), OutOfMemory>
        requires suits { Suits server.now self.old }
        requires wants { kind.wants self.old ≡ true }
        requires outcome { IsOutcome (Self.Server.serving server.now) outcome }
        ensures reloads { OnOk result (Reloads kind (Self.Server.serving server.now) outcome self.old self.new) }
        ensures suits { OnOk result (Suits server.now self.new) };

    /// What suits a server suits it after reloads.
    ghost stays: { (old new : Self.Server) (c : Self) → Self.Server.Follows old new → Suits old c → Suits new c };

    /// What it answers is the same over a longer history.
    ghost grows: { Grows kind };

    /// What was taken and a front of what is pending is a front of the response to what was fed and to
    /// any bytes behind it.
    ghost begins: { BeginsResponse kind };

    /// Where nothing is owed or pending and no reload waits, what was taken is the whole response.
    ghost whole: { IsWhole kind };

    /// A connection that closes waits for no reload.
    ghost closing_waits: { (c : Self) → kind.closing c ≡ true → kind.wants c ≡ false };
}

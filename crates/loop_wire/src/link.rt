// A link and its connection.
ghost use Rattle.std.specs.Prelude.{◌≡◌, ◌≢◌, ◌<◌, ◌≤◌, length, true, Some, None};
ghost use Rattle.loop_wire.specs.Held.{closed, Hears, Gives, IsKept};

use crate::held::{HeldLink, Side};
use crate::{RespondsAt, talk};
use tpf_base::Moved;

/// A link and the connection behind it: none where the link is closed, or where the connection ran out
/// of memory.
#[derive(Drop)]
pub struct LoopLink<C> {
    pub held: HeldLink,
    pub connection: Option<C>,
}

/// Sends these bytes to a link's connection, unless the call is to stall.
fn send_to<C: RespondsAt>(
    connection: &mut C,
    held: &mut HeldLink,
    server: &C::Server,
    stalls: bool,
    front: &[u8],
) -> Moved
    requires kept { IsKept C.kind (C.Suits server.now) (C.Server.serving server.now)
        (C.response_at (C.Server.serving server.now)) held.old (Some connection.old) }
    requires is_open { held.old.is_open ≡ true }
    ensures kept { result ≢ Moved.OutOfMemory → IsKept C.kind (C.Suits server.now) (C.Server.serving server.now)
        (C.response_at (C.Server.serving server.now)) held.new (Some connection.new) }
    ensures hears { Hears stalls front.now held.old held.new result }
{
    if stalls {
        held.stall(Side::Sending, true);
        return Moved::NotYet;
    }
    if talk::feed(connection, server, front).is_err() {
        return Moved::OutOfMemory;
    }
    if held.send(front).is_err() {
        return Moved::OutOfMemory;
    }
    Moved::Moved(front.len())
}

/// Receives at most so many bytes from a link's connection, unless the call is to stall.
fn receive_from<C: RespondsAt>(
    connection: &mut C,
    held: &mut HeldLink,
    server: &C::Server,
    stalls: bool,
    most: usize,
    to: &mut [u8],
) -> Moved
    requires kept { IsKept C.kind (C.Suits server.now) (C.Server.serving server.now)
        (C.response_at (C.Server.serving server.now)) held.old (Some connection.old) }
    requires version { 1 ≤ (C.Server.serving server.now).version }
    requires is_open { held.old.is_open ≡ true }
    requires most { 0 < most }
    requires room { 0 < length to.old }
    ensures kept { result ≢ Moved.OutOfMemory → IsKept C.kind (C.Suits server.now) (C.Server.serving server.now)
        (C.response_at (C.Server.serving server.now)) held.new (Some connection.new) }
    ensures gives { Gives (C.response_at (C.Server.serving server.now)) most stalls to.new held.old held.new result }
{
    if talk::prepare(connection, server).is_err() {
        return Moved::OutOfMemory;
    }
    if connection.pending().is_empty() {
        return held.receive_nothing(connection.closing());
    }
    if stalls {
        held.stall(Side::Receiving, true);
        return Moved::NotYet;
    }
    let n = talk::hand_out(connection, most, to);
    if held.receive(n).is_err() {
        return Moved::OutOfMemory;
    }
    Moved::Moved(n)
}

impl<C: RespondsAt> LoopLink<C> {
    /// Sends these bytes, unless the call is to stall. A connection that runs out of memory is given
    /// up, and nothing is told of it.
    pub fn send(&mut self, server: &C::Server, stalls: bool, front: &[u8]) -> Moved
        requires kept { IsKept C.kind (C.Suits server.now) (C.Server.serving server.now)
            (C.response_at (C.Server.serving server.now)) self.old.held self.old.connection }
        requires is_open { self.old.held.is_open ≡ true }
        ensures kept { IsKept C.kind (C.Suits server.now) (C.Server.serving server.now)
            (C.response_at (C.Server.serving server.now)) self.new.held self.new.connection }
        ensures hears { Hears stalls front.now self.old.held self.new.held result }
        ensures gone { self.old.connection ≡ None → (result ≡ Moved.OutOfMemory) × (self.new.connection ≡ None) }
    {
        let Some(connection) = &mut self.connection else {
            return Moved::OutOfMemory;
        };
        let moved = send_to(connection, &mut self.held, server, stalls, front);
        match moved {
            Moved::OutOfMemory => {
                self.connection = None;
                moved
            }
            _ => moved,
        }
    }

    /// Receives at most so many bytes of the response into the start of the buffer, unless the call
    /// is to stall. A connection that runs out of memory is given up, and nothing is told of it.
    pub fn receive(&mut self, server: &C::Server, stalls: bool, most: usize, to: &mut [u8]) -> Moved
        requires kept { IsKept C.kind (C.Suits server.now) (C.Server.serving server.now)
            (C.response_at (C.Server.serving server.now)) self.old.held self.old.connection }
        requires version { 1 ≤ (C.Server.serving server.now).version }
        requires is_open { self.old.held.is_open ≡ true }
        requires most { 0 < most }
        requires room { 0 < length to.old }
        ensures kept { IsKept C.kind (C.Suits server.now) (C.Server.serving server.now)
            (C.response_at (C.Server.serving server.now)) self.new.held self.new.connection }
        ensures gives { Gives (C.response_at (C.Server.serving server.now)) most stalls to.new
            self.old.held self.new.held result }
        ensures gone { self.old.connection ≡ None → (result ≡ Moved.OutOfMemory) × (self.new.connection ≡ None) }
    {
        let Some(connection) = &mut self.connection else {
            return Moved::OutOfMemory;
        };
        let moved = receive_from(connection, &mut self.held, server, stalls, most, to);
        match moved {
            Moved::OutOfMemory => {
                self.connection = None;
                moved
            }
            _ => moved,
        }
    }

    /// Nothing moves on it from now on. Its connection goes.
    pub fn close(&mut self)
        ensures held { self.new.held ≡ closed self.old.held }
        ensures connection { self.new.connection ≡ None }
    {
        self.held.close();
        self.connection = None;
    }
}

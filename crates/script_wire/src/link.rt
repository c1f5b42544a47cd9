// One link, and where in its script it stands.
ghost use Rattle.std.specs.Prelude.{ℕ, ◌≡◌, ◌≢◌, ◌+◌, ◌^◌, ◌<◌, ◌≤◌, ◌==◌, ◌++◌, not, [], length, take, drop, min, get_or, None, true, false, OnOk, OnErr};
ghost use Rattle.tpf_base.specs.Failures.{room};
ghost use Rattle.script_wire.specs.Scripts.{Scripted, new_link, settled, stalled_at, closed, answer_of, rest_at, room_at, is_over, is_held, taken_piece, answer_to_receive, after_receive, can_move};
ghost use Rattle.script_wire.specs.Peers.{peer_of, way_of, stalled_of};

use crate::Script;
use std::alloc::Global;
use std::marker::Model;
use tpf_base::{Failures, Moved, OutOfMemory, Text};

/// The host and the port for which a link was dialled.
#[derive(Drop)]
pub struct Peer {
    pub host: Text,
    pub port: u16,
}

/// What a call on a link does with bytes.
#[derive(Clone, Copy)]
pub enum Side {
    Sending,
    Receiving,
}

/// A link that was given. Contracts see what is told of it, and where in its script it stands.
#[derive(Drop)]
pub struct ScriptLink {
    peer: Option<Peer>,
    sent: Vec<u8>,
    received: Vec<u8>,
    stalls: u64,
    stalled: Option<Side>,
    woken: bool,
    ended: bool,
    is_open: bool,
    piece: usize,
    at: usize,
    waited: bool,
}

impl Model for ScriptLink {
    ghost Value = { Scripted };

    ghost view = { λ l. record {
      peer = peer_of l.peer;
      sent = l.sent.items;
      received = l.received.items;
      stalls = l.stalls;
      stalled = stalled_of l.stalled;
      woken = l.woken;
      ended = l.ended;
      is_open = l.is_open;
      place = record { piece = l.piece; at = l.at; waited = l.waited };
    } };
}

/// The bytes that are left of the piece with this number, behind so many.
fn rest_of(script: &Script, piece: usize, at: usize) -> &[u8]
    ensures value { result.now ≡ drop at (get_or script.now.pieces.items piece []) }
    ensures fits { at + length result.now < 2 ^ 64 }
{
    if piece >= script.pieces.len() {
        return &[];
    }
    let bytes = script.pieces[piece].as_slice();
    if at >= bytes.len() {
        return &[];
    }
    &bytes[at..]
}

impl ScriptLink {
    /// A link that was just given. It takes no memory.
    pub fn new(alloc: Global, peer: Option<Peer>) -> ScriptLink
        ensures { result ≡ new_link (peer_of peer) }
    {
        ScriptLink {
            peer,
            sent: Vec::new(alloc),
            received: Vec::new(alloc),
            stalls: 0,
            stalled: None,
            woken: false,
            ended: false,
            is_open: true,
            piece: 0,
            at: 0,
            waited: false,
        }
    }

    /// The bytes sent.
    pub fn sent(&self) -> &[u8]
        ensures { result.now ≡ self.now.sent }
    {
        self.sent.as_slice()
    }

    /// Whether a byte was sent.
    pub fn has_spoken(&self) -> bool
        ensures { result ≡ not (length self.now.sent == 0) }
    {
        !self.sent.is_empty()
    }

    /// The last call did not stall.
    pub fn settle(&mut self)
        ensures { self.new ≡ settled self.old }
    {
        self.stalled = None;
        self.woken = false;
    }

    /// The last call stalled.
    pub fn stall(&mut self, side: Side)
        ensures stalled { self.new ≡ stalled_at (way_of side) self.old }
        ensures later { self.old.stalls ≤ self.new.stalls }
    {
        self.stalls = self.stalls.saturating_add(1);
        self.stalled = Some(side);
        self.woken = false;
    }

    /// A wait answered the link.
    pub fn wake(&mut self)
        ensures { self.new ≡ record self.old { woken = true } }
    {
        self.woken = true;
    }

    /// Nothing moves on it from now on.
    pub fn close(&mut self)
        ensures { self.new ≡ closed self.old }
    {
        self.settle();
        self.is_open = false;
    }

    /// Sends these bytes.
    pub fn send(&mut self, front: &[u8]) -> Result<(), OutOfMemory>
        ensures ok { OnOk result (self.new
            ≡ record self.old { sent = self.old.sent ++ front.now; stalled = None; woken = false }) }
        ensures err { OnErr result (self.new ≡ self.old) }
    {
        self.sent.extend_from_slice(front)?;
        self.settle();
        Ok(())
    }

    /// Whether every piece came whole.
    fn is_over(&self, script: &Script) -> bool
        ensures { result ≡ is_over script.now self.now.place }
    {
        self.piece >= script.pieces.len()
    }

    /// Whether the next piece is the first one and still held, where so many links have had a byte
    /// sent.
    fn is_held(&self, script: &Script, spoken: u64) -> bool
        ensures { result ≡ is_held script.now spoken self.now.place }
    {
        self.piece == 0 && spoken < script.after
    }

    /// Whether a receive may give something once it waited, where so many links have had a byte
    /// sent.
    pub fn can_move(&self, script: &Script, spoken: u64) -> bool
        ensures { result ≡ can_move script.now spoken self.now }
    {
        if self.is_over(script) {
            self.is_open && script.ends && !self.ended
        } else {
            self.is_open && !self.is_held(script, spoken)
        }
    }

    /// Takes the front of the bytes that are left of the next piece, as many as there is room for.
    fn take_piece(
        &mut self,
        script: &Script,
        failures: &Failures,
        moved: u64,
        to: &mut [u8],
    ) -> Moved
        requires next { is_over script.now self.old.place ≡ false }
        requires some { (there : ℕ) → 0 < there → 0 < room failures.now.failing moved there }
        ensures answer { result ≢ Moved.OutOfMemory → result
            ≡ answer_of (room_at failures.now.failing moved script.now (length to.old) self.old.place) }
        ensures taken { result ≢ Moved.OutOfMemory → self.new ≡ taken_piece script.now
            (room_at failures.now.failing moved script.now (length to.old) self.old.place) self.old }
        ensures later { self.old.stalls ≤ self.new.stalls }
        ensures memory { result ≡ Moved.OutOfMemory → self.new ≡ self.old }
        ensures bytes { (n : ℕ) → result ≡ Moved.Moved n → (n ≤ length to.new) × (take n to.new
            ≡ take n (rest_at script.now self.old.place)) }
    {
        let rest = rest_of(script, self.piece, self.at);
        let n = failures.room(moved, to.len().min(rest.len()));
        if self.received.extend_from_slice(&rest[..n]).is_err() {
            return Moved::OutOfMemory;
        }
        to[..n].copy_from_slice(&rest[..n]);
        if n == rest.len() {
            self.piece += 1;
            self.at = 0;
            self.waited = false;
        } else {
            self.at += n;
        }
        if n == 0 {
            self.stall(Side::Receiving);
            return Moved::NotYet;
        }
        self.settle();
        Moved::Moved(n)
    }

    /// What a receive that is not failed does, where so many links have had a byte sent.
    pub fn receive(
        &mut self,
        script: &Script,
        spoken: u64,
        failures: &Failures,
        moved: u64,
        to: &mut [u8],
    ) -> Moved
        requires some { (there : ℕ) → 0 < there → 0 < room failures.now.failing moved there }
        ensures answer { result ≢ Moved.OutOfMemory → result ≡ answer_to_receive script.now spoken
            (room_at failures.now.failing moved script.now (length to.old) self.old.place) self.old.place }
        ensures after { result ≢ Moved.OutOfMemory → self.new ≡ after_receive script.now spoken
            (room_at failures.now.failing moved script.now (length to.old) self.old.place) self.old }
        ensures never { result ≢ Moved.Failed }
        ensures later { self.old.stalls ≤ self.new.stalls }
        ensures memory { result ≡ Moved.OutOfMemory → self.new ≡ self.old }
        ensures bytes { (n : ℕ) → result ≡ Moved.Moved n → (0 < n) × (n ≤ length to.new) × (take n to.new
            ≡ take n (rest_at script.now self.old.place)) }
    {
        if self.is_over(script) {
            if script.ends {
                self.ended = true;
                self.settle();
                return Moved::End;
            }
            self.stall(Side::Receiving);
            return Moved::NotYet;
        }
        if self.waited && !self.is_held(script, spoken) {
            return self.take_piece(script, failures, moved, to);
        }
        self.waited = true;
        self.stall(Side::Receiving);
        Moved::NotYet
    }
}

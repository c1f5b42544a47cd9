// What the wire holds of a link beside its connection.
ghost use Rattle.std.specs.Prelude.{◌≡◌, ◌≤◌, Some, None, true, false, OnOk, OnErr, if◌then◌else◌};
ghost use Rattle.tpf_base.specs.Links.{Receiving};
ghost use Rattle.loop_wire.specs.Held.{Held, new_link, settled, stalled_at, sent_more, received_more, ended_now, closed, woken_now};
ghost use Rattle.loop_wire.specs.Sides.{way_of, stalled_of};

use std::alloc::Global;
use std::marker::Model;
use tpf_base::{Moved, OutOfMemory, Text};

/// What a call on a link does with bytes.
#[derive(Clone, Copy)]
pub enum Side {
    Sending,
    Receiving,
}

/// What is held of a link. The bytes that were received are no part of it: they are a prefix of the
/// response to those that were sent.
pub struct HeldLink {
    host: Text,
    port: u16,
    sent: Vec<u8>,
    received: usize,
    stalls: u64,
    stalled: Option<Side>,
    ripe: bool,
    woken: bool,
    ended: bool,
    is_open: bool,
}

// Written out, so that who drops one calls this, and does not take it apart at each exit.
impl Drop for HeldLink {
    fn drop(self) {
        let HeldLink {
            host: _host,
            port: _port,
            sent: _sent,
            received: _received,
            stalls: _stalls,
            stalled: _stalled,
            ripe: _ripe,
            woken: _woken,
            ended: _ended,
            is_open: _is_open,
        } = self;
    }
}

impl Model for HeldLink {
    ghost Value = { Held };

    ghost view = { λ l. record {
      peer = Some (l.host, l.port);
      sent = l.sent.items;
      received = l.received;
      stalls = l.stalls;
      stalled = stalled_of l.stalled;
      ripe = l.ripe;
      woken = l.woken;
      ended = l.ended;
      is_open = l.is_open;
    } };
}

impl HeldLink {
    /// A link that was just given. It takes no memory.
    pub fn new(alloc: Global, host: Text, port: u16) -> HeldLink
        ensures { result ≡ new_link (Some (host, port)) }
    {
        HeldLink {
            host,
            port,
            sent: Vec::new(alloc),
            received: 0,
            stalls: 0,
            stalled: None,
            ripe: false,
            woken: false,
            ended: false,
            is_open: true,
        }
    }

    /// The host and the port for which it was dialled.
    pub fn peer(&self) -> (&str, u16)
        ensures { self.now.peer ≡ Some (result.0.now, result.1) }
    {
        (self.host.as_str(), self.port)
    }

    /// The bytes sent.
    pub fn sent(&self) -> &[u8]
        ensures { result.now ≡ self.now.sent }
    {
        self.sent.as_slice()
    }

    /// Whether a wait answered the link and no call on it was made since.
    pub fn is_woken(&self) -> bool
        ensures { result ≡ self.now.woken }
    {
        self.woken
    }

    /// Whether its last call stalled and a byte may move now.
    pub fn is_ripe(&self) -> bool
        ensures { result ≡ self.now.ripe }
    {
        self.ripe
    }

    /// The last call did not stall.
    pub fn settle(&mut self)
        ensures { self.new ≡ settled self.old }
    {
        self.stalled = None;
        self.ripe = false;
        self.woken = false;
    }

    /// The last call stalled. A byte may move, or may not.
    pub fn stall(&mut self, side: Side, ripe: bool)
        ensures stalled { self.new ≡ stalled_at (way_of side) ripe self.old }
        ensures later { self.old.stalls ≤ self.new.stalls }
    {
        self.stalls = self.stalls.saturating_add(1);
        self.stalled = Some(side);
        self.ripe = ripe;
        self.woken = false;
    }

    /// A wait answered the link.
    pub fn wake(&mut self)
        ensures { self.new ≡ woken_now self.old }
    {
        self.woken = true;
    }

    /// These bytes were sent.
    pub fn send(&mut self, front: &[u8]) -> Result<(), OutOfMemory>
        ensures ok { OnOk result (self.new ≡ sent_more front.now self.old) }
        ensures err { OnErr result (self.new ≡ self.old) }
    {
        self.sent.extend_from_slice(front)?;
        self.settle();
        Ok(())
    }

    /// So many bytes were received. Out of memory where their number is past the last one.
    pub fn receive(&mut self, n: usize) -> Result<(), OutOfMemory>
        ensures ok { OnOk result (self.new ≡ received_more n self.old) }
        ensures err { OnErr result (self.new ≡ self.old) }
    {
        let Some(received) = self.received.checked_add(n) else {
            return Err(OutOfMemory);
        };
        self.received = received;
        self.settle();
        Ok(())
    }

    /// The other end sends no more.
    pub fn end(&mut self)
        ensures { self.new ≡ ended_now self.old }
    {
        self.settle();
        self.ended = true;
    }

    /// Nothing is there to be received: the end, or a stall.
    pub fn receive_nothing(&mut self, ends: bool) -> Moved
        ensures result { result ≡ (if ends then Moved.End else Moved.NotYet) }
        ensures left { self.new ≡ (if ends then ended_now self.old else stalled_at Receiving false self.old) }
        ensures later { self.old.stalls ≤ self.new.stalls }
    {
        if ends {
            self.end();
            return Moved::End;
        }
        self.stall(Side::Receiving, false);
        Moved::NotYet
    }

    /// Nothing moves on it from now on.
    pub fn close(&mut self)
        ensures { self.new ≡ closed self.old }
    {
        self.settle();
        self.is_open = false;
    }
}

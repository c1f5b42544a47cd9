// The door of a wire of scripts.
ghost use Rattle.std.specs.Prelude.{◌≡◌, ◌≤◌, Some, is_some, if◌then◌else◌};
ghost use Rattle.tpf_base.specs.Causes.{counted};
ghost use Rattle.tpf_base.specs.Links.{Door, closed_door};
ghost use Rattle.script_wire.specs.Peers.{peer_of};

use crate::link::Peer;
use std::marker::Model;

/// The door, which is the listener. Contracts see what is told of it; its counts stop at 2^64 - 1.
#[derive(Drop)]
pub struct ScriptDoor {
    place: Option<Peer>,
    stalls: u64,
    faults: u64,
    calls: u64,
}

impl Model for ScriptDoor {
    ghost Value = { Door };

    ghost view = { λ d. record { place = peer_of d.place; stalls = d.stalls; faults = d.faults; calls = d.calls } };
}

impl ScriptDoor {
    /// A door that was never opened.
    pub fn new() -> ScriptDoor
        ensures { result ≡ closed_door }
    {
        ScriptDoor {
            place: None,
            stalls: 0,
            faults: 0,
            calls: 0,
        }
    }

    /// Whether it is open.
    pub fn is_open(&self) -> bool
        ensures { result ≡ is_some self.now.place }
    {
        self.place.is_some()
    }

    /// Counts a call that is to open it.
    pub fn count_call(&mut self)
        ensures { self.new ≡ record self.old { calls = counted self.old.calls } }
    {
        self.calls = self.calls.saturating_add(1);
    }

    /// Opens it at a place. Where it was closed, it was not yet found empty.
    pub fn open(&mut self, place: Peer)
        ensures { self.new ≡ record self.old {
          place = Some (place.host, place.port);
          stalls = if is_some self.old.place then self.old.stalls else 0;
        } }
    {
        if self.place.is_none() {
            self.stalls = 0;
        }
        self.place = Some(place);
    }

    /// Counts that no connection waited.
    pub fn stall(&mut self)
        ensures stalls { self.new ≡ record self.old { stalls = counted self.old.stalls } }
        ensures later { self.old.stalls ≤ self.new.stalls }
    {
        self.stalls = self.stalls.saturating_add(1);
    }

    /// Counts a fault.
    pub fn fail(&mut self)
        ensures fault { self.new ≡ record self.old { faults = counted self.old.faults } }
        ensures later { self.old.faults ≤ self.new.faults }
    {
        self.faults = self.faults.saturating_add(1);
    }
}

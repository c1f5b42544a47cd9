// A wire that gives no link.
ghost use Rattle.std.specs.Prelude.{◌≡◌, ◌≤◌, Err};
ghost use Rattle.tpf_base.specs.Causes.{HasCause, counted};
ghost use Rattle.memory_outside.specs.Unlinked.{Attempts, unlinked, no_attempts, door_failed};
ghost use Rattle.tpf_base.specs.Calls.{Sends, Receives, OnlyWaits, OnlyDials, OnlyListens, OnlyAccepts};

use std::marker::Model;
use tpf_base::{Accept, Dial, Fault, Moved, Ready, Wire};

/// A wire that gives no link: no connection is opened or accepted. Contracts see it as the counts of
/// its faults, those of the door among them, its dials, its waits and its listens, each of which stops
/// at 2^64 - 1.
///
/// `send`, `recv`, `dial`, `listen`, `accept` and `wait` answer `Failed`, and each such call counts.
#[derive(Drop)]
pub struct NoWire {
    faults: u64,
    door_faults: u64,
    dials: u64,
    waits: u64,
    listens: u64,
}

impl Model for NoWire {
    ghost Value = { Attempts };

    ghost view = { λ wire. record {
      faults = wire.faults;
      door_faults = wire.door_faults;
      dials = wire.dials;
      waits = wire.waits;
      listens = wire.listens;
    } };
}

impl NoWire {
    /// A wire that has not failed yet.
    pub fn new() -> NoWire
        ensures { result ≡ no_attempts }
    {
        NoWire {
            faults: 0,
            door_faults: 0,
            dials: 0,
            waits: 0,
            listens: 0,
        }
    }

    /// A fault.
    fn fail(&mut self) -> Fault
        ensures answer { result ≡ Fault.Failed }
        ensures fault { self.new ≡ record self.old { faults = counted self.old.faults } }
        ensures later { self.old.faults ≤ self.new.faults }
    {
        self.faults = self.faults.saturating_add(1);
        Fault::Failed
    }

    /// A fault of the door.
    fn fail_at_door(&mut self) -> Fault
        ensures answer { result ≡ Fault.Failed }
        ensures fault { self.new ≡ door_failed self.old }
        ensures later { self.old.faults ≤ self.new.faults }
        ensures door_later { self.old.door_faults ≤ self.new.door_faults }
    {
        self.door_faults = self.door_faults.saturating_add(1);
        self.fail()
    }
}

impl Wire for NoWire {
    ghost use Rattle.memory_outside.specs.Unlinked.{nothing_owed, nothing_allowed, all_told, none_open, no_wait};

    ghost state = { unlinked };

    ghost allows = { λ wire host port sent owed. ⊥ };

    ghost told = { λ wire k. all_told };

    ghost given_alone = { none_open };

    ghost received_is_owed = { λ wire k. nothing_owed };

    ghost owed_is_allowed = { λ wire k. nothing_allowed };

    ghost is_lively = { no_wait };

    // No link is given, so these three ask nothing: else no call could meet what they ask.
    fn send(&mut self, _link: u64, piece: &[u8]) -> Moved
        ensures failed { result ≡ Moved.Failed }
        ensures fault { self.new ≡ record self.old { faults = counted self.old.faults } }
        ensures sends { Sends _link piece.now (unlinked self.old) (unlinked self.new) result }
    {
        self.fail();
        Moved::Failed
    }

    fn recv(&mut self, _link: u64, to: &mut [u8]) -> Moved
        ensures failed { result ≡ Moved.Failed }
        ensures fault { self.new ≡ record self.old { faults = counted self.old.faults } }
        ensures receives { Receives _link to.new (unlinked self.old) (unlinked self.new) result }
    {
        self.fail();
        Moved::Failed
    }

    fn close(&mut self, _link: u64)
        ensures { self.new ≡ self.old }
    {}

    fn wait(&mut self) -> Result<Ready, Fault>
        ensures failed { result ≡ Err Fault.Failed }
        ensures counts { self.new ≡ record (door_failed self.old) { waits = counted self.old.waits } }
        ensures only { OnlyWaits (unlinked self.old) (unlinked self.new) }
        ensures cause { HasCause self.old.faults self.new.faults result }
        ensures door { HasCause self.old.door_faults self.new.door_faults result }
    {
        self.waits = self.waits.saturating_add(1);
        Err(self.fail_at_door())
    }

    fn look(&mut self)
        ensures { self.new ≡ self.old }
    {}

    fn idle(&self) -> u64 {
        0
    }
}

impl Dial for NoWire {
    fn dial(&mut self, _host: &str, _port: u16) -> Result<u64, Fault>
        ensures failed { result ≡ Err Fault.Failed }
        ensures counts { self.new
            ≡ record self.old { faults = counted self.old.faults; dials = counted self.old.dials } }
        ensures only { OnlyDials (unlinked self.old) (unlinked self.new) }
        ensures cause { HasCause self.old.faults self.new.faults result }
    {
        self.dials = self.dials.saturating_add(1);
        Err(self.fail())
    }
}

impl Accept for NoWire {
    fn listen(&mut self, _host: &str, _port: u16) -> Result<(), Fault>
        ensures failed { result ≡ Err Fault.Failed }
        ensures counts { self.new ≡ record (door_failed self.old) { listens = counted self.old.listens } }
        ensures only { OnlyListens (unlinked self.old) (unlinked self.new) }
        ensures cause { HasCause self.old.faults self.new.faults result }
        ensures door { HasCause self.old.door_faults self.new.door_faults result }
    {
        self.listens = self.listens.saturating_add(1);
        Err(self.fail_at_door())
    }

    // It asks no listen, since none succeeds.
    fn accept(&mut self) -> Result<Option<u64>, Fault>
        ensures failed { result ≡ Err Fault.Failed }
        ensures fault { self.new ≡ door_failed self.old }
        ensures only { OnlyAccepts (unlinked self.old) (unlinked self.new) }
        ensures cause { HasCause self.old.faults self.new.faults result }
        ensures door { HasCause self.old.door_faults self.new.door_faults result }
    {
        Err(self.fail_at_door())
    }
}

// What a wire counts, and what it counts of each open link.
ghost use Rattle.std.specs.Prelude.{◌≡◌, ◌≤◌, Some, None, false};
ghost use Rattle.wire_real.specs.Accounts.{no_account, no_counts, account_after, counts_after, FailsAtDoor, FailsToDial};

use std::io::ErrorKind;
use tpf_base::{Fault, Moved};

/// Which way bytes go.
#[derive(Clone, Copy)]
pub enum Direction {
    Sending,
    Receiving,
}

/// The account of an open link. Its count stops at 2^64 - 1.
#[derive(Clone, Copy)]
pub struct Account {
    /// How often a call on the link stalled.
    pub stalls: u64,
    /// The direction of its last call, where that stalled.
    pub stalled: Option<Direction>,
    /// Whether a wait answered the link since.
    pub woken: bool,
}

impl Account {
    /// Of a link on which nothing happened yet.
    pub fn new() -> Account
        ensures { result ≡ no_account }
    {
        Account {
            stalls: 0,
            stalled: None,
            woken: false,
        }
    }

    /// After a call in a direction.
    pub fn after(self, direction: Direction, answer: Moved) -> Account
        ensures exact { result ≡ account_after direction answer self }
        ensures later { self.stalls ≤ result.stalls }
    {
        match answer {
            Moved::Moved(_) => self.without_stall(),
            Moved::End => self.without_stall(),
            Moved::NotYet => Account {
                stalls: self.stalls.saturating_add(1),
                stalled: Some(direction),
                woken: false,
            },
            Moved::Failed => self.without_stall(),
            Moved::OutOfMemory => self,
        }
    }

    fn without_stall(self) -> Account
        ensures { result ≡ record self { stalled = None; woken = false } }
    {
        Account {
            stalls: self.stalls,
            stalled: None,
            woken: false,
        }
    }
}

/// The counts of a wire. Each stops at 2^64 - 1.
#[derive(Clone, Copy)]
pub struct Counts {
    /// How many links were given.
    pub given: u64,
    /// How often the wire failed.
    pub faults: u64,
    /// How often a dial was called.
    pub dials: u64,
    /// How often a wait was called.
    pub waits: u64,
    /// How many waits succeeded since a byte moved, an end was received or a link was given.
    pub idle: u64,
    /// How often no connection waited at the door.
    pub door_stalls: u64,
    /// How often a listen, an accept or a wait failed.
    pub door_faults: u64,
    /// How often a listen was called.
    pub listens: u64,
}

impl Counts {
    /// Of a wire on which nothing happened yet.
    pub fn new() -> Counts
        ensures { result ≡ no_counts }
    {
        Counts {
            given: 0,
            faults: 0,
            dials: 0,
            waits: 0,
            idle: 0,
            door_stalls: 0,
            door_faults: 0,
            listens: 0,
        }
    }

    /// After a call on a link.
    pub fn after(self, answer: Moved) -> Counts
        ensures exact { result ≡ counts_after answer self }
        ensures later { self.faults ≤ result.faults }
    {
        match answer {
            Moved::Moved(_) => Counts { idle: 0, ..self },
            Moved::End => Counts { idle: 0, ..self },
            Moved::NotYet => self,
            Moved::Failed => Counts {
                faults: self.faults.saturating_add(1),
                ..self
            },
            Moved::OutOfMemory => self,
        }
    }

    /// What a dial answers where the system failed so, and the count of it.
    pub fn fail(&mut self, kind: ErrorKind) -> Fault
        ensures { FailsToDial result self.old self.new }
    {
        if kind == ErrorKind::OutOfMemory {
            return Fault::OutOfMemory;
        }
        self.faults = self.faults.saturating_add(1);
        Fault::Failed
    }

    /// What a call at the door, or a wait, answers where the system failed so, and the counts of it.
    pub fn fail_at_door(&mut self, kind: ErrorKind) -> Fault
        ensures { FailsAtDoor result self.old self.new }
    {
        let fault = self.fail(kind);
        if fault == Fault::Failed {
            self.door_faults = self.door_faults.saturating_add(1);
        }
        fault
    }
}

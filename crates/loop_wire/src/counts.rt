// How often a wait was called, and how often it failed.
ghost use Rattle.std.specs.Prelude.{◌≡◌, ◌≤◌};
ghost use Rattle.tpf_base.specs.Causes.{counted};
ghost use Rattle.loop_wire.specs.Waits.{WaitCounts, no_waits};

use std::marker::Model;

/// How often a wait was called, and how often it failed. Contracts see it as these counts, each of
/// which stops at 2^64 - 1.
#[derive(Drop)]
pub struct Waits {
    calls: u64,
    faults: u64,
}

impl Model for Waits {
    ghost Value = { WaitCounts };

    ghost view = { λ w. record { calls = w.calls; faults = w.faults } };
}

impl Waits {
    /// No wait was called yet.
    pub fn new() -> Waits
        ensures { result ≡ no_waits }
    {
        Waits {
            calls: 0,
            faults: 0,
        }
    }

    /// Counts a wait.
    pub fn count(&mut self)
        ensures { self.new ≡ record self.old { calls = counted self.old.calls } }
    {
        self.calls = self.calls.saturating_add(1);
    }

    /// Counts a wait that failed, which was counted before.
    pub fn fail(&mut self)
        ensures fault { self.new ≡ record self.old { faults = counted self.old.faults } }
        ensures later { self.old.faults ≤ self.new.faults }
    {
        self.faults = self.faults.saturating_add(1);
    }
}

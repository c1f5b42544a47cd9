// Which calls an object in memory fails.
ghost use Rattle.std.specs.Prelude.{ℕ, ◌≡◌, ◌<◌, ◌≤◌, false};
ghost use Rattle.tpf_base.specs.Causes.{counted};
ghost use Rattle.tpf_base.specs.Failures.{is_due, is_dial_due, room, CallCounts, no_calls, is_next_due, is_next_dial_due};

use std::marker::Model;

/// Which calls an object in memory fails.
///
/// The calls that can answer a fault count from 1, also those that failed, and the count stops at
/// 2^64 - 1.
#[derive(Drop)]
pub enum Failing {
    /// No call.
    Never,
    /// Each n-th call; 0 fails none.
    Every(u64),
    /// The calls with these numbers.
    At(Vec<u64>),
    /// So many bytes are taken or given, and each later call fails.
    AfterBytes(u64),
    /// Each n-th call of `dial`, which are counted by themselves; 0 fails none.
    Dials(u64),
}

impl Failing {
    /// Whether the call with this number is failed, a dial or another, where so many bytes have moved
    /// before. `Dials` fails none by this number.
    pub fn is_due(&self, call: u64, moved: u64) -> bool
        ensures { result ≡ is_due self.now call moved }
    {
        match self {
            Failing::Never | Failing::Dials(_) => false,
            Failing::Every(n) => *n > 0 && call % *n == 0,
            Failing::At(calls) => calls.contains(&call),
            Failing::AfterBytes(most) => *most <= moved,
        }
    }

    /// Whether the dial with this number is failed, where dials alone are counted. Only `Dials` fails
    /// one by this number.
    pub fn is_dial_due(&self, dial: u64) -> bool
        ensures { result ≡ is_dial_due self.now dial }
    {
        match self {
            Failing::Dials(n) => *n > 0 && dial % *n == 0,
            _ => false,
        }
    }

    /// How many bytes a call that is not failed moves, where so many are there to move and so many
    /// have moved before.
    pub fn room(&self, moved: u64, there: usize) -> usize
        ensures value { result ≡ room self.now moved there }
        ensures within { result ≤ there }
    {
        match self {
            Failing::AfterBytes(most) => {
                let left = most.saturating_sub(moved);
                if left < there as u64 {
                    left as usize
                } else {
                    there
                }
            }
            _ => there,
        }
    }
}

/// What an object in memory counts: its calls that can answer a fault, those of them that are
/// dials, and those that failed. Contracts see it as these counts and what it fails.
///
/// Each count stops at 2^64 - 1.
#[derive(Drop)]
pub struct Failures {
    failing: Failing,
    calls: u64,
    dials: u64,
    faults: u64,
}

impl Model for Failures {
    ghost Value = { CallCounts };

    ghost view = { λ f. record { failing = f.failing; calls = f.calls; dials = f.dials; faults = f.faults } };
}

impl Failures {
    /// No call was made yet.
    pub fn new(failing: Failing) -> Failures
        ensures { result ≡ no_calls failing }
    {
        Failures {
            failing,
            calls: 0,
            dials: 0,
            faults: 0,
        }
    }

    /// Counts a call that is no dial, and answers whether it is failed, where so many bytes have
    /// moved before; its fault is counted by `fail`. A call that is not failed moves something, where
    /// something is there.
    #[tactic(auto, using(crate::proofs::Rooms::room_some))]
    pub fn is_next_due(&mut self, moved: u64) -> bool
        ensures due { result ≡ is_next_due self.old moved }
        ensures counts { self.new ≡ record self.old { calls = counted self.old.calls } }
        ensures some { result ≡ false → (there : ℕ) → 0 < there → 0 < room self.old.failing moved there }
    {
        self.calls = self.calls.saturating_add(1);
        self.failing.is_due(self.calls, moved)
    }

    /// Counts a dial, among the calls and by itself, and answers whether it is failed by either
    /// number, where so many bytes have moved before; its fault is counted by `fail`.
    pub fn is_next_dial_due(&mut self, moved: u64) -> bool
        ensures due { result ≡ is_next_dial_due self.old moved }
        ensures counts { self.new ≡ record self.old { calls = counted self.old.calls; dials = counted self.old.dials } }
    {
        self.calls = self.calls.saturating_add(1);
        self.dials = self.dials.saturating_add(1);
        self.failing.is_due(self.calls, moved) || self.failing.is_dial_due(self.dials)
    }

    /// Counts a fault: that of a call which was counted before.
    pub fn fail(&mut self)
        ensures counts { self.new ≡ record self.old { faults = counted self.old.faults } }
        ensures later { self.old.faults ≤ self.new.faults }
    {
        self.faults = self.faults.saturating_add(1);
    }

    /// How many bytes a call that is not failed moves, where so many are there to move and so many
    /// have moved before.
    pub fn room(&self, moved: u64, there: usize) -> usize
        ensures value { result ≡ room self.now.failing moved there }
        ensures within { result ≤ there }
    {
        self.failing.room(moved, there)
    }
}

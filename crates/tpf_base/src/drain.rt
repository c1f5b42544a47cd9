// A sink that keeps nothing.
ghost use Rattle.std.specs.Prelude.{ℕ, ◌≡◌, Ok, length};
ghost use Rattle.tpf_base.specs.Causes.{counted_by};

use crate::{Fault, Sink};
use std::marker::Model;

/// A sink that takes each piece whole, counts the bytes and keeps none of them. It never fails.
/// Contracts see it as the count of the bytes, which stops at 2^64 - 1.
#[derive(Drop)]
pub struct Drain {
    bytes: u64,
}

impl Model for Drain {
    ghost Value = { ℕ };

    ghost view = { λ drain. drain.bytes };
}

impl Drain {
    /// A sink that has taken nothing yet.
    pub fn new() -> Drain
        ensures { result ≡ 0 }
    {
        Drain { bytes: 0 }
    }

    /// How many bytes it has taken, at most 2^64 - 1.
    pub fn bytes(&self) -> u64
        ensures { result ≡ self.now }
    {
        self.bytes
    }
}

impl Sink for Drain {
    ghost use Rattle.std.specs.Prelude.{None, true};

    ghost state = { λ _. record { taken = None; faults = 0; faultless = true } };

    /// Takes the piece whole, also an empty one.
    fn write(&mut self, piece: &[u8]) -> Result<usize, Fault>
        ensures whole { result ≡ Ok (length piece.now) }
        ensures counts { self.new ≡ counted_by (length piece.now) self.old }
    {
        self.bytes = self.bytes.saturating_add(piece.len() as u64);
        Ok(piece.len())
    }
}

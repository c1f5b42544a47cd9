// A supply that gives nothing.
ghost use Rattle.std.specs.Prelude.{◌≡◌, Some, [], Err};
ghost use Rattle.tpf_base.specs.Causes.{HasCause, counted};
ghost use Rattle.connections.specs.Supplies.{refusals};

use crate::{Serves, Supply};
use tpf_base::Fault;

/// A supply that fails at each call, and counts the calls up to 2^64 - 1.
#[derive(Drop)]
pub struct NoSupply {
    faults: u64,
}

impl NoSupply {
    /// A supply that has not failed yet.
    pub fn new() -> NoSupply
        ensures faults { refusals result ≡ 0 }
    {
        NoSupply { faults: 0 }
    }
}

impl<V: Serves> Supply<V> for NoSupply {
    ghost state = { λ supply. record { left = Some []; faults = refusals supply; calls = refusals supply } };

    ghost may = { λ supply data_set. ⊥ };

    ghost Keeps = { λ old new. Unit {0} };

    ghost keeps_itself = { λ a. tt };

    ghost keeps_then = { λ a b c first then. tt };

    /// `Failed`, always.
    fn next(&mut self) -> Result<V::Table, Fault>
        ensures refused { result ≡ Err Fault.Failed }
        ensures cause { HasCause (refusals self.old) (refusals self.new) result }
        ensures counts { refusals self.new ≡ counted (refusals self.old) }
    {
        self.faults = self.faults.saturating_add(1);
        Err(Fault::Failed)
    }
}

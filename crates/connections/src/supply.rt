// Where a reload gets its data.
ghost use Rattle.std.specs.Prelude.{◌≡◌, ◌↔◌, IfOk, OnErr};
ghost use Rattle.tpf_base.specs.Causes.{HasCause, counted};
ghost use Rattle.connections.specs.Versions.{SupplyState, with_first};

use crate::Serves;
use tpf_base::Fault;

/// Gives the tables of a server, one for each reload.
pub trait Supply<V: Serves> {
    /// What it holds: the data sets that it has left, where it tells them, how often it failed, and how
    /// often it was called. The counts stop at 2^64 - 1.
    ghost state: { Self → SupplyState V.Data };

    /// The data sets that it may give. No call changes them.
    ghost may: { Self → V.Data → Type 0 };

    /// What holds between a supply and what later calls made of it.
    ghost Keeps: { Self → Self → Type 0 };

    /// The next table.
    ///
    /// `Failed` where there is none, or it could not be read. Each call counts, and after an error what
    /// is left stays.
    fn next(&mut self) -> Result<V::Table, Fault>
        ensures given { IfOk result (λ table. may self.old (V.data_of table)) }
        ensures first { IfOk result (λ table. (state self.old).left
            ≡ with_first (V.data_of table) (state self.new).left) }
        ensures err { OnErr result ((state self.new).left ≡ (state self.old).left) }
        ensures same { (data_set : V.Data) → may self.new data_set ↔ may self.old data_set }
        ensures keeps { Keeps self.old self.new }
        ensures cause { HasCause (state self.old).faults (state self.new).faults result }
        ensures counts { (state self.new).calls ≡ counted (state self.old).calls };

    ghost keeps_itself: { (a : Self) → Keeps a a };

    /// Calls after calls.
    ghost keeps_then: { (a b c : Self) → Keeps a b → Keeps b c → Keeps a c };
}

// A server of numbered versions of data.
ghost use Rattle.std.specs.Prelude.{◌≡◌, ◌+◌, ◌<◌, ◌≤◌, IfOk, OnErr};
ghost use Rattle.tpf_base.specs.declared.limits.TheConstants.{HIGHEST_NUMBER};
ghost use Rattle.connections.specs.Versions.{Serving};

use tpf_base::OutOfMemory;

/// A server: data, how they are served, and the number of their version.
pub trait Serves {
    /// A data set, of which contracts alone speak.
    type Data;

    /// How data are served: the same over all versions. Contracts alone speak of it.
    type Settings;

    /// A data set as it is handed to a reload.
    type Table: Drop;

    /// The data set of a table.
    ghost data_of: { Self.Table → Self.Data };

    /// What it serves.
    ghost serving: { Self → Serving Self.Data Self.Settings };

    /// The second is the first after any reloads.
    ghost Follows: { Self → Self → Type 0 };

    /// The number of the version, from 1 to `HIGHEST_NUMBER` of `tpf_base` (9999999999999999999).
    fn version(&self) -> u64
        ensures version { result ≡ (serving self.now).version }
        ensures most { result ≤ HIGHEST_NUMBER };

    /// Serves this table as the next version, and gives its number. After `OutOfMemory` it serves as
    /// before.
    fn reload(&mut self, table: Self::Table) -> Result<u64, OutOfMemory>
        requires { (serving self.old).version < HIGHEST_NUMBER }
        ensures number { IfOk result (λ number. number ≡ (serving self.old).version + 1) }
        ensures ok { IfOk result (λ number. serving self.new
            ≡ record (serving self.old) { data_set = data_of table; version = number }) }
        ensures err { OnErr result (serving self.new ≡ serving self.old) }
        ensures follows { Follows self.old self.new };

    /// Reloads after reloads.
    ghost follows_then: { (a b c : Self) → Follows a b → Follows b c → Follows a c };

    ghost follows_itself: { (a : Self) → Follows a a };

    /// The first version is 1.
    ghost numbered: { (server : Self) → 1 ≤ (serving server).version };
}

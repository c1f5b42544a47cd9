// The data and the configuration of a server.
ghost use Rattle.std.specs.Prelude.{◌≡◌, ◌≤◌, ◌<◌, ◌+◌, IfOk, OnErr};
ghost use Rattle.tpf_base.specs.declared.limits.TheConstants.{HIGHEST_NUMBER};
ghost use Rattle.template_fill.specs.Configurations.{IsConfig, IsValidDataSet};
ghost use Rattle.page_responses.specs.Serving.{current, data_of};

use hydra_controls::Config;
use page_responses::Snapshot;
use std::alloc::Global;
use std::marker::Model;
use tpf_base::OutOfMemory;
use triple_table::Table;

/// A server of the fragments of a table, whose data may be replaced: each data set that it serves is a
/// numbered version. Contracts see it as the table, the configuration and the number of the version,
/// which is 1 to `HIGHEST_NUMBER` (9999999999999999999).
#[derive(Drop)]
pub struct Server {
    alloc: Global,
    snapshot: Snapshot,
    config: Config,
}

impl Model for Server {
    ghost use Rattle.std.specs.Prelude.{◌≤◌};
    ghost use Rattle.tpf_base.specs.declared.limits.TheConstants.{HIGHEST_NUMBER};
    ghost use Rattle.page_responses.specs.Serving.{Serving};

    ghost Value = { Serving };

    ghost view = { λ s. record { table = s.snapshot.table; config = s.config; version = s.snapshot.number } };

    ghost invariant = { λ s. (1 ≤ s.snapshot.number) × (s.snapshot.number ≤ HIGHEST_NUMBER) };
}

impl Server {
    /// A server of this table as version 1, whose fragments stand where the configuration says.
    ///
    /// `OutOfMemory` comes only where memory runs out.
    pub fn new(alloc: Global, table: Table, config: Config) -> Result<Server, OutOfMemory>
        ensures { IfOk result (λ server. server ≡ record { table = table; config = config; version = 1 }) }
    {
        let snapshot = Snapshot::new(alloc, table, 1)?;
        Ok(Server {
            alloc,
            snapshot,
            config,
        })
    }

    /// The number of the version that is served: 1, and one more for each reload.
    pub fn version(&self) -> u64
        ensures version { result ≡ self.now.version }
        ensures low { 1 ≤ result }
        ensures high { result ≤ HIGHEST_NUMBER }
    {
        self.snapshot.number()
    }

    /// Serves this table as the next version, and gives its number. Answers that were read before keep
    /// their own version. The version is below `HIGHEST_NUMBER` (9999999999999999999).
    ///
    /// `OutOfMemory` comes only where memory runs out; the server is then as before.
    pub fn reload(&mut self, table: Table) -> Result<u64, OutOfMemory>
        requires { self.old.version < HIGHEST_NUMBER }
        ensures number { IfOk result (λ number. number ≡ self.old.version + 1) }
        ensures ok { IfOk result (λ number. self.new ≡ record self.old { table = table; version = number }) }
        ensures err { OnErr result (self.new ≡ self.old) }
    {
        let number = self.snapshot.number() + 1;
        self.snapshot = Snapshot::new(self.alloc, table, number)?;
        Ok(number)
    }

    /// What is served is a data set of valid terms, and the configuration keeps its rules. The call does
    /// nothing; it tells a proof of it.
    pub fn is_valid(&self)
        ensures data_set { IsValidDataSet (data_of self.now) }
        ensures config { IsConfig self.now.config }
    {
        let _count = self.snapshot.table().len();
        self.config.is_valid();
    }

    /// The table of the version that is served.
    pub fn table(&self) -> &Table
        ensures { result.now ≡ self.now.table }
    {
        self.snapshot.table()
    }

    /// The configuration.
    pub fn config(&self) -> &Config
        ensures { result.now ≡ self.now.config }
    {
        &self.config
    }

    /// The version that is served, for an answer that is made later.
    pub(crate) fn share(&self) -> Result<Snapshot, OutOfMemory>
        ensures { IfOk result (λ snapshot. snapshot ≡ current self.now) }
    {
        self.snapshot.share()
    }
}

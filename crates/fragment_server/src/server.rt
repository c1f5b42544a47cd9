// A server of fragments, as one of numbered versions of data.
ghost use Rattle.std.specs.Prelude.{◌≡◌, ◌≤◌, ◌<◌};

use crate::DataSet;
use connections::Serves;
use hydra_controls::Config;
use tpf_base::OutOfMemory;
use tpf_server::Server;
use triple_table::Table;

/// A server of the fragments of a table, whose data a reload replaces. Contracts see what it serves as
/// `serving_of` of its server: the data set of the table, the configuration, and the number of the
/// version.
pub struct FragmentServer {
    server: Server,
    ghost numbered: { 1 ≤ server.version },
}

// Written out, so that who drops one calls this, and does not take it apart at each exit.
impl Drop for FragmentServer {
    fn drop(self) {
        let FragmentServer { server: _server } = self;
    }
}

impl FragmentServer {
    /// The server as it stands.
    pub fn new(server: Server) -> FragmentServer
        ensures { result.server ≡ server }
    {
        let _version = server.version();
        FragmentServer { server }
    }

    /// The table, the configuration and the version that it serves.
    pub fn server(&self) -> &Server
        ensures { result.now ≡ self.now.server }
    {
        &self.server
    }
}

impl Serves for FragmentServer {
    ghost use Rattle.std.specs.Prelude.{◌≡◌};
    ghost use Rattle.std.proofs.Common.{refl, ◌∙◌};
    ghost use Rattle.triple_table.specs.Stored.{triples_in};
    ghost use Rattle.fragment_server.specs.Fragments.{serving_of};

    type Data = DataSet;

    type Settings = Config;

    type Table = Table;

    ghost data_of = { λ table. triples_in table };

    ghost serving = { λ server. serving_of server.server };

    ghost Follows = { λ old new. new.server.config ≡ old.server.config };

    fn version(&self) -> u64 {
        self.server.version()
    }

    fn reload(&mut self, table: Table) -> Result<u64, OutOfMemory> {
        self.server.reload(table)
    }

    ghost follows_then = { λ a b c p q. q ∙ p };

    ghost follows_itself = { λ a. refl };

    ghost numbered = { λ server. server.numbered };
}

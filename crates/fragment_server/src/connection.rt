// A connection of a server of fragments, as one that a loop serves.
ghost use Rattle.std.specs.Prelude.{◌≡◌};
ghost use Rattle.fragment_server.specs.Fragments.{fragments, outcome_of};

use crate::FragmentServer;
use connections::{Converses, Reloaded};
use std::alloc::Global;
use tpf_base::OutOfMemory;
use tpf_server::Connection;

/// A connection of a server of fragments. What it means is `fragments`: its response is that of the
/// definitions to the bytes that came, over the versions that were served when the heads among them
/// were read.
pub struct FragmentConnection {
    connection: Connection,
}

// Written out, so that who drops one calls this, and does not take it apart at each exit.
impl Drop for FragmentConnection {
    fn drop(self) {
        let FragmentConnection {
            connection: _connection,
        } = self;
    }
}

/// How a reload came out, in the words of the server's core.
fn outcome_of(outcome: Reloaded) -> tpf_server::Reloaded
    ensures { result ≡ outcome_of outcome }
{
    match outcome {
        Reloaded::Version(number) => tpf_server::Reloaded::Version(number),
        Reloaded::Failed => tpf_server::Reloaded::Failed,
        Reloaded::OutOfMemory => tpf_server::Reloaded::OutOfMemory,
    }
}

impl Converses for FragmentConnection {
    type Server = FragmentServer;

    ghost use Rattle.fragment_server.specs.Fragments.{fragments};
    ghost use Rattle.fragment_server.specs.Laws.{all_begins, all_grow, all_whole, closing_waits};

    ghost kind = { fragments };

    ghost Suits = { λ server c. Unit {0} };

    fn new(alloc: Global) -> FragmentConnection {
        FragmentConnection {
            connection: Connection::new(alloc),
        }
    }

    fn feed(&mut self, server: &FragmentServer, piece: &[u8]) -> Result<(), OutOfMemory> {
        self.connection.feed(server.server(), piece)?;
        Ok(())
    }

    fn fill(&mut self, server: &FragmentServer) -> Result<(), OutOfMemory> {
        self.connection.fill(server.server())?;
        Ok(())
    }

    fn owes(&self) -> bool {
        self.connection.owes()
    }

    fn pending(&self) -> &[u8] {
        self.connection.pending()
    }

    fn take(&mut self, n: usize) {
        self.connection.take(n);
    }

    fn closing(&self) -> bool {
        self.connection.closing()
    }

    fn wants_reload(&self) -> bool {
        self.connection.wants_reload()
    }

    fn reloaded(&mut self, server: &FragmentServer, outcome: Reloaded) -> Result<(), OutOfMemory> {
        self.connection
            .reloaded(server.server(), outcome_of(outcome))?;
        Ok(())
    }

    ghost stays = { λ old new c follows suits. tt };

    ghost grows = { all_grow };

    ghost begins = { all_begins };

    ghost whole = { all_whole };

    ghost closing_waits = { closing_waits };
}

// A connection that gives back what it gets.
ghost use Rattle.std.specs.Prelude.{◌≡◌, Err, refl};
ghost use Rattle.echo_server.specs.Echoes.{echoes};

use crate::EchoServer;
use connections::{Converses, Reloaded};
use std::alloc::Global;
use tpf_base::OutOfMemory;

/// A connection that sends the bytes that came, in order. It never closes, and asks for no reload.
#[derive(Debug, Drop)]
pub struct Echo {
    pending: Vec<u8>,
    owed: Vec<u8>,
}

impl Converses for Echo {
    type Server = EchoServer;

    ghost use Rattle.echo_server.specs.Echoes.{echoes};
    ghost use Rattle.echo_server.specs.Laws.{all_begins, all_whole};

    ghost kind = { echoes };

    ghost Suits = { λ server c. Unit {0} };

    fn new(alloc: Global) -> Echo {
        Echo {
            pending: Vec::new(alloc),
            owed: Vec::new(alloc),
        }
    }

    fn feed(&mut self, _server: &EchoServer, piece: &[u8]) -> Result<(), OutOfMemory> {
        self.owed.extend_from_slice(piece)?;
        Ok(())
    }

    #[tactic(auto, using(crate::specs::Laws::fills_all))]
    fn fill(&mut self, _server: &EchoServer) -> Result<(), OutOfMemory> {
        self.pending.extend_from_slice(&self.owed)?;
        self.owed.clear();
        Ok(())
    }

    fn owes(&self) -> bool {
        !self.owed.is_empty()
    }

    fn pending(&self) -> &[u8] {
        self.pending.as_slice()
    }

    fn take(&mut self, n: usize) {
        self.pending.drain(..n);
    }

    fn closing(&self) -> bool {
        false
    }

    fn wants_reload(&self) -> bool {
        false
    }

    /// Out of memory always, and nothing changes.
    // It waits for no reload, so this asks nothing: else no call could meet what it asks.
    fn reloaded(&mut self, _server: &EchoServer, _outcome: Reloaded) -> Result<(), OutOfMemory>
        ensures unasked { result ≡ Err record {} }
        ensures same { self.new ≡ self.old }
    {
        Err(OutOfMemory)
    }

    ghost stays = { λ old new c follows suits. tt };

    ghost grows = { λ history more config fed taken marks c answers. answers };

    ghost begins = { all_begins };

    ghost whole = { all_whole };

    ghost closing_waits = { λ c closing. refl };
}

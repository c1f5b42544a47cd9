// A server of one number, of which its connections do not speak.
ghost use Rattle.std.specs.Prelude.{◌≡◌, ◌≤◌, ◌<◌, ◌+◌, Ok};
ghost use Rattle.tpf_base.specs.declared.limits.TheConstants.{HIGHEST_NUMBER};

use connections::Serves;
use tpf_base::OutOfMemory;

/// A server of numbers: each version is one.
#[derive(Debug, Drop)]
pub struct EchoServer {
    number: u64,
    version: u64,
    ghost numbered: { 1 ≤ version },
    ghost most: { version ≤ HIGHEST_NUMBER },
}

impl EchoServer {
    /// A server of this number, as version 1.
    pub fn new(number: u64) -> EchoServer
        ensures number { result.number ≡ number }
        ensures version { result.version ≡ 1 }
    {
        EchoServer { number, version: 1 }
    }

    /// The number that it serves.
    pub(crate) fn number(&self) -> u64
        ensures { result ≡ self.now.number }
    {
        self.number
    }
}

impl Serves for EchoServer {
    ghost use Rattle.std.proofs.Common.{rules};

    type Data = u64;

    type Settings = ();

    type Table = u64;

    ghost data_of = { λ table. table };

    ghost serving = { λ server. record { data_set = server.number; config = tt; version = server.version } };

    ghost Follows = { λ old new. old.version ≤ new.version };

    fn version(&self) -> u64 {
        self.version
    }

    fn reload(&mut self, table: u64) -> Result<u64, OutOfMemory> {
        *self = EchoServer {
            number: table,
            version: self.version + 1,
        };
        Ok(self.version)
    }

    ghost follows_then = { λ a b c p q. Prim.search rules };

    ghost follows_itself = { λ a. Prim.search rules };

    ghost numbered = { λ server. server.numbered };
}

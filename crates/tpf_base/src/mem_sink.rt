// A sink in memory, which fails where it is told to.
ghost use Rattle.std.specs.Prelude.{◌≡◌, ◌<◌, ◌↔◌, [], length, IsTrue, IfOk, IsErrOf};
ghost use Rattle.tpf_base.specs.Failures.{no_calls, is_next_due, room, CountsCall};
ghost use Rattle.tpf_base.specs.Memory.{sink_bytes, sink_counts, sink_state};
ghost use Rattle.tpf_base.specs.Wrote.{WritesPiece};

use crate::{Failing, Failures, Fault, Sink};
use std::alloc::Global;

/// A sink in memory, which tells what it has taken.
///
/// Each call of `write` counts, also one that ends in out of memory, and fails where its `Failing`
/// says so.
#[derive(Drop)]
pub struct MemSink {
    taken: Vec<u8>,
    failures: Failures,
}

impl MemSink {
    /// A sink that has taken nothing yet. It takes no memory.
    pub fn new(alloc: Global, failing: Failing) -> MemSink
        ensures taken { sink_bytes result ≡ [] }
        ensures counts { sink_counts result ≡ no_calls failing }
    {
        MemSink {
            taken: Vec::new(alloc),
            failures: Failures::new(failing),
        }
    }

    /// The bytes that it has taken.
    pub fn taken(&self) -> &[u8]
        ensures { result.now ≡ sink_bytes self.now }
    {
        self.taken.as_slice()
    }
}

impl Sink for MemSink {
    ghost state = { sink_state };

    /// `Failed` exactly where the call is due. After an error it has taken none of the piece.
    #[tactic(auto, using(crate::proofs::Rooms::spared_next))]
    fn write(&mut self, piece: &[u8]) -> Result<usize, Fault>
        requires { 0 < length piece.now }
        ensures writes { WritesPiece piece.now (sink_state self.old) (sink_state self.new) result }
        ensures failed { IsErrOf result Fault.Failed
            ↔ IsTrue (is_next_due (sink_counts self.old) (length (sink_bytes self.old))) }
        ensures amount { IfOk result (λ n.
            n ≡ room (sink_counts self.old).failing (length (sink_bytes self.old)) (length piece.now)) }
        ensures counts { CountsCall (sink_counts self.old) (sink_counts self.new) result }
    {
        let moved = self.taken.len() as u64;
        if self.failures.is_next_due(moved) {
            self.failures.fail();
            return Err(Fault::Failed);
        }
        let n = self.failures.room(moved, piece.len());
        match self.taken.extend_from_slice(&piece[..n]) {
            Ok(()) => Ok(n),
            Err(_) => Err(Fault::OutOfMemory),
        }
    }
}

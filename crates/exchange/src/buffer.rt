// Room for what one receive moves.
ghost use Rattle.std.specs.Prelude.{◌≡◌, length};
ghost use Rattle.exchange.specs.declared.buffer.TheConstants.{ROOM};

use std::alloc::Global;
use tpf_base::OutOfMemory;

/// How many bytes one receive moves at most.
pub const ROOM: usize = 8192;

/// Room for what one receive moves: `ROOM` bytes. One buffer serves all exchanges of a caller, one
/// after another; what it holds between polls means nothing.
#[derive(Drop)]
pub struct ReceiveBuffer {
    pub(crate) bytes: Vec<u8>,
    ghost full: { length bytes.items ≡ ROOM },
}

impl ReceiveBuffer {
    /// A buffer, or out of memory.
    pub fn new(alloc: Global) -> Result<ReceiveBuffer, OutOfMemory> {
        Ok(ReceiveBuffer {
            bytes: vec![in alloc; 0u8; ROOM]?,
        })
    }
}

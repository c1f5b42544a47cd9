// Reads that a signal may interrupt.
ghost use Rattle.std.specs.Prelude.{◌≡◌, ◌≤◌, length, IfOk};

use std::io;
use std::io::{ErrorKind, Read};

/// Reads from a file or a socket. A read that a signal interrupted is tried again.
pub fn read_some<F: Read>(from: &mut F, to: &mut [u8]) -> io::Result<usize>
    ensures length { length to.new ≡ length to.old }
    ensures within { IfOk result (λ n. n ≤ length to.old) }
{
    'tries: for _ in 0..u64::MAX {
        match from.read(to) {
            Err(error) if error.kind() == ErrorKind::Interrupted => {}
            answer => return answer,
        }
    }
    Err(io::Error::from(ErrorKind::Interrupted))
}

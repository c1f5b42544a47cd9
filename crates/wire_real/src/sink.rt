// The standard streams.
ghost use Rattle.std.specs.Prelude.{◌≡◌, ◌≤◌, length, IfOk};

use std::io;
use std::io::{ErrorKind, Print};
use tpf_base::{Fault, Sink};

/// A runtime with a standard output and a standard error.
pub trait Streams {
    /// Writes some of the bytes to the standard output, and says how many.
    fn write_output(&self, piece: &[u8]) -> io::Result<usize>
        ensures { IfOk result (λ n. n ≤ length piece.now) };

    /// Writes some of the bytes to the standard error, and says how many.
    fn write_errors(&self, piece: &[u8]) -> io::Result<usize>
        ensures { IfOk result (λ n. n ≤ length piece.now) };
}

impl Streams for HostRuntime {
    fn write_output(&self, piece: &[u8]) -> io::Result<usize> {
        self.stdout().write_some(piece)
    }

    fn write_errors(&self, piece: &[u8]) -> io::Result<usize> {
        self.stderr().write_some(piece)
    }
}

#[derive(Clone, Copy)]
enum Stream {
    Output,
    Errors,
}

/// A standard stream of the program. It tells counts alone.
///
/// A write that fails, and one that takes no byte, as on a pipe that nobody reads, answers `Failed`,
/// and counts; what the system answers out of memory answers `OutOfMemory`. The count stops at
/// 2^64 - 1.
#[derive(Drop)]
pub struct StreamSink<'a, R: Streams> {
    rt: &'a R,
    stream: Stream,
    faults: u64,
}

impl<'a, R: Streams> StreamSink<'a, R> {
    /// The standard output.
    pub fn output(rt: &'a R) -> StreamSink<'a, R>
        ensures { result.faults ≡ 0 }
    {
        StreamSink {
            rt,
            stream: Stream::Output,
            faults: 0,
        }
    }

    /// The standard error.
    pub fn errors(rt: &'a R) -> StreamSink<'a, R>
        ensures { result.faults ≡ 0 }
    {
        StreamSink {
            rt,
            stream: Stream::Errors,
            faults: 0,
        }
    }

    fn write_once(&self, piece: &[u8]) -> io::Result<usize>
        ensures { IfOk result (λ n. n ≤ length piece.now) }
    {
        match self.stream {
            Stream::Output => self.rt.write_output(piece),
            Stream::Errors => self.rt.write_errors(piece),
        }
    }

    /// Writes some of the bytes. A write that a signal interrupted is tried again.
    fn write_some(&self, piece: &[u8]) -> io::Result<usize>
        ensures { IfOk result (λ n. n ≤ length piece.now) }
    {
        'tries: for _ in 0..u64::MAX {
            match self.write_once(piece) {
                Err(error) if error.kind() == ErrorKind::Interrupted => {}
                answer => return answer,
            }
        }
        Err(io::Error::from(ErrorKind::Interrupted))
    }
}

impl<'a, R: Streams> Sink for StreamSink<'a, R> {
    ghost use Rattle.wire_real.specs.Accounts.{sink_of};

    ghost state = { λ s. sink_of s.faults };

    fn write(&mut self, piece: &[u8]) -> Result<usize, Fault> {
        match self.write_some(piece) {
            Ok(n) if n > 0 => Ok(n),
            Err(error) if error.kind() == ErrorKind::OutOfMemory => Err(Fault::OutOfMemory),
            _ => {
                self.faults = self.faults.saturating_add(1);
                Err(Fault::Failed)
            }
        }
    }
}

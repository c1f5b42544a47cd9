// A place to write to.
ghost use Rattle.std.specs.Prelude.{◌<◌, length};
ghost use Rattle.tpf_base.specs.Wrote.{SinkState, WritesPiece, WritesWhole};

use crate::Fault;

/// A writer: it takes bytes, one after another.
///
/// The count of faults never falls, and stops at 2^64 - 1.
pub trait Sink {
    /// What it holds: the bytes taken so far, where it tells them, how often it failed, and whether it
    /// never does but for memory.
    ghost state: { Self → SinkState };

    /// Takes a prefix of the piece, at least one byte, and says how many bytes.
    ///
    /// After an error it has taken none.
    fn write(&mut self, piece: &[u8]) -> Result<usize, Fault>
        requires { 0 < length piece.now }
        ensures { WritesPiece piece.now (state self.old) (state self.new) result };
}

/// Writes the piece whole, with as many writes as that takes.
///
/// After an error a prefix of the piece may be written. `Failed` only where the sink's count of
/// faults rose in this call, and never over a faultless sink.
pub fn write_all<K: Sink>(out: &mut K, piece: &[u8]) -> Result<(), Fault>
    ensures { WritesWhole piece.now (K.state out.old) (K.state out.new) result }
{
    let mut rest = piece;
    while !rest.is_empty() {
        let n = out.write(rest)?;
        rest = &rest[n..];
    }
    Ok(())
}

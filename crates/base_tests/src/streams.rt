// The standard streams, over a runtime in memory.

use std::cell::RefCell;
use std::io;
use std::io::ErrorKind;
use std::test::Fail;
use tpf_base::write_all;
use wire_real::{StreamSink, Streams};

/// A runtime whose streams take at most three bytes at a time.
#[derive(Drop)]
struct Slow {
    taken: RefCell<Vec<u8>>,
}

impl Streams for Slow {
    fn write_output(&self, piece: &[u8]) -> io::Result<usize> {
        let n = piece.len().min(3);
        match self.taken.try_borrow_mut() {
            Ok(mut taken) => {
                taken.extend_from_slice(&piece[..n])?;
                Ok(n)
            }
            Err(_) => Err(io::Error::from(ErrorKind::Other)),
        }
    }

    fn write_errors(&self, piece: &[u8]) -> io::Result<usize> {
        self.write_output(piece)
    }
}

#[test]
fn a_stream_that_takes_three_bytes_gets_all(rt: HostRuntime) -> Result<(), Fail> {
    let slow = Slow {
        taken: RefCell::new(Vec::new(rt.alloc())),
    };
    write_all(&mut StreamSink::output(&slow), b"twelve bytes")?;
    write_all(&mut StreamSink::errors(&slow), b", and more")?;
    let taken = slow.taken.into_inner();
    assert_eq!(rt; taken.as_slice(), b"twelve bytes, and more".as_slice());
    Ok(())
}

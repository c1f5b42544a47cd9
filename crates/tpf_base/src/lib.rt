//! What the program is handed from outside, as traits: files (`Shelf`), writers (`Sink`) and connections
//! to other hosts (`Wire`); and a writer in memory that fails where it is told to.
//!
//! `write_all` writes bytes with as many writes as that takes:
//!
//! ```rust
//! let mut whole = MemSink::new(rt.alloc(), Failing::Never);
//! assert_eq!(rt; write_all(&mut whole, b"abc"), Ok(()));
//! assert_eq!(rt; write_all(&mut whole, b"def"), Ok(()));
//! assert_eq!(rt; whole.taken(), b"abcdef".as_slice());
//! ```
//!
//! It ends at the first that fails:
//!
//! ```rust
//! let mut cut = MemSink::new(rt.alloc(), Failing::AfterBytes(4));
//! assert_eq!(rt; write_all(&mut cut, b"abcdef"), Err(Fault::Failed));
//! assert_eq!(rt; cut.taken(), b"abcd".as_slice());
//! ```
#![tactic(auto)]

mod bytes;
mod drain;
mod failing;
mod fault;
mod limits;
mod mem_sink;
mod names;
mod send;
mod shelf;
mod sink;
mod steps;
mod usual;
mod wire;

pub use bytes::Bytes;
pub use drain::Drain;
pub use failing::{Failing, Failures};
pub use fault::Fault;
pub use limits::{
    ENOUGH_PENDING, HEAD_LIMIT, HEADS_LIMIT, HIGHEST_NUMBER, HIGHEST_PORT, LINE_LIMIT,
    MOST_CHUNK_DIGITS, MOST_DIGITS, MOST_FIELDS, MOST_LINKS, PADDING_LIMIT,
};
pub use mem_sink::MemSink;
pub use names::Names;
pub use send::{Halt, send_rest};
pub use shelf::{FileFault, Shelf, read_file};
pub use sink::{Sink, write_all};
pub use steps::Steps;
pub use text_base::{OutOfMemory, Text, all_three};
pub use usual::{USUAL_BODY, USUAL_BUDGET, USUAL_LINKS, USUAL_PAGE, USUAL_RETRIES, USUAL_WINDOW};
pub use wire::{Accept, Dial, MOST_IDLE, Moved, Ready, Wire};

//! Real files, streams and sockets, handed to the program from outside. They tell counts alone: what
//! a file, a stream or a socket held is not known to a contract.
//!
//! A process makes one of each, which ask nothing of the system yet:
//!
//! ```rust
//! let mut shelf = DiskShelf::new(rt);
//! let mut wire = NetWire::new(rt);
//! let mut out = StreamSink::output(rt);
//! let mut err = StreamSink::errors(rt);
//! ```
#![tactic(auto)]

mod account;
mod addresses;
mod door;
mod reading;
mod shelf;
mod sink;
mod socket;
mod watch;
mod wire;

pub use shelf::DiskShelf;
pub use sink::{StreamSink, Streams};
pub use wire::NetWire;

//! Generated data of any size, for trying the program out and for measuring it.
//!
//! The N-Quads of so many persons are written to a sink in memory, which never fails:
//!
//! ```rust
//! let mut text = MemSink::new(alloc, Failing::Never);
//! match write_generated(alloc, persons, &mut text) {
//!     Ok(()) => Ok(text),
//!     Err(Fault::OutOfMemory) => Err(OutOfMemory),
//!     Err(Fault::Failed) => unreachable!(),
//! }
//! ```
#![tactic(auto)]

mod laws;
mod limits;
mod lines;
mod write;

pub use laws::generated_quads_are_rdf;
pub use limits::MOST_PERSONS;
pub use write::write_generated;

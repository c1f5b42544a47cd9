//! N-Quads text, read whole, and written in canonical form (RDF 1.1 N-Quads, RDF 1.1 N-Triples 4).
//!
//! A text is read into quads, whose canonical lines `lines` makes, each by `write_quad`; or its first fault is told:
//!
//! ```rust
//! let read = read_all(alloc, text, longest);
//! match read {
//!     Ok(quads) => lines(alloc, quads.as_slice()),
//!     Err(TextFault::OutOfMemory) => Err(CaseFault::OutOfMemory),
//!     Err(fault) => debug_text(alloc, &fault),
//! }
//! ```
#![tactic(auto)]

mod escape;
mod fault;
mod lanes;
pub mod laws;
mod line;
mod loose;
mod raw;
mod scan;
mod text;
mod write;

pub use fault::{TextFault, Why};
pub use line::LineFault;
pub use text::{after_end, line_end, read_all, read_line, without_lf};
pub use write::{canonical, write_quad};

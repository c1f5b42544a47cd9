//! The tokens of a query's text (SPARQL 1.1, section 19.8).
//!
//! The tokens of some characters, each with its kind and its place in characters and in bytes, or the place of the first
//! character that begins none:
//!
//! ```rust
//! let chars = chars_of(alloc, case)?;
//! match pieces(alloc, chars.as_slice()) {
//!     Ok(pieces) => pieces_text(alloc, pieces.as_slice()),
//!     Err(PieceFault::At(at)) => fault_text(alloc, at),
//!     Err(PieceFault::OutOfMemory) => Err(CaseFault::OutOfMemory),
//! }
//! ```
#![tactic(auto)]

mod ahead;
mod class;
pub mod escape;
pub mod kind;
mod longest;
mod machine;
pub mod piece;

pub use piece::LONGEST_QUERY;

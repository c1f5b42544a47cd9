//! Reads queries with groups: blocks of triple patterns, UNION, OPTIONAL and DISTINCT.
//!
//! The query of the bytes of a file, with groups (`Asked::Groups`) or as one basic graph pattern (`Asked::Plain`), or its
//! first fault and the place of it:
//!
//! ```rust
//! match parse_asked(alloc, &bytes) {
//!     Ok(asked) => Ok(asked),
//!     Err(GroupFault::Bad { at, why }) => Err(QueryFileFault::Bad { at, why }),
//!     Err(GroupFault::OutOfMemory) => Err(QueryFileFault::OutOfMemory),
//! }
//! ```
#![tactic(auto)]

mod build;
mod reading;
mod walk;

pub use reading::{Asked, parse_asked, parse_group};

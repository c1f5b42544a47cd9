//! Queries with groups evaluated over the rows of their blocks (SPARQL 1.1, 18.5 and 18.6), wherever these come from.
//!
//! The answers over the rows of each block, in the order in which the blocks are written:
//!
//! ```rust
//! let blocks = blocks_of(alloc, shown.names().len(), texts)?;
//! match evaluate(alloc, query, blocks) {
//!     Ok(rows) => rows_text(alloc, shown, rows.as_slice()),
//!     Err(_) => Err(CaseFault::OutOfMemory),
//! }
//! ```
#![tactic(auto)]

mod answers;
mod cut;
pub mod laws;
mod rows;
mod stack;

pub use answers::evaluate;
pub use rows::Rows;

//! The files that a command reads: one of data, whose triples are served from a table, and one of a query.
//!
//! The table of a file, whose blank nodes are served as IRIs under the authority of a base:
//!
//! ```rust
//! self.base.is_valid();
//! let authority = self.base.authority();
//! read_table(self.alloc, self.shelf, self.name, self.choice, authority)
//! ```
#![tactic(auto)]

mod data;
mod fault;
pub mod laws;
mod query;

pub use data::{MOST_BYTES, read_table};
pub use fault::{DataFault, QueryFileFault};
pub use query::{Grammar, read_patterns, read_query};

//! Basic graph patterns of SPARQL 1.1: what a pattern, a query and a row are, how a triple extends a
//! row, and, as a definition, the solutions of a query over triples, with which every evaluation is compared.
//!
//! A triple extends a row by a pattern, and each triple that does gives a row of its own:
//!
//! ```rust
//! for triple in triples {
//!     if let Some(next) = match_triple(alloc, pattern, &row, triple)? {
//!         extend_all(alloc, triples, others, next, out)?;
//!     }
//! }
//! ```
#![tactic(auto)]

mod asking;
pub mod laws;
mod matching;
mod pattern;
mod row;

pub use asking::{askable, bound_places, instance, instance_askable};
pub use matching::{fits, match_triple};
pub use pattern::{Part, Pattern, Query, copy_patterns};
pub use row::Row;

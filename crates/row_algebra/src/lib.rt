//! Lists of rows put together as SPARQL's algebra says (SPARQL 1.1, 18.5): Join, LeftJoin and Distinct. Each row stands as
//! often as SPARQL counts it, and the terms of rows are shared.
//!
//! The join of the two lists on top of a stack takes their place:
//!
//! ```rust
//! let Some((left, right)) = top_two(stack) else {
//!     return Ok(());
//! };
//! let rows = join_rows(alloc, left.as_slice(), right.as_slice())?;
//! stack.push_front(Rows::new(rows))?;
//! ```
#![tactic(auto)]

mod distinct;
mod index;
mod join;
mod key;
pub mod laws;

pub use distinct::distinct_rows;
pub use join::{join_rows, optional_rows};

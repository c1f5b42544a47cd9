//! Queries with groups: blocks of triple patterns, UNION, OPTIONAL and DISTINCT.
//!
//! A group is a tree of blocks (SPARQL 1.1, sections 5.2 and 18.2). It is held as the list of its steps in
//! postfix order, so that it is dropped and evaluated by loops, however deep it is; contracts see the tree.
//!
//! What one step does with a stack of lists of rows, on which each block puts one and the others work:
//!
//! ```rust
//! match step {
//!     Step::Block(_) => push_block(alloc, flags, blocks, stack),
//!     Step::Empty => push_one(alloc, names.len(), stack),
//!     Step::Join => join_top(alloc, stack),
//!     Step::Optional => optional_top(alloc, stack),
//!     Step::Union => unite_top(stack),
//! }
//! ```
#![tactic(auto)]

mod query;
mod step;

pub use query::GroupQuery;
pub use step::{Patterns, Step};

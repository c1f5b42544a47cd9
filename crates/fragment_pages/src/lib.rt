//! Pages of the triples that match a pattern (Triple Pattern Fragments, "Fragments" and "Paging").
//!
//! How many triples stand on a page of this number, where a page has at most three, how many the whole
//! fragment has, and the number of its last page; `None` where there is no such page:
//!
//! ```rust
//! match page(table, slots, number, 3, steps) {
//!     Some(view) => Some([(view.to - view.from) as u64, view.count, view.last]),
//!     None => None,
//! }
//! ```
#![tactic(auto)]

mod view;

pub use view::{PageView, page};

//! The page of a round, gathered from several servers. A round asks each server for the page of one number of a fragment; its
//! joint page has the triples on these pages that no page before them had, each once.
//!
//! A round whose pages are all there, of which a join takes the joint page:
//!
//! ```rust
//! let number = round.number();
//! let alone = join.asks_one();
//! let page = round.joint_page(alloc, alone)?;
//! join.answer(alloc, number, page)
//! ```
#![tactic(auto)]

mod gathering;
mod joining;
mod only;
mod part;

pub use gathering::Gathering;

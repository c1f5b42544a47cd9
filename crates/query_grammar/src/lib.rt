//! The grammar of queries over kinds of token: which tokens are a query, and the first that cannot
//! come.
//!
//! What the kinds of the words of a text come to. The number of a fault is that of a word, or how many there are where the
//! text ends too early:
//!
//! ```rust
//! let kinds = kinds_of(alloc, words)?;
//! match grammar_fault(kinds.as_slice()) {
//!     None => Ok(()),
//!     Some(number) => Err(QueryFault::Bad {
//!         at: place_or(words, number, end),
//!         why: QueryWhy::Grammar,
//!     }),
//! }
//! ```
#![tactic(auto)]

pub mod grammar;
mod group_machine;
pub mod groups;
pub mod kind;
pub mod laws;
mod machine;

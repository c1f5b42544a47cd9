//! Queries: SPARQL 1.1 basic graph patterns with prefixes, lists and the short forms of terms.
//!
//! A query has its triple patterns, the names of its variables and blank nodes, and the numbers of
//! those names that it selects. The query of the bytes of a file, or its first fault and the place of it:
//!
//! ```rust
//! match parse(alloc, &bytes) {
//!     Ok(query) => Ok(query),
//!     Err(QueryFault::Bad { at, why }) => Err(QueryFileFault::Bad {
//!         at,
//!         why: GroupWhy::Basic(why),
//!     }),
//!     Err(QueryFault::OutOfMemory) => Err(QueryFileFault::OutOfMemory),
//! }
//! ```
#![tactic(auto)]

mod build;
mod fault;
mod item;
pub mod laws;
mod limit;
mod names;
mod prefixes;
mod reading;
mod select;
mod token;
mod triple;

pub use build::{block_patterns, check_terms, chosen, listed};
pub use fault::{QueryFault, QueryWhy};
pub use limit::{MOST_PATTERNS, PatternCount, count_patterns};
pub use names::Names;
pub use prefixes::{Prefixes, prefixes_of};
pub use reading::{parse, place_or, query_of_words, token_words};
pub use select::{before_brace, before_select, has_star, is_plain};
pub use token::{Token, TokenKind, tokens};

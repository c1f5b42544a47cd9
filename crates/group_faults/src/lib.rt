//! The first fault of the text of a query with groups.
//!
//! `group_words` reads the tokens of a text that the grammar of groups reads, and `check_groups` finds the
//! first fault of what they say. A text may nest groups as deep as it likes: neither recurses.
//!
//! The tokens of a text, and its first fault with these prefixes, where `body` has those from SELECT on:
//!
//! ```rust
//! let words = group_words(alloc, text)?;
//! let (prologue, body) = words.split_at(before_select(words));
//! let prefixes = prefixes_of(alloc, prologue)?;
//! check_groups(alloc, &prefixes, words, body)?;
//! ```
#![tactic(auto)]

mod checks;
mod fault;
mod limits;
mod shared;
mod sign;
mod tokens;

pub use checks::check_groups;
pub use fault::{GroupFault, GroupWhy, as_group_fault};
pub use limits::MOST_OPEN;
pub use sign::{Sign, is_other, sign_of};
pub use tokens::group_words;

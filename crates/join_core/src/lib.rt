//! The join of the patterns of a query over the pages of their fragments: what to ask next, and the
//! rows that come of it. It goes by the greedy strategy of Verborgh et al. (2016): the pattern
//! whose fragment is the smallest goes first.
//!
//! A page that `next_ask` asked for. The caller fetches it, here of a server in memory, and may have
//! other asks out meanwhile; rows that come of it are taken by `take_row`:
//!
//! ```rust
//! let page = page_at(alloc, pages, &ask.address)?;
//! Ok(join.answer(alloc, ask.ticket, page)?)
//! ```
#![tactic(auto)]

mod choice;
mod evaluates;
mod first;
mod join;
mod level;
mod levels;
mod making;
mod next_page;
mod node;
mod opening;
mod round_join;
mod started;

pub use join::Join;
pub use round_join::RoundJoin;

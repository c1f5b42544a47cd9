//! Pages of the triples of a fragment that match one of some rows (bindings-restricted Triple Pattern Fragments,
//! brTPF).
//!
//! The triples of the first pages, one page behind the other; there is no page past the last:
//!
//! ```rust
//! for k in 1..10u64 {
//!     let Some(page) = restricted_page(alloc, table, slots, rows, k, LARGEST_PAGE, steps)? else {
//!         return Ok((triples, k - 1));
//!     };
//!     triples.extend_from_slice(&page.triples)?;
//! }
//! ```
#![tactic(auto)]

mod list;
mod page;
mod patterns;
mod scan;
mod sieve;

pub use page::{ALWAYS_LISTED, RestrictedPage, restricted_page};

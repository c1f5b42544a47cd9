//! The page of a fragment, as a client holds it: its triples, and what its controls tell; and why a body is none.
//!
//! What is told of a page in a line: how many triples it has, how many its fragment, and the address of the next page, which
//! `next_text` takes from `page.next`:
//!
//! ```rust
//! let triples = page.triples.as_slice().len();
//! let next = next_text(page);
//! Ok(format!(in alloc; "{triples} {} {next}", page.count)?)
//! ```
#![tactic(auto)]

mod page;

pub use page::{Page, PageFault, TripleList};

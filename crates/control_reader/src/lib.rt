//! Reading the page of a fragment: its triples, and the controls that tell how to go on.
//!
//! The body of a reply is read as the page of the address that it was asked for, or its first fault is told:
//!
//! ```rust
//! match read_page(alloc, body, address) {
//!     Ok(page) => page_text(alloc, &page, show),
//!     Err(PageFault::OutOfMemory) => Err(CaseFault::OutOfMemory),
//!     Err(fault) => debug_text(alloc, &fault),
//! }
//! ```
#![tactic(auto)]

mod ascending;
mod contents;
pub mod laws;
mod own;
mod read;

pub use fragment_page::{Page, PageFault, TripleList};
pub use laws::{a_body_is_one_page, pages_keep_authority};
pub use read::read_page;

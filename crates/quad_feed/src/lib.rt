//! N-Quads text that comes in pieces, cut at any places (RDF 1.1 N-Quads).
//!
//! Each line is read when it has ended, and the whole text is never kept:
//!
//! ```rust
//! let mut feed = QuadFeed::new(alloc, longest);
//! for piece in text.chunks(length.max(1)) {
//!     feed.feed(piece)?;
//! }
//! feed.finish()
//! ```
#![tactic(auto)]

mod feed;
pub mod laws;

pub use feed::QuadFeed;

//! The metadata of a page as quads, each with terms of its own (Triple Pattern Fragments, "Metadata" and "Controls").
//!
//! The server writes the same metadata as lines (`MetadataLines` of `hydra_controls`), so no call of the program comes here.
//! Cases compare the lines with these quads:
//!
//! ```rust
//! match metadata(alloc, config, slots, rows, page, count, version) {
//!     Ok(quads) => written(alloc, quads.as_slice()),
//!     Err(_) => Err(CaseFault::OutOfMemory),
//! }
//! ```
#![tactic(auto)]

mod pages;
mod quad_text;
mod table;
mod term_text;
mod whole_text;

pub use pages::metadata;

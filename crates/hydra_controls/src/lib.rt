//! The addresses of a fragment's pages, and the metadata that a page has beside its triples
//! (Triple Pattern Fragments, "Metadata" and "Controls").
//!
//! The lines of a page are made one by one as they are sent, so a response tells its length before there is any of them.
//! Here are those of a page that no rows restrict, behind triples whose lines have so many bytes:
//!
//! ```rust
//! let version = snapshot.number();
//! let metadata = MetadataLines::new(alloc, config, slots, &[], number, view.count, version)?;
//! let bytes = triples_length(table, &triples);
//! let length = bytes + metadata.total_length();
//! ```
#![tactic(auto)]

mod config;
mod cut;
mod facts;
mod line_table;
mod line_text;
mod lines;
mod pages;
mod text_parts;
mod whole;

pub use config::Config;
pub use cut::Cut;
pub use facts::PageFacts;
pub use lines::MetadataLines;
pub use pages::address;
pub use text_parts::TextParts;

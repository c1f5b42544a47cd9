//! The controls of a page that tpf's own server made, read by comparing bytes (Triple Pattern Fragments, "Metadata" and
//! "Controls").
//!
//! Such a page ends with 19 to 21 lines, of which all but a few numbers and addresses are known before they are read. So
//! they are compared, and no quads are made of them. What is told of such a page, and `other` for any other one:
//!
//! ```rust
//! match own_controls(body.as_slice(), &address) {
//!     Some(own) => own_text(alloc, &own),
//!     None => word_text(alloc, "other"),
//! }
//! ```
#![tactic(auto)]

mod digits;
mod lines;
mod own;
mod piece;
mod section;
mod start;

pub use own::{OwnControls, own_controls};

//! The controls of a page: what the quads of a body tell of the page (Triple Pattern Fragments, "Metadata" and
//! "Controls"; Hydra core vocabulary; VoID).
//!
//! The quads of a body are gone through once, and tell the number of triples, the form, the next page and the version; the
//! marks say which of the quads are data:
//!
//! ```rust
//! let parts = match read_controls(alloc, quads.as_slice(), address) {
//!     Ok(parts) => parts,
//!     Err(fault) => return Err(fault),
//! };
//! let PageControls { told, marks } = parts;
//! let Told {
//!     count,
//!     form,
//!     next,
//!     version,
//! } = told;
//! ```
#![tactic(auto)]

mod count;
mod form;
mod link;
mod told;

pub use link::is_home;
pub use told::{PageControls, Told, read_controls};

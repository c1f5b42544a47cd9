//! A text that contracts see as its bytes, and the one error of what takes memory, with the call that asks for three values
//! at once where each may have wanted it.
//!
//! The names of a form, each a text of its own:
//!
//! ```rust
//! let names = all_three(
//!     Text::copy(alloc, "subject"),
//!     Text::copy(alloc, "predicate"),
//!     Text::copy(alloc, "object"),
//! );
//! match names {
//!     Ok((subject, predicate, object)) => Ok(Form {
//!         template,
//!         subject,
//!         predicate,
//!         object,
//!     }),
//!     Err(_) => Err(CaseFault::OutOfMemory),
//! }
//! ```
#![tactic(auto)]

mod memory;
mod text;

pub use memory::{OutOfMemory, all_three};
pub use text::Text;

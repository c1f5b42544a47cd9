//! How a command of `tpf` ends: what came of it, its exit status, and the line on the standard error.
//!
//! What came of a command is an `Ending`, and `say` writes the line of it and gives its status:
//!
//! ```rust
//! let status = say(alloc, err, &ending);
//! drop(ending);
//! status.code()
//! ```
#![tactic(auto)]

mod ending;
mod lines;
mod names;
mod saying;
mod status;

pub use ending::Ending;
pub use lines::write_sizes;
pub use saying::say;
pub use status::Status;

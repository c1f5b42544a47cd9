//! The command line of `tpf`: the words, the commands, and what is said at the end of each; and the same as a process of the
//! system.
//!
//! A whole run in memory: `words` are those of a command line with the program's name, the shelf has the
//! files, the wire the links, and the two sinks take what the output and the standard error would.
//!
//! ```rust
//! let (out, err) = (&mut outcome.out, &mut outcome.err);
//! run(rt, alloc, words, shelf, wire, out, err, left)
//! ```
//!
//! A program of its own where it is started without words, and else `tpf` over what the system gives it:
//!
//! ```rust
//! fn main(rt: HostRuntime) -> ExitCode {
//!     match words_of(&rt) {
//!         Ok(words) if words.len() < 2 => report(&rt),
//!         _ => run_process(&rt),
//!     }
//! }
//! ```
#![tactic(auto)]

mod commands;
mod process;
mod top;

pub use process::{run_process, words_of};
pub use top::{Inside, run};

//! The words of the command line of `tpf`: which command they are, with its options.
//!
//! The words with the program's name first are a command, which is done, or none, and then the usage is told:
//!
//! ```rust
//! match command_of(alloc, words) {
//!     Err(_) => Ending::NoWords,
//!     Ok(None) => Ending::Usage,
//!     Ok(Some(command)) => obey(rt, alloc, command, shelf, wire, out, inside),
//! }
//! ```
#![tactic(auto)]

mod arguments;
mod command;
mod federate;
mod from;
mod limits;
mod values;

pub use command::{ClientWords, Command, FederateWords, LocalWords, QueryWords, ServeWords};
pub use from::command_of;
pub use limits::{
    LARGEST_BODY, LONGEST_TYPED, MOST_BUDGET, MOST_CONNECTIONS, MOST_RETRIES, MOST_WINDOW,
    RAREST_FAILURE,
};

//! Runs of the whole program that rows describe: their words and files, what fails in them, and what is shown of how they end.
//! What runs the program is handed in, so that this stands below it:
//!
//! ```rust
//! let setup = setup_of(program, alloc, case)?;
//! let show = show_of(alloc, case)?;
//! let outcome = wire.outcome(program, alloc, case, &setup)?;
//! show.outcome(alloc, &outcome)
//! ```
#![tactic(auto)]

mod outcomes;
mod program;
mod sent;
mod setups;

pub use outcomes::{Outcome, Show, show_of};
pub use program::{Runs, ended, ended_by, ended_on, seeded};
pub use sent::push_sent;
pub use setups::{Failure, Setup, failure_of, setup_of, words_of};

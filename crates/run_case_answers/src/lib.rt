//! What rows of command lines and of runs of the whole program are answered with: over a wire that gives no link, over scripts,
//! or in one process to one server or several, with outputs, dials and calls that fail. What runs the program is handed in, so
//! that all of this stands below it:
//!
//! ```rust
//! "run" => alone(self, alloc, case),
//! "traffic" => traffic(self, alloc, case),
//! "scripted" => shown_over(&Scripted, self, alloc, case),
//! ```
#![tactic(auto)]

mod changing_shelf;
mod commands;
mod door;
mod faults;
mod loops;
mod rows;
mod wires;

pub use commands::command;
pub use faults::{each_byte, each_write, fronts};
pub use loops::{Looped, Together, each_call, sent_over};
pub use rows::{alone, traffic};
pub use wires::{Over, Scripted, changing, shown_over};

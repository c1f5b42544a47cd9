//! Runs of this program as processes: servers and clients that it starts, and what is seen of them over real sockets.
//!
//! The words that come behind the name of a process make it the program `tpf`; without a word it answers its rows, and makes
//! these runs:
//!
//! ```rust
//! let all_right = answer_rows(&rt);
//! let reported = report(&rt);
//! ```
//!
//! Each run is a row of `processes.jsonl`, with steps that are taken in their order. They start programs, speak on connections
//! to servers, and print what is to be seen.
#![tactic(auto)]

mod answers;
mod connections;
mod files;
mod held;
mod programs;
mod rows;
mod steps;

pub use rows::report;

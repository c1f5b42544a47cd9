//! Cases of `join_core`, over the pages of a server in memory, and of `federation`, over pages of several servers that were
//! worked out by hand.
//!
//! The rows stand in the program `library_cases`, which has them answered:
//!
//! ```rust
//! let evaluations = evaluation_cases::answer_rows(&rt);
//! ```
#![tactic(auto)]

mod cases;
mod fault;
mod federations;
mod joins;
mod lines;
mod listed;
mod pages;
mod runs;
mod seen;
mod served;
mod turns;

use case_rows::{Answers, Case, CaseFault, run};
use std::alloc::Global;
use std::rt::Files;

/// The calls that rows name.
struct Calls;

impl Answers for Calls {
    fn answer(&self, alloc: Global, call: &str, case: &mut Case<'_>) -> Result<String, CaseFault> {
        match call {
            "join" => cases::join(alloc, case),
            "federation" => cases::federation(alloc, case),
            _ => Err(CaseFault::Row),
        }
    }
}

/// Answers the rows, prints those that are wrong and how many each file has, and says whether none is wrong.
pub fn answer_rows<R: Files + Print + AllocGlobal>(rt: &R) -> bool {
    run(
        rt,
        &Calls,
        "evaluation_names.json",
        &["joins.jsonl", "federations.jsonl"],
    )
}

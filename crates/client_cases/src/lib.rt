//! Cases of `exchange`, a request and its reply on one link, and of `request_pool`, many of them over one wire, both in
//! memory.
//!
//! The rows stand in the program `library_cases`, which has them answered:
//!
//! ```rust
//! let clients = client_cases::answer_rows(&rt);
//! ```
#![tactic(auto)]

mod cuts;
mod ending;
mod exchanges;
mod polling;
mod pooling;
mod stepping;
mod told;
mod wires;

use case_rows::{Answers, Case, CaseFault, run};
use std::alloc::Global;
use std::rt::Files;

/// The calls that rows name.
struct Client;

impl Answers for Client {
    fn answer(&self, alloc: Global, call: &str, case: &mut Case<'_>) -> Result<String, CaseFault> {
        match call {
            "exchange" => exchanges::exchanges(alloc, case),
            "cuts" => cuts::cuts(alloc, case),
            "pool" => pooling::pool(alloc, case),
            _ => Err(CaseFault::Row),
        }
    }
}

/// Answers the rows, prints those that are wrong and how many each file has, and says whether none is wrong.
pub fn answer_rows<R: Files + Print + AllocGlobal>(rt: &R) -> bool {
    run(
        rt,
        &Client,
        "client_names.json",
        &["exchanges.jsonl", "pools.jsonl"],
    )
}

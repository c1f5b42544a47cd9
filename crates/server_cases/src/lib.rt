//! Cases of `http_wire`, requests and replies over any cuts and what is written, and of `tpf_server`, conversations over one
//! connection.
//!
//! The rows stand in the program `library_cases`, which has them answered:
//!
//! ```rust
//! let servers = server_cases::answer_rows(&rt);
//! ```
#![tactic(auto)]

mod connections;
mod conversations;
mod replies;
mod requests;
mod servers;

use case_rows::{Answers, Case, CaseFault, run};
use std::alloc::Global;
use std::rt::Files;

/// The calls that rows name.
struct Http;

impl Answers for Http {
    fn answer(&self, alloc: Global, call: &str, case: &mut Case<'_>) -> Result<String, CaseFault> {
        match call {
            "requests" => requests::requests(alloc, case),
            "held" => requests::held(alloc, case),
            "write_request" => requests::written_request(alloc, case),
            "write_head" => requests::written_head(alloc, case),
            "reply" => replies::reply(alloc, case),
            "steps" => replies::steps(alloc, case),
            "kept" => replies::kept(alloc, case),
            "conversation" => conversations::conversation(alloc, case),
            _ => Err(CaseFault::Row),
        }
    }
}

/// Answers the rows, prints those that are wrong and how many each file has, and says whether none is wrong.
pub fn answer_rows<R: Files + Print + AllocGlobal>(rt: &R) -> bool {
    run(
        rt,
        &Http,
        "server_names.json",
        &[
            "requests.jsonl",
            "replies.jsonl",
            "conversations.jsonl",
            "rows.jsonl",
        ],
    )
}

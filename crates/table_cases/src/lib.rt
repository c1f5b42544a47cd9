//! Cases of the table of triples, of fragments and their pages, and of generated data.
//!
//! The rows stand in the program `library_cases`, which has them answered:
//!
//! ```rust
//! let tables = table_cases::answer_rows(&rt);
//! ```
#![tactic(auto)]

mod fragments;
mod generated;
mod tables;

use case_rows::{Answers, Case, CaseFault, run};
use std::alloc::Global;
use std::rt::Files;

/// The calls that rows name.
struct Data;

impl Answers for Data {
    fn answer(&self, alloc: Global, call: &str, case: &mut Case<'_>) -> Result<String, CaseFault> {
        match call {
            "served" => tables::triples(alloc, case),
            "table" => tables::size(alloc, case),
            "generated" => generated::generated(alloc, case),
            "generated_cut" => generated::cut(alloc, case),
            "generated_calls" => generated::calls(alloc, case),
            "id" => tables::id(alloc, case),
            "count" => tables::count(alloc, case),
            "page" => fragments::page_sizes(alloc, case),
            _ => Err(CaseFault::Row),
        }
    }
}

/// Answers the rows, prints those that are wrong and how many each file has, and says whether none is wrong.
pub fn answer_rows<R: Files + Print + AllocGlobal>(rt: &R) -> bool {
    run(
        rt,
        &Data,
        "table_names.json",
        &["tables.jsonl", "fragments.jsonl", "generated.jsonl"],
    )
}

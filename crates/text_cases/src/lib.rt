//! Cases of `rdf_terms` and `nquads_text`: terms, their order, and N-Quads text.
//!
//! The rows stand in the program `library_cases`, which has them answered:
//!
//! ```rust
//! let texts = text_cases::answer_rows(&rt);
//! ```
#![tactic(auto)]

mod orders;
mod quads;
mod terms;

use case_rows::{Answers, Case, CaseFault, run};
use std::alloc::Global;
use std::rt::Files;

/// The calls that rows name.
struct Texts;

impl Answers for Texts {
    fn answer(&self, alloc: Global, call: &str, case: &mut Case<'_>) -> Result<String, CaseFault> {
        match call {
            "nquads" => quads::nquads(alloc, case),
            "feed" => quads::feed(alloc, case),
            "term" => terms::term(alloc, case),
            "is" => terms::is(alloc, case),
            "lowered" => terms::lower_case(alloc, case),
            "compare" => orders::compare(alloc, case),
            "ascending" => orders::ascending(alloc, case),
            "triples" => orders::triples(alloc, case),
            "matches" => orders::matches(alloc, case),
            _ => Err(CaseFault::Row),
        }
    }
}

/// Answers the rows, prints those that are wrong and how many each file has, and says whether none is wrong.
pub fn answer_rows<R: Files + Print + AllocGlobal>(rt: &R) -> bool {
    run(
        rt,
        &Texts,
        "text_names.json",
        &["terms.jsonl", "nquads.jsonl"],
    )
}

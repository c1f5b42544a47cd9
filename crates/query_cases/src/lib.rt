//! Cases of queries: their tokens, words, grammar, patterns and groups, the solutions of a basic graph pattern, and how the
//! rows of blocks are put together: Join, LeftJoin, Union and Distinct.
//!
//! The rows stand in the program `library_cases`, which has them answered:
//!
//! ```rust
//! let queries = query_cases::answer_rows(&rt);
//! ```
#![tactic(auto)]

mod answers;
mod groups;
mod queries;
mod rows;
mod solved;
mod words;

use case_rows::{Answers, Case, CaseFault, run};
use std::alloc::Global;
use std::rt::Files;

/// The calls that rows name.
struct Calls;

impl Answers for Calls {
    fn answer(&self, alloc: Global, call: &str, case: &mut Case<'_>) -> Result<String, CaseFault> {
        match call {
            "query" => queries::query(alloc, case),
            "tokens" => queries::token_places(alloc, case),
            "pieces" => words::piece_places(alloc, case),
            "words" => words::words(alloc, case),
            "grammar" => words::grammar(alloc, case),
            "group_grammar" => words::group_grammar(alloc, case),
            "group" => groups::group(alloc, case),
            "asked" => groups::asked(alloc, case),
            "word_text" => words::said(alloc, case),
            "solutions" => solved::solved(alloc, case),
            "answers" => answers::answers(alloc, case),
            _ => Err(CaseFault::Row),
        }
    }
}

/// Answers the rows, prints those that are wrong and how many each file has, and says whether none is wrong.
pub fn answer_rows<R: Files + Print + AllocGlobal>(rt: &R) -> bool {
    run(
        rt,
        &Calls,
        "query_names.json",
        &[
            "words.jsonl",
            "queries.jsonl",
            "groups.jsonl",
            "algebra.jsonl",
            "solutions.jsonl",
        ],
    )
}

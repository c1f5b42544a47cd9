//! Cases of `template_fill`, `hydra_controls`, `metadata_quads`, `own_controls` and `control_reader`: addresses, templates, explicit
//! forms, and the metadata of pages as text and read back.
//!
//! The rows stand in the program `library_cases`, which has them answered:
//!
//! ```rust
//! let pages = page_cases::answer_rows(&rt);
//! ```
#![tactic(auto)]

mod addresses;
mod controls;
mod metadata;
mod pages;
mod slots;
mod templates;

use case_rows::{Answers, Case, CaseFault, run};
use std::alloc::Global;
use std::rt::Files;

/// The calls that rows name.
struct Web;

/// The calls of `template_fill`, and those of `hydra_controls`.
fn answer_below(alloc: Global, call: &str, case: &mut Case<'_>) -> Result<String, CaseFault> {
    match call {
        "address" => addresses::address(alloc, case),
        "same_authority" => addresses::same_authority(alloc, case),
        "page_address" => addresses::page(alloc, case),
        "expand" => templates::expand(alloc, case),
        "names" => templates::names(alloc, case),
        "form" => templates::form(alloc, case),
        "selection_form" => templates::selection_form(alloc, case),
        "explicit" => slots::explicit_form(alloc, case),
        "row" => slots::row(alloc, case),
        "row_length" => slots::length(alloc, case),
        "config" => controls::config(alloc, case),
        "reload" => controls::reload(alloc, case),
        "reads_rows" => controls::reads_rows(alloc, case),
        "fragment_address" => controls::fragment_address(alloc, case),
        _ => Err(CaseFault::Row),
    }
}

impl Answers for Web {
    fn answer(&self, alloc: Global, call: &str, case: &mut Case<'_>) -> Result<String, CaseFault> {
        match call {
            "metadata" => metadata::metadata_lines(alloc, case),
            "read_back" => pages::read_back(alloc, case),
            "page" => pages::page(alloc, case),
            "own" => pages::own(alloc, case),
            _ => answer_below(alloc, call, case),
        }
    }
}

/// Answers the rows, prints those that are wrong and how many each file has, and says whether none is wrong.
pub fn answer_rows<R: Files + Print + AllocGlobal>(rt: &R) -> bool {
    run(
        rt,
        &Web,
        "page_names.json",
        &["addresses.jsonl", "controls.jsonl", "pages.jsonl"],
    )
}

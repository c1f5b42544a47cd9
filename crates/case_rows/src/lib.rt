//! Cases as rows of data: a program's files of rows are read, each row is answered, and what differs from the
//! wanted answer is printed.
//!
//! A row is a JSON object on a line. A line that begins with a blank belongs to the row above it, and an empty line
//! to none:
//!
//! ```text
//! {"call": "address", "text": "http://e", "wanted": "http://e/ e 80 /"}
//! ```
//!
//! `call` names what is called, `wanted` is the answer as a text, and `or`, where it stands, another answer that is
//! as good. The other members are what it is called with; each of them is asked for, or the row is a fault. Texts are
//! written as [`Case::bytes`] says. A library of cases has one type that answers the calls, and hands it to [`run`]:
//!
//! ```rust
//! run(rt, &Texts, "text_names.json", &["terms.jsonl", "nquads.jsonl"])
//! ```
#![tactic(auto)]

mod answer_text;
mod case;
mod fault;
mod files;
mod names;
mod results;
mod rows;
mod tally;
mod text;
mod told;
mod values;

pub use answer_text::{
    bytes_text, debug_text, number_or_none, number_text, numbers_text, push_number, text_of_bytes,
    truth_text, word_text,
};
pub use case::Case;
pub use fault::CaseFault;
pub use files::{Answers, run};
pub use results::sorted_result;

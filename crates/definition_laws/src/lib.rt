//! Theorems about the definitions of the crates below, which no code needs: that they say what they
//! are meant to say.
//!
//! Each stands as the contract of a function that does nothing and that nothing calls, a law. A
//! definition of solutions, say, goes over triples in their order, and a law tells that the order is
//! free:
//!
//! ```rust
//! pub fn triple_order_is_free()
//!     ensures { TripleOrderIsFree }
//! {}
//! ```
#![tactic(auto)]

mod addresses;
mod blocks;
mod ends;
mod expressions;
mod groups;
mod metadata;
mod numbers;
mod patterns;
mod pools;
mod requests;
mod runs;
mod solutions;
mod statements;
mod terms;
mod tokens;

pub use addresses::{
    address_reads_back, explicit_forms_are_text, explicit_forms_read_back, rows_read_back,
    versions_are_numbered,
};
pub use blocks::{blocks_are_cut, blocks_of_one_are_rows};
pub use ends::{a_request_is_read, marks_go_on, response_goes_on};
pub use expressions::{
    alive_begins, beginning_is_decided, left_is_exact, matching_is_decided, nullable_is_exact,
};
pub use groups::{one_group_query, plain_texts_agree, steps_are_trees};
pub use metadata::metadata_is_rdf;
pub use numbers::numbers_read_back;
pub use patterns::{as_produced, one_query, read_as_produced, terms_as_written};
pub use pools::{
    a_reply_is_an_answer, an_honest_reply_is_refused_as_too_long_alone, links_are_closed,
};
pub use requests::{a_request_stays, heads_are_read};
pub use runs::{a_run_asks_the_plan, a_run_gives_the_solutions};
pub use solutions::{
    data_sets_are_distinct, extension_is_one, extensions_commute, fragments_suffice,
    pattern_order_is_free, triple_order_is_free,
};
pub use statements::one_of_two;
pub use terms::{
    fragment_is_one, no_other_fragment, no_rows_select_all, order_is_total, order_tells_apart,
    selection_is_one, triple_order_is_total,
};
pub use tokens::{one_fault, one_group_fault, one_reading};

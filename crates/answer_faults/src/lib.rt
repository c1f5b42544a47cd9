//! What came of a query: why it has no whole answer, and the numbers of one whose answer is counted alone.
#![tactic(auto)]

mod fault;

pub use fault::{AnswerFault, Counts};

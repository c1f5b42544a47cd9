//! What a query asks of servers. Rows go in blocks, a block asks each pattern for a page in a round,
//! one address for each server, and all rounds that a query needs are its plan. Here stand the
//! blocks, the rounds, the definition of the plan over what servers have, and what every evaluation
//! of a query promises of its asks and its rows.
//!
//! The rows that a page made, but for those under which a pattern cannot be asked for, cut into
//! blocks, each of which a join takes for one of its nodes:
//!
//! ```rust
//! let kept = askable_rows(alloc, others, rows)?;
//! for block in cut_rows(alloc, cut, others, kept)? {
//! ```
#![tactic(auto)]

mod asking;
mod binding;
mod block;
mod evaluation;
mod found;
mod joint_page;
mod pattern_list;
mod round;

pub use asking::first_round;
pub use block::{BlockSize, Cut, LONGEST_TARGET, RowBlock, cut_rows};
pub use evaluation::{Answered, Ask, Evaluates};
pub use found::{askable_rows, expand, expand_held};
pub use joint_page::JointPage;
pub use pattern_list::PatternList;
pub use round::{FormList, Round, RoundAsk, TripleSet};

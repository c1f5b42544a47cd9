//! A query over a wire: the pages of servers are asked for as an evaluation of the query wants them, and its rows are written
//! as the text of a result or gathered in a list. Whose pages are joined, and how, the evaluation says: that over one server is
//! `Join` of `join_core` (calls in `single_query`), that over several `Federation` of `federation` (in `federated_query`):
//!
//! ```rust
//! evaluate_to::<_, Join, _, _>(rt, alloc, query, slice::from_ref(start), options, wire, out)
//! ```
#![tactic(auto)]

mod asks;
mod calls;
mod fault;
pub mod laws;
mod options;
mod results;
mod rows;
mod start;
mod turns;

pub use calls::{evaluate_rows, evaluate_to};
pub use fault::{ClientFault, of_sink};
pub use options::{Options, Report};
pub use request_plan::BlockSize;
pub use rows::GATHERED;

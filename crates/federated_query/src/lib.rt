//! One query over several servers: their pages are asked for and joined together, and the text of the solutions over the union
//! of what they hold is written. A triple that several of them hold counts once, wherever it stands on their pages.
//!
//! A query, the address of any fragment of each server, no two of one authority, a wire to dial them and a sink for the text:
//!
//! ```rust
//! match federate(rt, alloc, &query, starts, options, wire, out) {
//!     Ok(report) => Ok(report),
//!     Err(fault) => Err(AnswerFault::Client(fault)),
//! }
//! ```
#![tactic(auto)]

mod call;

pub use call::federate;

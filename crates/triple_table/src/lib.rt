//! The triples that are served, and the table that lists those of a pattern.
//!
//! A term is asked for by its id, and the triples of a pattern are a range of the table. Whether a triple stands at
//! a place of a range:
//!
//! ```rust
//! let ids = table.at(range, i);
//! table.term(ids.subject).same(&triple.subject)
//!     && table.term(ids.predicate).same(&triple.predicate)
//!     && table.term(ids.object).same(&triple.object)
//! ```
#![tactic(auto)]

mod build;
mod choice;
mod data_set;
mod gather;
mod genid;
mod ids;
mod labels;
pub mod laws;
mod ranking;
mod recent;
mod rows;
mod table;
mod term_list;

pub use choice::Choice;
pub use data_set::{BuildFault, served};
pub use ids::{IdPattern, IdTriple, Order, Range};
pub use table::Table;

//! Fragments and solutions found the plain way, by the programs of their definitions: a filter over a list, in the order of
//! the pattern's kind, and nested matching over a list. The program's own searches, pages and evaluations are compared with these.
//!
//! A page of the table beside the fragment of the same data found the plain way:
//!
//! ```rust
//! let quads = quads_of(alloc, DATA)?;
//! let triples = served(alloc, &quads, &Choice::Union, host())?;
//! let table = Table::build(alloc, &quads, &Choice::Union, host(), 100)?;
//! let slots = slots(alloc, texts)?;
//! let plain = plain_fragment(alloc, &triples, &slots)?;
//! Ok((shows_all(&table, &slots, &plain), plain.len()))
//! ```
//!
//! The solutions of a query over triples, the query being read by a parser:
//!
//! ```rust
//! let Ok(query) = parse(alloc, text) else {
//!     return Err(CaseFault::Row);
//! };
//! match solutions(alloc, triples, &query) {
//!     Ok(rows) => rows_text(alloc, &query, rows.as_slice()),
//!     Err(_) => Err(CaseFault::OutOfMemory),
//! }
//! ```
#![tactic(auto)]

mod order;
mod plain;
mod solve;

pub use plain::plain_fragment;
pub use solve::solutions;

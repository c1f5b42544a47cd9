//! One query over one server: its pages are asked for, joined, and written as the text of a result or gathered in a list.
//!
//! A query that has no groups, the address of any fragment of the server, a wire to dial it and a sink for the text of the
//! result. `query` is imported as `query_server` here:
//!
//! ```rust
//! Asked::Plain(query) => {
//!     let _patterns = query.patterns();
//!     answered(query_server(rt, alloc, &query, start, options, wire, out))
//! }
//! ```
#![tactic(auto)]

mod call;

pub use call::{collect, query};

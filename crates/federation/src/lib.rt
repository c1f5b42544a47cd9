//! The evaluation of one query over several servers: a triple that several of them hold, or that comes again on a later page,
//! counts once, and the rows are the solutions over the union of what they hold.
//!
//! The evaluation of a query over the servers with some forms. What `next_ask` asks for the caller fetches, and may have other
//! pages out meanwhile, from any of the servers:
//!
//! ```rust
//! let forms = form_list(alloc, templates)?;
//! Ok(Federation::begin(alloc, query, forms, window, BlockSize::one())?)
//! ```
#![tactic(auto)]

mod evaluates;
mod evaluation;
mod rounds;

pub use evaluation::Federation;

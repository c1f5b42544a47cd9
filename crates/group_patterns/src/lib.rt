//! A query with groups over a wire: each block is asked as a query of its own, the rows of the blocks are put together in
//! memory, and the text of the result is written.
//!
//! A query with groups, the address of any fragment of the server, what bounds the call, a wire to dial the server and a
//! sink for the text:
//!
//! ```rust
//! let mut wire: LoopWire<FragmentConnection> = LoopWire::new(alloc, server, asked.seed, failing);
//! let ended = answer(rt, alloc, query, start, options, &mut wire, out);
//! ```
#![tactic(auto)]

mod asking;
mod block;
mod calls;
mod fault;
mod text;

pub use calls::answer;

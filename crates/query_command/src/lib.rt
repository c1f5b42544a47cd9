//! The commands that query: a server or several over a wire, and a file or generated data through a server in the same process.
//!
//! The query of a file is asked of a file of data: `asked` is a `LocalQuery` with their names, and the wire
//! between client and server is left for who wants to look at it.
//!
//! ```rust
//! let mut made = None;
//! let answer = local(rt, alloc, asked, shelf, out, &mut made);
//! drop(mem::replace(inside, inside_of(made)));
//! answer
//! ```
//!
//! The query of a file is asked of the servers of several start pages, no two of one authority, and answered over the union of what
//! they hold:
//!
//! ```rust
//! let options = options_of(asked.client);
//! let (query, urls) = (asked.query, asked.urls.as_slice());
//! query_servers(rt, alloc, query, urls, &options, shelf, wire, out)
//! ```
#![tactic(auto)]

mod blocks;
mod fault;
mod generated_query;
mod group_wire;
pub mod laws;
mod local_query;
mod server_query;
mod servers_query;
mod start;

pub use generated_query::query_generated;
pub use local_query::{LocalQuery, local};
pub use server_query::query;
pub use servers_query::query_servers;

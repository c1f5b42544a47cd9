//! Servers of N-Quads text in one process, that several tests and libraries of cases ask.
//!
//! The server that a row sets up:
//!
//! ```rust
//! match server_of(alloc, data.as_str(), page) {
//!     Ok(server) => Ok(server),
//!     Err(_) => Err(CaseFault::Row),
//! }
//! ```
#![tactic(auto)]

mod servers;

pub use servers::{BASE, ServerFault, config_at, host, quads_of, server_of, table_of};

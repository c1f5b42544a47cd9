//! A server of Triple Pattern Fragments as the server's loop (`serve_loop`) and the transport in one
//! process, or wire (`loop_wire`), take one.
//!
//! Such a wire: at its other end stands the server, and each of its dials fails that is so many times `fail_every`:
//!
//! ```rust
//! let failing = Failing::Dials(asked.fail_every);
//! let mut wire: LoopWire<FragmentConnection> = LoopWire::new(alloc, server, asked.seed, failing);
//! ```
//!
//! Behind a `LoopWire<FragmentConnection, Several>` several servers stand, each at the host and the port of
//! its base.
#![tactic(auto)]

mod connection;
mod data_set;
pub mod laws;
mod responds;
mod server;
mod stands;

pub use connection::FragmentConnection;
pub use data_set::DataSet;
pub use laws::wires_to_servers_are_honest;
pub use server::FragmentServer;

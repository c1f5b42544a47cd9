//! Servers of the fragments of a file and of generated data, and the supply of the same file for the reloads of its server.
//!
//! The server of the file with a name, where its fragments stand below a base:
//!
//! ```rust
//! let config = config_of(base, page_size, reload, rows);
//! let mut server = match server_of_file(alloc, shelf, name, choice, config) {
//!     Ok(server) => server,
//!     Err(fault) => return Err(ServiceFault::Data(fault)),
//! };
//! ```
//!
//! The server of the data of so many persons is that of their table, under any configuration:
//!
//! ```rust
//! let table = table_of(alloc, persons, &config)?;
//! let server = Server::new(alloc, table, config)?;
//! Ok(FragmentServer::new(server))
//! ```
#![tactic(auto)]

mod generated;
pub mod laws;
mod server;
mod supply;

pub use generated::server_of_generated;
pub use server::server_of_file;
pub use supply::FileSupply;

//! A server of Triple Pattern Fragments from bytes to bytes: the response to what a connection brings.
//! Where its configuration reads rows, a request may restrict a fragment by up to `MOST_ROWS` (64) of
//! them (brTPF), and is answered with what they leave, page by page.
//!
//! A connection is made by `Connection::new`, and `feed` is told the bytes that come. Some of what it owes is made when there
//! is room for it, and taken as it is sent:
//!
//! ```rust
//! connection.fill(server)?;
//! let n = connection.pending().len();
//! out.extend_from_slice(connection.pending())?;
//! connection.take(n);
//! ```
#![tactic(auto)]

mod asked;
mod connection;
mod limits;
mod outcome;
mod owed;
mod parameters;
mod reading;
mod rows;
mod server;

pub use connection::Connection;
pub use limits::MOST_PENDING;
pub use outcome::Reloaded;
pub use server::Server;

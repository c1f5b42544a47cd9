//! The command that serves the data of a file: it reads the file, opens the door (the listener), and serves
//! the links (the connections) that come to it.
//!
//! Of this `serve` is called, with a shelf that has the file, a wire to listen on and an output:
//!
//! ```rust
//! let service = Service {
//!     name,
//!     choice: &choice,
//!     base,
//!     page_size: page,
//!     reload,
//!     rows,
//!     stop_after,
//! };
//! ```
#![tactic(auto)]

mod config;
mod door;
mod fault;
mod service;

pub use fault::ServiceFault;
pub use service::{Service, serve};

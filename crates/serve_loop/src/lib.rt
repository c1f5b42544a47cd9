//! The server's loop over many connections: turns over parts of those that are live, of any kind of
//! connection and over any wire (transport), and a service that goes round them by turns and waits.
//!
//! A server that sends back what it gets, at the door (the listener) of a wire:
//!
//! ```rust
//! if wire.listen("localhost", 80).is_err() {
//!     return None;
//! }
//! let mut server = EchoServer::new(7);
//! let mut supply = NoSupply::new();
//! Some(serve::<_, Echo, _, _>(rt, alloc, &mut server, &mut supply, wire, Some(stop_after)))
//! ```
#![tactic(auto)]

mod live;
mod numbers;
mod round;
mod service;
mod step;
mod turn;

pub use live::{
    Live, MOST_LIVE, MOST_RECEIVED, MOST_SENT, Part, SPREAD, ServeFault, Served, Turned,
};
pub use service::serve;
pub use turn::Loop;

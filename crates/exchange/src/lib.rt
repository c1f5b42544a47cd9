//! One request and its reply on one link (a TCP connection): a future that is polled by hand.
//!
//! An exchange is started for an address, and polled up to its answer, at most so many times, over a
//! wire (the transport):
//!
//! ```rust
//! while polls < most {
//!     match exchange.poll(wire, buffer) {
//!         Some(answer) => return Some(answer),
//!         None => polls += 1,
//!     }
//! }
//! None
//! ```
#![tactic(auto)]

mod buffer;
mod exchange;
mod fault;
mod incoming;
mod receiving;

pub use buffer::{ROOM, ReceiveBuffer};
pub use exchange::Exchange;
pub use fault::ExchangeFault;

//! A wire (transport) in one process: behind each link that is dialled runs a connection of a server.
//!
//! A wire to a server that sends back what it gets, of which each second dial fails:
//!
//! ```rust
//! let mut wire: LoopWire<Echo> = LoopWire::new(alloc, EchoServer::new(7), 1, Failing::Dials(2));
//! assert_eq!(rt; wire.dial("a", 80), Ok(0));
//! assert_eq!(rt; wire.dial("b", 80), Err(Fault::Failed));
//! assert_eq!(rt; wire.dial("c", 80), Ok(1));
//! assert_eq!(rt; wire.links(), 2);
//! ```
//!
//! A wire to two such servers, each of which stands at the port with its number:
//!
//! ```rust
//! let mut wire: LoopWire<Echo, Several> = LoopWire::to_servers(alloc, servers, 1, Failing::Never);
//! assert_eq!(rt; wire.dial("a", 7), Ok(0));
//! assert_eq!(rt; wire.dial("a", 8), Ok(1));
//! assert_eq!(rt; wire.dial("a", 9), Err(Fault::Failed));
//! ```
#![tactic(auto)]

mod behind;
mod counts;
mod cuts;
mod held;
mod link;
mod links;
mod responds;
mod stands;
mod talk;
mod wire;

pub use behind::{Behind, One, Servers, Several};
pub use cuts::MOST_CUT;
pub use responds::RespondsAt;
pub use stands::StandsAt;
pub use wire::LoopWire;

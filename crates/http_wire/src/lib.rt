//! Requests and replies of HTTP/1.x as bytes, over any cuts (RFC 9110 and RFC 9112).
//!
//! The pieces of a reply are fed as they come, here all of it as one. What `feed` answers says whether more has to come, how
//! many bytes of the last piece belong to the reply, or why it is refused, as where the body has more bytes than the limit:
//!
//! ```rust
//! let mut feed = ReplyFeed::new(alloc, 1000000);
//! if feed.feed(response).is_err() {
//!     return Err(CaseFault::OutOfMemory);
//! }
//! match feed.take() {
//!     Some(reply) => Ok(reply.body),
//!     None => Err(CaseFault::Row),
//! }
//! ```
#![tactic(auto)]

mod chunk;
mod compact;
mod fields;
mod framing;
mod given;
mod heads;
mod judge;
pub mod laws;
mod message;
mod reply;
mod request;
mod stages;
mod state;
mod target;
mod write;

pub use given::drop_given;
pub use message::{Asked, Fed, Field, NextHead, Reply, ReplyFault, RequestHead};
pub use reply::ReplyFeed;
pub use request::RequestFeed;
pub use write::{write_head, write_request};

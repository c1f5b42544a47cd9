//! A wire in memory whose links (connections) do what scripts say, for tests of what speaks over a wire.
//!
//! A piece comes after a call that would block, and the end behind the last piece. A link with one piece, a dial and
//! two receives:
//!
//! ```rust
//! let mut pieces = Vec::new(alloc);
//! pieces.push(Bytes::copy(alloc, piece)?)?;
//! let mut scripts = Vec::new(alloc);
//! scripts.push(Script {
//!     after: 0,
//!     pieces,
//!     ends: true,
//!     most: 65536,
//! })?;
//! let mut wire = Played::new(alloc, scripts, Failing::Never);
//! Ok((wire.dial("host", 80), wire.recv(0, to), wire.recv(0, to)))
//! ```
//!
//! There `Played` holds a wire that it makes with `ScriptWire::new`, and calls on it.
#![tactic(auto)]

mod door;
mod link;
mod script;
mod wire;

pub use script::Script;
pub use wire::ScriptWire;

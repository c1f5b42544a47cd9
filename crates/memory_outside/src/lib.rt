//! Files in memory that fail where they are told to, and a transport that has no other end: what tests hand
//! a program in place of the outside.
//!
//! A file is found by its name and read whole, at most so many bytes:
//!
//! ```rust
//! let mut files = Vec::new(alloc);
//! files.push((Text::copy(alloc, "a.nq")?, Bytes::copy(alloc, b"abc")?))?;
//! let mut shelf = MemShelf::new(alloc, files, Failing::Never);
//! let bytes = read_file(alloc, &mut shelf, "a.nq", 65536);
//! assert_eq!(rt; bytes, Ok(Vec::from_slice(alloc, b"abc")?));
//! ```
#![tactic(auto)]

mod mem_shelf;
mod no_wire;

pub use mem_shelf::MemShelf;
pub use no_wire::NoWire;

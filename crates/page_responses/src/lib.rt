//! The response to a request for a page of a fragment, part by part: its head, the lines of its triples and those
//! of its metadata, and the responses of a status without a page (RFC 9110; Triple Pattern Fragments).
//!
//! What is answered is found before a byte of it is made: `open_answer` (`tpf_server`) asks `open_selected` for a page.
//! Then the head is appended, and the body is what is left, of which `Rest::give` appends one part after another:
//!
//! ```rust
//! let answer = open_answer(alloc, config, &queued.asking)?;
//! let written = write_answer_head(
//!     alloc,
//!     answer.status,
//!     answer.media,
//!     answer.length,
//!     queued.closes,
//!     out,
//! );
//! match written {
//!     Ok(()) => Ok(body_or_nothing(queued.without_body, answer.body)),
//!     Err(fault) => {
//!         drop(answer);
//!         Err(fault)
//!     }
//! }
//! ```
#![tactic(auto)]

mod head;
mod limits;
mod lines;
mod pages;
mod parts;
mod rest;
mod snapshot;
mod status;

pub use head::{MediaType, write_answer_head};
pub use limits::{LONGEST_PART, PART};
pub use pages::{Opened, open_selected, open_status, open_version};
pub use rest::{PageRest, Rest};
pub use snapshot::Snapshot;
pub use status::Status;

//! The law that ties what a server writes of a page to what is taken from it.
//!
//! A law is a function that does nothing: what its contract says is known where it was called.
//!
//! ```rust
//! pub fn a_server_is_a_world()
//!     ensures pages { ServersPagesAreTrue }
//! {
//!     controls_read_back();
//!     an_address_is_one();
//!     pages_share_authority();
//! }
//! ```
#![tactic(auto)]

ghost use Rattle.control_laws.specs.Law.{ControlsReadBack, NothingElseIsRead, PagesAreThere};

/// What a server writes of a page is what is taken from it (Triple Pattern Fragments, "Data", "Metadata" and "Controls").
/// Under each address of the server's authority the body of a page is read as the triples of the page, the number of
/// triples of the fragment, the address of the next page exactly where there is one, the form of the server, and the version
/// of its data, where the number is at most `HIGHEST_NUMBER` (of `MOST_DIGITS` digits, 19) and no term's canonical text has
/// more than `LONGEST_READ` (4194304) bytes. Nothing else is read from it, and nothing at all past these limits or under an
/// address of another authority. A version is at most `HIGHEST_NUMBER`, as each of a history is.
pub fn controls_read_back()
    ensures taken { ControlsReadBack }
    ensures only { NothingElseIsRead }
    ensures there { PagesAreThere }
{}

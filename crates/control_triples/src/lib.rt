//! The control triples of a page: what the quads of a body say of its topic, sorted, so that what has one subject and one
//! predicate is found by binary search; and the texts of a form, the version and the marks of the data that are found in
//! the quads (Triple Pattern Fragments, "Metadata" and "Controls"; Hydra core vocabulary; VoID). What they tell of a page is
//! judged above:
//!
//! ```rust
//! let controls = controls_in(alloc, quads, topics, topic)?;
//! let marks = first_marks(alloc, quads)?;
//! let controls = Controls::new(quads, topic, controls);
//! let told = read_told(alloc, &controls, address)?;
//! ```
#![tactic(auto)]

mod controls;
mod digits;
mod form;
mod mark;
mod order;
mod topic;
mod variable;
mod version;
mod vocabulary;

pub use controls::{Controls, controls_in};
pub use digits::{number, number_of_digits};
pub use form::{FormParts, least_form};
pub use mark::first_marks;
pub use topic::{GraphTopic, find_topic, topics_of};
pub use version::read_version;
pub use vocabulary::{iri, next_page, total_items, void_triples};

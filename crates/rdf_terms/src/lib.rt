//! Terms of RDF: their grammar, equality and order, triples and quads, the slots of a fragment (a triple
//! pattern), and selections: fragments that rows restrict.
//!
//! The term of a class, where `kind` is its tag or its datatype. What is no term is refused, and a literal of the datatype
//! xsd:string is the plain one:
//!
//! ```rust
//! match class {
//!     "<" => Term::iri(alloc, text),
//!     "_" => Term::blank(alloc, text),
//!     "@" => Term::tagged(alloc, text, kind),
//!     "^" => Term::typed(alloc, text, kind),
//!     _ => Ok(Term::plain(alloc, text)?),
//! }
//! ```
#![tactic(auto)]

mod canon;
mod datatype;
mod iri;
mod label;
pub mod laws;
mod limits;
mod order;
mod slots;
mod tag;
mod term;
mod valid;

pub use canon::{after_mark, is_marked, marks};
pub use datatype::{Datatype, is_datatype, is_lang_string, is_xsd_string};
pub use iri::{IriText, has_scheme, is_iri, is_iri_byte};
pub use label::{Label, is_label, is_label_char, is_label_start};
pub use laws::{askable_slots_are_kept, canonical_len_is, lower_is_kept, triple_order_tells_apart};
pub use limits::{
    LONGEST_LABEL, LONGEST_READ, LONGEST_TERM, MOST_ROWS, MOST_TRIPLES, MOST_UNWRITTEN,
};
pub use slots::{Slot, Slots};
pub use tag::{Tag, is_tag, lowered};
pub use term::{Kind, Quad, Term, TermFault, Triple};

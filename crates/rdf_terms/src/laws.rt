//! The laws of tags, of canonical text, of the order of triples and of the slots that are asked for.
ghost use Rattle.std.specs.Prelude.{ℕ, ◌≡◌, ◌↔◌, List, length};
ghost use Rattle.std.specs.declared.cmp.Ordering.{Ordering};
ghost use Rattle.rdf_terms.specs.declared.term.Term.{Term};
ghost use Rattle.rdf_terms.specs.declared.term.Triple.{Triple};
ghost use Rattle.rdf_terms.specs.Askable.{AskableAreKept, UnaskedMatchNothing};
ghost use Rattle.rdf_terms.specs.Canon.{canonical_term, canonical_len};
ghost use Rattle.rdf_terms.specs.Order.{triple_order};
ghost use Rattle.rdf_terms.specs.Tag.{is_tag, is_lower_tag, lower};

use std::cmp::Ordering;

/// A tag in lower case is a tag as a term keeps it, and it is a tag exactly where it was one before.
#[tactic(auto, using(crate::proofs::Tags::lower_is_kept))]
pub fn lower_is_kept()
    ensures { (bytes : List ℕ) → is_lower_tag (lower bytes) ≡ is_tag bytes }
{}

/// The length of a term's canonical text, found without the text.
#[tactic(auto, using(crate::proofs::Lengths::canonical_len_is))]
pub fn canonical_len_is()
    ensures { (t : Term) → length (canonical_term t) ≡ canonical_len t }
{}

/// Triples are equal in the order exactly where they are the same triple.
#[tactic(auto, using(crate::specs::OrderLaws::triple_equal))]
pub fn triple_order_tells_apart()
    ensures { (a b : Triple) → (triple_order a b ≡ Ordering.Equal) ↔ (a ≡ b) }
{}

/// Slots that are asked for have no blank node, so with valid terms they are kept. Other slots match
/// no triple of a data set (RDF 1.1 Concepts, section 3.1), so their fragment is empty.
pub fn askable_slots_are_kept()
    ensures kept { AskableAreKept }
    ensures others { UnaskedMatchNothing }
{}

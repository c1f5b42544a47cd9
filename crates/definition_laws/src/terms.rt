// The laws of the orders of terms and triples, of fragments and of selections.
ghost use Rattle.std.specs.Prelude.{◌≡◌, ◌↔◌, List};
ghost use Rattle.std.specs.Cmp.{IsTotalOrder};
ghost use Rattle.std.specs.declared.cmp.Ordering.{Ordering};
ghost use Rattle.rdf_terms.specs.declared.term.Term.{Term};
ghost use Rattle.rdf_terms.specs.declared.term.Triple.{Triple};
ghost use Rattle.rdf_terms.specs.declared.slots.Slots.{Slots};
ghost use Rattle.rdf_terms.specs.Fragments.{IsFragment, fragment};
ghost use Rattle.rdf_terms.specs.Order.{term_order, triple_order};
ghost use Rattle.rdf_terms.specs.Selections.{NoRowsSelectAll, SelectionIsOne};

use std::cmp::Ordering;

/// The order of terms is total: antisymmetric, transitive, and terms that are equal in it stand alike to each other term.
#[tactic(auto, using(rdf_terms::specs::OrderLaws::term_total))]
pub fn order_is_total()
    ensures { IsTotalOrder term_order }
{}

/// Terms are equal in the order exactly where they are the same term.
#[tactic(auto, using(rdf_terms::specs::OrderLaws::term_equal))]
pub fn order_tells_apart()
    ensures { (a b : Term) → (term_order a b ≡ Ordering.Equal) ↔ (a ≡ b) }
{}

/// The order of triples is total.
#[tactic(auto, using(rdf_terms::specs::OrderLaws::triple_total))]
pub fn triple_order_is_total()
    ensures { IsTotalOrder triple_order }
{}

/// The fragment that the definition's program gives is one: it ascends strictly in the order of the slots' kind, and holds
/// exactly the matching triples (Triple Pattern Fragments, "Fragments").
pub fn fragment_is_one()
    ensures { (triples : List Triple) (slots : Slots) → IsFragment triples slots (fragment triples slots) }
{}

/// A list that ascends so and holds exactly the matching triples is that fragment: there is no other.
#[tactic(auto, using(rdf_terms::proofs::FragmentLaws::fragment_only))]
pub fn no_other_fragment()
    ensures { (triples : List Triple) (slots : Slots) (items : List Triple)
        → IsFragment triples slots items → items ≡ fragment triples slots }
{}

/// A selection with no rows selects the fragment of its slots, page by page.
pub fn no_rows_select_all()
    ensures { NoRowsSelectAll }
{}

/// What a selection gives of a data set ascends strictly in the order of its slots and holds exactly the
/// triples that match the slots and, where there are rows, at least one of them (brTPF, "bindings-restricted
/// fragments"). There is no other such list.
pub fn selection_is_one()
    ensures { SelectionIsOne }
{}

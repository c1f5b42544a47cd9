// The orders of fragments.
ghost use Rattle.std.specs.Prelude.{◌≡◌};
ghost use Rattle.rdf_terms.specs.Slots.{is_fixed, pos_order, osp_order, order_of};

use rdf_terms::{Slot, Slots, Triple};
use std::cmp::Ordering;

fn is_fixed(slot: &Slot) -> bool
    ensures { result ≡ is_fixed slot.now }
{
    match slot {
        Slot::Any => false,
        Slot::Fixed(_) => true,
    }
}

fn pos_order(a: &Triple, b: &Triple) -> Ordering
    ensures { result ≡ pos_order a.now b.now }
{
    let rest = a.object.cmp(&b.object).then(a.subject.cmp(&b.subject));
    a.predicate.cmp(&b.predicate).then(rest)
}

fn osp_order(a: &Triple, b: &Triple) -> Ordering
    ensures { result ≡ osp_order a.now b.now }
{
    let rest = a
        .subject
        .cmp(&b.subject)
        .then(a.predicate.cmp(&b.predicate));
    a.object.cmp(&b.object).then(rest)
}

/// The order of the triples of a fragment, by the places that its slots fix.
pub(crate) fn order_of(slots: &Slots, a: &Triple, b: &Triple) -> Ordering
    ensures { result ≡ order_of slots.now a.now b.now }
{
    let subject = is_fixed(&slots.subject);
    let predicate = is_fixed(&slots.predicate);
    let object = is_fixed(&slots.object);
    match (subject, predicate, object) {
        (false, true, _) => pos_order(a, b),
        (_, false, true) => osp_order(a, b),
        _ => a.cmp(b),
    }
}

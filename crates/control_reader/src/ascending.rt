// Triples that ascend, as those of a server's page do.
ghost use Rattle.std.specs.Prelude.{◌≡◌, IsTrue};
ghost use Rattle.std.specs.Ordering.{ordering_then};
ghost use Rattle.rdf_terms.specs.Order.{term_order, triple_order};
ghost use Rattle.rdf_terms.specs.Slots.{pos_order};
ghost use Rattle.control_triples.specs.Contents.{firsts};
ghost use Rattle.control_reader.specs.Ascending.{triples_of, page_order, climbs, ascends};

use rdf_terms::{Quad, Term, Triple};
use std::cmp::Ordering;

/// The order of two terms. That they are one is found faster than which comes first, and neighbours of a page mostly have
/// a term in common.
fn compare(a: &Term, b: &Term) -> Ordering
    ensures { result ≡ term_order a.now b.now }
{
    if a.same(b) {
        return Ordering::Equal;
    }
    a.cmp(b)
}

/// The order of two terms, and of two others where these are one.
fn compare_two(a: &Term, b: &Term, c: &Term, d: &Term) -> Ordering
    ensures { result ≡ ordering_then (term_order a.now b.now) (term_order c.now d.now) }
{
    match compare(a, b) {
        Ordering::Less => Ordering::Less,
        Ordering::Equal => compare(c, d),
        Ordering::Greater => Ordering::Greater,
    }
}

/// Subject, predicate, object.
fn triple_order(a: &Triple, b: &Triple) -> Ordering
    ensures { result ≡ triple_order a.now b.now }
{
    match compare(&a.subject, &b.subject) {
        Ordering::Less => Ordering::Less,
        Ordering::Equal => compare_two(&a.predicate, &b.predicate, &a.object, &b.object),
        Ordering::Greater => Ordering::Greater,
    }
}

/// Predicate, object, subject.
fn pos_order(a: &Triple, b: &Triple) -> Ordering
    ensures { result ≡ pos_order a.now b.now }
{
    match compare(&a.predicate, &b.predicate) {
        Ordering::Less => Ordering::Less,
        Ordering::Equal => compare_two(&a.object, &b.object, &a.subject, &b.subject),
        Ordering::Greater => Ordering::Greater,
    }
}

/// The order of the triples of a fragment, with the predicate first or with the subject first.
fn page_order(predicate_first: bool, a: &Triple, b: &Triple) -> Ordering
    ensures { result ≡ page_order predicate_first a.now b.now }
{
    if predicate_first {
        pos_order(a, b)
    } else {
        triple_order(a, b)
    }
}

/// Whether the triple stands before that of the first quad, and each of these before the next.
fn climbs<'a>(predicate_first: bool, first: &'a Triple, quads: &'a [Quad]) -> bool
    ensures { result ≡ climbs (page_order predicate_first) first.now quads.now }
{
    let mut last = first;
    for quad in quads {
        if !page_order(predicate_first, last, &quad.triple).is_lt() {
            return false;
        }
        last = &quad.triple;
    }
    true
}

/// Whether the triple of each quad stands before the next.
fn ascends(predicate_first: bool, quads: &[Quad]) -> bool
    ensures { result ≡ ascends (page_order predicate_first) quads.now }
{
    match quads {
        [] => true,
        [first, rest @ ..] => climbs(predicate_first, &first.triple, rest),
    }
}

/// Whether the triples ascend in the order of some fragment. Then none of them comes twice.
pub(crate) fn ascend(quads: &[Quad]) -> bool
    ensures { IsTrue result → firsts (triples_of quads.now) ≡ triples_of quads.now }
{
    if ascends(false, quads) {
        return true;
    }
    ascends(true, quads)
}

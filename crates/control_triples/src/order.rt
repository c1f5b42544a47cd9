// The order of terms by the lengths of their texts.
ghost use Rattle.std.specs.Prelude.{◌≡◌, IsTrue};
ghost use Rattle.std.specs.Ordering.{ordering_then};
ghost use Rattle.control_triples.specs.Ranges.{length_order, length_triple_order, text_length};

use rdf_terms::{Term, Triple};
use std::cmp::Ordering;

/// The length of a term's own text.
fn text_length(term: &Term) -> usize
    ensures { result ≡ text_length term.now }
{
    match term {
        Term::Iri(iri) => iri.as_str().len(),
        Term::Blank(label) => label.as_str().len(),
        Term::Literal { form, .. } => form.as_str().len(),
    }
}

/// Whether two terms are one. Most that are not differ in the lengths of their texts.
fn is_same(a: &Term, b: &Term) -> bool
    ensures { IsTrue result → a.now ≡ b.now }
{
    text_length(a) == text_length(b) && a.same(b)
}

/// The shorter text comes first; the order of terms decides between texts of one length. That two terms are one is found
/// faster than their order, and most terms of a page that have one length are.
#[tactic(auto, unfolding(crate::specs::Ranges::length_order))]
pub(crate) fn compare(a: &Term, b: &Term) -> Ordering
    ensures { result ≡ length_order a.now b.now }
{
    if is_same(a, b) {
        return Ordering::Equal;
    }
    match text_length(a).cmp(&text_length(b)) {
        Ordering::Less => Ordering::Less,
        Ordering::Equal => a.cmp(b),
        Ordering::Greater => Ordering::Greater,
    }
}

/// The predicate and the object of a triple beside these.
fn compare_ends(triple: &Triple, predicate: &Term, object: &Term) -> Ordering
    ensures { result ≡ ordering_then (length_order triple.now.predicate predicate.now)
        (length_order triple.now.object object.now) }
{
    match compare(&triple.predicate, predicate) {
        Ordering::Less => Ordering::Less,
        Ordering::Equal => compare(&triple.object, object),
        Ordering::Greater => Ordering::Greater,
    }
}

/// The subject, the predicate and the object of a triple beside these.
pub(crate) fn compare_terms(
    triple: &Triple,
    subject: &Term,
    predicate: &Term,
    object: &Term,
) -> Ordering
    ensures { result ≡ length_triple_order triple.now
        (record { subject = subject.now; predicate = predicate.now; object = object.now }) }
{
    match compare(&triple.subject, subject) {
        Ordering::Less => Ordering::Less,
        Ordering::Equal => compare_ends(triple, predicate, object),
        Ordering::Greater => Ordering::Greater,
    }
}

/// Subject, predicate, object.
pub(crate) fn compare_triples(a: &Triple, b: &Triple) -> Ordering
    ensures { result ≡ length_triple_order a.now b.now }
{
    compare_terms(a, &b.subject, &b.predicate, &b.object)
}

/// The subject and the predicate of a triple beside these.
pub(crate) fn compare_pair(triple: &Triple, subject: &Term, predicate: &Term) -> Ordering
    ensures { result ≡ ordering_then (length_order triple.now.subject subject.now)
        (length_order triple.now.predicate predicate.now) }
{
    match compare(&triple.subject, subject) {
        Ordering::Less => Ordering::Less,
        Ordering::Equal => compare(&triple.predicate, predicate),
        Ordering::Greater => Ordering::Greater,
    }
}

/// A triple, as it is looked for in an ordered set.
#[derive(Clone, Copy)]
pub(crate) struct TripleKey<'a> {
    pub(crate) triple: &'a Triple,
}

impl<'a> PartialEq for TripleKey<'a> {
    ghost use Rattle.control_triples.specs.KeyLaws.{key_eq, key_per};

    ghost eq = { key_eq };

    ghost laws = { key_per };

    fn eq(&self, other: &TripleKey<'a>) -> bool {
        self.triple.same(other.triple)
    }
}

impl<'a> Eq for TripleKey<'a> {
    ghost use Rattle.control_triples.specs.KeyLaws.{key_equiv};

    ghost laws = { key_equiv };
}

impl<'a> PartialOrd for TripleKey<'a> {
    ghost use Rattle.std.specs.Ordering.{as_partial_cmp};
    ghost use Rattle.control_triples.specs.KeyLaws.{key_order, key_partial};

    ghost partial_cmp = { as_partial_cmp key_order };

    ghost laws = { key_partial };

    fn partial_cmp(&self, other: &TripleKey<'a>) -> Option<Ordering> {
        Some(self.cmp(other))
    }
}

/// The shorter text comes first, of the subjects, then of the predicates, then of the objects.
impl<'a> Ord for TripleKey<'a> {
    ghost use Rattle.std.proofs.Common.{refl};
    ghost use Rattle.control_triples.specs.KeyLaws.{key_order, key_total, key_ties};

    ghost cmp = { key_order };

    ghost total = { key_total };

    ghost matches_partial_cmp = { λ _ _. refl };

    ghost matches_eq = { key_ties };

    fn cmp(&self, other: &TripleKey<'a>) -> Ordering {
        compare_triples(self.triple, other.triple)
    }
}

// The labels of blank nodes in order, and the first that clashes with an IRI.
ghost use Rattle.std.specs.Prelude.{ℕ, ◌≡◌, ◌+◌, ◌<◌, ◌↔◌, ◌++◌, List, [], ◌∷◌, IfOk, OnOk};
ghost use Rattle.std.specs.List.{Contains, filter_map};
ghost use Rattle.std.specs.List.Sorted.{IsStrictlySortedBy};
ghost use Rattle.rdf_terms.specs.declared.term.Term.TheVariants as terms;
ghost use Rattle.rdf_terms.specs.Order.{bytes_order};
ghost use Rattle.triple_table.specs.Chosen.{chosen};
ghost use Rattle.triple_table.specs.Labels.{texts, label_of, IsFirstClash};
ghost use Rattle.triple_table.specs.Served.{terms_in, terms_of};

use crate::Choice;
use crate::genid::label_part;
use rdf_terms::{Quad, Term, Triple};
use std::alloc::Global;
use tpf_base::OutOfMemory;

fn push_label<'a>(labels: &mut Vec<&'a str>, term: &'a Term) -> Result<(), OutOfMemory>
    ensures { OnOk result
        (texts labels.new.items ≡ texts labels.old.items ++ filter_map label_of (term.entry.now ∷ [])) }
{
    if let Term::Blank(label) = term {
        labels.push(label.as_str())?;
    }
    Ok(())
}

fn push_labels<'a>(labels: &mut Vec<&'a str>, triple: &'a Triple) -> Result<(), OutOfMemory>
    ensures { OnOk result
        (texts labels.new.items ≡ texts labels.old.items ++ filter_map label_of (terms_in triple.entry.now)) }
{
    push_label(labels, &triple.subject)?;
    push_label(labels, &triple.predicate)?;
    push_label(labels, &triple.object)
}

fn push_chosen<'a>(
    labels: &mut Vec<&'a str>,
    quad: &'a Quad,
    choice: &Choice,
) -> Result<(), OutOfMemory>
    ensures { OnOk result
        (texts labels.new.items ≡ texts labels.old.items ++ filter_map label_of
        (terms_of (chosen choice.now (quad.entry.now ∷ [])))) }
{
    if choice.takes(&quad.graph) {
        push_labels(labels, &quad.triple)?;
    }
    Ok(())
}

fn all_labels<'a>(
    alloc: Global,
    quads: &'a [Quad],
    choice: &Choice,
) -> Result<Vec<&'a str>, OutOfMemory>
    ensures { IfOk result (λ v. texts v.items ≡ filter_map label_of (terms_of (chosen choice.now quads.entry.now))) }
{
    let mut labels = Vec::new(alloc);
    for quad in quads {
        push_chosen(&mut labels, quad, choice)?;
    }
    Ok(labels)
}

/// The labels of blank nodes in the chosen triples, each once, in the order of bytes.
pub(crate) fn sorted_labels<'a>(
    alloc: Global,
    quads: &'a [Quad],
    choice: &Choice,
) -> Result<Vec<&'a str>, OutOfMemory>
    ensures ascending { IfOk result (λ v. IsStrictlySortedBy bytes_order (texts v.items)) }
    ensures members { IfOk result
        (λ v. (label : List ℕ) →
        Contains (texts v.items) label ↔ Contains (terms_of (chosen choice.now quads.entry.now)) (terms.Blank label)) }
{
    let mut labels = all_labels(alloc, quads, choice)?;
    labels.sort_unstable();
    labels.dedup();
    Ok(labels)
}

/// The place of the label whose IRI this term is, or the number of labels.
fn clash_of_term(labels: &[&str], authority: &str, term: &Term) -> usize
    requires { IsStrictlySortedBy bytes_order (texts labels.now) }
    ensures { IsFirstClash authority.now (texts labels.now) (term.now ∷ []) result }
{
    let Term::Iri(iri) = term else {
        return labels.len();
    };
    let Some(label) = label_part(iri.as_str(), authority) else {
        return labels.len();
    };
    match labels.binary_search(&label) {
        Ok(place) => place,
        Err(_) => labels.len(),
    }
}

fn clash_of_triple(labels: &[&str], authority: &str, triple: &Triple) -> usize
    requires { IsStrictlySortedBy bytes_order (texts labels.now) }
    ensures { IsFirstClash authority.now (texts labels.now) (terms_in triple.now) result }
{
    clash_of_term(labels, authority, &triple.subject)
        .min(clash_of_term(labels, authority, &triple.predicate))
        .min(clash_of_term(labels, authority, &triple.object))
}

fn clash_of_quad(labels: &[&str], authority: &str, quad: &Quad, choice: &Choice) -> usize
    requires { IsStrictlySortedBy bytes_order (texts labels.now) }
    ensures { IsFirstClash authority.now (texts labels.now) (terms_of (chosen choice.now (quad.now ∷ []))) result }
{
    if choice.takes(&quad.graph) {
        clash_of_triple(labels, authority, &quad.triple)
    } else {
        labels.len()
    }
}

/// The place of the first label whose IRI stands in a chosen triple, or the number of labels. Where
/// there are none, nothing is looked at.
pub(crate) fn first_clash(
    labels: &[&str],
    quads: &[Quad],
    choice: &Choice,
    authority: &str,
) -> usize
    requires { IsStrictlySortedBy bytes_order (texts labels.now) }
    ensures { IsFirstClash authority.now (texts labels.now) (terms_of (chosen choice.now quads.now)) result }
{
    let mut first = labels.len();
    if first == 0 {
        return 0;
    }
    for quad in quads {
        first = first.min(clash_of_quad(labels, authority, quad, choice));
    }
    first
}

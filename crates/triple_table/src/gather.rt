// The terms of the chosen triples where they stand in the quads, and the triples by places of terms.
ghost use Rattle.std.specs.Prelude.{ℕ, ◌≡◌, ◌++◌, List, [], ◌∷◌, map, IfOk, IfSome, OnOk};
ghost use Rattle.std.specs.List.{filter_map};
ghost use Rattle.rdf_terms.specs.declared.term.Term.{Term};
ghost use Rattle.rdf_terms.specs.declared.term.Triple.{Triple};
ghost use Rattle.tpf_base.specs.Addresses.{IsAuthority};
ghost use Rattle.triple_table.specs.Chosen.{chosen};
ghost use Rattle.triple_table.specs.Genid.{skolem};
ghost use Rattle.triple_table.specs.Ranking.{borrowed_terms, genid_of, Gathers, GathersTriple, IsGathered, StandsAt};

use crate::Choice;
use crate::genid::skolem;
use crate::recent::{Recent, mark};
use rdf_terms::{Quad, Term, Triple};
use std::alloc::Global;
use tpf_base::OutOfMemory;

/// A triple by the places of its terms in a list.
#[derive(Clone, Copy)]
pub struct Places {
    pub subject: usize,
    pub predicate: usize,
    pub object: usize,
}

/// Terms, of which few stand more than once, and triples by the places of their terms.
#[derive(Drop)]
pub struct Gathered<'a> {
    pub terms: Vec<&'a Term>,
    pub triples: Vec<Places>,
}

/// The place that is tried, if a term stands there.
fn tried(terms: &[&Term], place: usize, term: &Term) -> Option<usize>
    ensures { IfSome result (λ place. StandsAt (borrowed_terms terms.now) place term.now) }
{
    if place < terms.len() && *terms[place] == *term {
        return Some(place);
    }
    None
}

/// The place of a term, which is added unless its place is noted. So a term may be added again, but
/// seldom.
fn noted_place<'a>(
    terms: &mut Vec<&'a Term>,
    recent: &mut Recent,
    term: &'a Term,
) -> Result<usize, OutOfMemory>
    ensures { IfOk result
        (λ place. Gathers (borrowed_terms terms.old.items) (borrowed_terms terms.new.items) term.entry.now place) }
{
    let mark = mark(term);
    if let Some(place) = recent.find(terms.as_slice(), term, mark) {
        return Ok(place);
    }
    let place = terms.len();
    recent.note(mark, place);
    terms.push(term)?;
    Ok(place)
}

/// The same, where another place is tried first.
fn place_of<'a>(
    terms: &mut Vec<&'a Term>,
    recent: &mut Recent,
    term: &'a Term,
    near: usize,
) -> Result<usize, OutOfMemory>
    ensures { IfOk result
        (λ place. Gathers (borrowed_terms terms.old.items) (borrowed_terms terms.new.items) term.entry.now place) }
{
    if let Some(place) = tried(terms.as_slice(), near, term) {
        return Ok(place);
    }
    noted_place(terms, recent, term)
}

/// The places of a triple's terms, of which those of the triple before are tried first: lines beside each other
/// often have a subject or a predicate in common.
fn places_of<'a>(
    terms: &mut Vec<&'a Term>,
    recent: &mut Recent,
    triple: &'a Triple,
    near: Places,
) -> Result<Places, OutOfMemory>
    ensures { IfOk result
        (λ p. GathersTriple (borrowed_terms terms.old.items) (borrowed_terms terms.new.items) triple.entry.now p) }
{
    let subject = place_of(terms, recent, &triple.subject, near.subject)?;
    let predicate = place_of(terms, recent, &triple.predicate, near.predicate)?;
    let object = place_of(terms, recent, &triple.object, near.object)?;
    Ok(Places {
        subject,
        predicate,
        object,
    })
}

/// The places of the last triple, and else the first place of all.
fn last_places(triples: &[Places]) -> Places {
    match triples.last() {
        Some(places) => *places,
        None => Places {
            subject: 0,
            predicate: 0,
            object: 0,
        },
    }
}

fn push_chosen<'a>(
    terms: &mut Vec<&'a Term>,
    triples: &mut Vec<Places>,
    recent: &mut Recent,
    quad: &'a Quad,
    choice: &Choice,
) -> Result<(), OutOfMemory>
    ensures { OnOk result
        ((of : List Triple) → IsGathered of (borrowed_terms terms.old.items) triples.old.items →
        IsGathered (of ++ chosen choice.now (quad.entry.now ∷ [])) (borrowed_terms terms.new.items) triples.new.items) }
{
    if choice.takes(&quad.graph) {
        let near = last_places(triples.as_slice());
        let places = places_of(terms, recent, &quad.triple, near)?;
        triples.push(places)?;
    }
    Ok(())
}

/// The chosen triples in the order of the quads, with repeats, by places of their terms.
pub(crate) fn gather<'a>(
    alloc: Global,
    quads: &'a [Quad],
    choice: &Choice,
) -> Result<Gathered<'a>, OutOfMemory>
    ensures { IfOk result
        (λ g. IsGathered (chosen choice.now quads.entry.now) (borrowed_terms g.terms.items) g.triples.items) }
{
    let mut triples = Vec::with_capacity(alloc, quads.len())?;
    let mut recent = Recent::new(alloc, quads.len())?;
    let mut terms = Vec::new(alloc);
    for quad in quads {
        push_chosen(&mut terms, &mut triples, &mut recent, quad, choice)?;
    }
    Ok(Gathered { terms, triples })
}

fn push_genid(
    alloc: Global,
    genids: &mut Vec<Term>,
    term: &Term,
    authority: &str,
) -> Result<(), OutOfMemory>
    requires { IsAuthority authority.now }
    ensures { OnOk result (genids.new.items ≡ genids.old.items ++ filter_map (genid_of authority.now) (term.now ∷ [])) }
{
    if let Term::Blank(_) = term {
        genids.push(skolem(alloc, authority, term)?)?;
    }
    Ok(())
}

/// The IRIs of the blank nodes among the terms, in their order.
pub(crate) fn genid_terms(
    alloc: Global,
    terms: &[&Term],
    authority: &str,
) -> Result<Vec<Term>, OutOfMemory>
    requires { IsAuthority authority.now }
    ensures { IfOk result (λ v. v.items ≡ filter_map (genid_of authority.now) (borrowed_terms terms.now)) }
{
    let mut genids = Vec::new(alloc);
    for term in terms {
        push_genid(alloc, &mut genids, term, authority)?;
    }
    Ok(genids)
}

/// A term as it is served, and the IRIs that are left: those of the blank nodes behind it.
fn served_term<'a>(term: &'a Term, genids: &'a [Term]) -> (&'a Term, &'a [Term])
    ensures { (authority : List ℕ) (more : List Term) →
        genids.entry.now ≡ filter_map (genid_of authority) (term.entry.now ∷ more) →
        (result.0.now ≡ skolem authority term.entry.now) × (result.1.now ≡ filter_map (genid_of authority) more) }
{
    if let Term::Blank(_) = term
        && let Some((first, rest)) = genids.split_first()
    {
        return (first, rest);
    }
    (term, genids)
}

/// The terms as they are served, where the IRIs are those of their blank nodes.
pub(crate) fn served_terms<'a>(
    alloc: Global,
    terms: &[&'a Term],
    genids: &'a [Term],
) -> Result<Vec<&'a Term>, OutOfMemory>
    ensures { (authority : List ℕ) →
        genids.entry.now ≡ filter_map (genid_of authority) (borrowed_terms terms.entry.now) →
        IfOk result (λ v. borrowed_terms v.items ≡ map (skolem authority) (borrowed_terms terms.entry.now)) }
{
    let mut served = Vec::with_capacity(alloc, terms.len())?;
    let mut rest = genids;
    for term in terms {
        let (next, left) = served_term(term, rest);
        served.push(next)?;
        rest = left;
    }
    Ok(served)
}

// What a page is about.
ghost use Rattle.std.specs.Prelude.{ℕ, ◌≡◌, true, false, List, [], MatchOption, IfOk, option_map};
ghost use Rattle.std.specs.List.{Contains, list_any};
ghost use Rattle.rdf_terms.specs.declared.term.Term.TheVariants as terms;
ghost use Rattle.rdf_terms.specs.declared.term.Quad.{Quad};
ghost use Rattle.control_triples.specs.Vocabulary.{primary_topic};
ghost use Rattle.control_triples.specs.Controls.{IsTopic, HasNoTopic};
ghost use Rattle.control_triples.specs.Parts.{about, abouts, about_of, abouts_of, topics_in, has_same_topic, has_other_topic};

use crate::vocabulary::primary_topic;
use rdf_terms::{Quad, Term};
use std::alloc::Global;
use tpf_base::OutOfMemory;

/// A named graph, and the IRI that it says it is about.
#[derive(Clone, Copy)]
pub struct GraphTopic<'a> {
    pub graph: &'a Term,
    pub topic: &'a Term,
}

/// What a quad says its named graph is about, if it says so.
fn topic_in<'a>(quad: &'a Quad, primary: &Term) -> Option<GraphTopic<'a>>
    requires { primary.now ≡ primary_topic }
    ensures { option_map about result ≡ about_of quad.entry.now }
{
    if !quad.triple.predicate.same(primary) {
        return None;
    }
    match (&quad.graph, &quad.triple.object) {
        (Some(graph), Term::Iri(_)) => Some(GraphTopic {
            graph,
            topic: &quad.triple.object,
        }),
        _ => None,
    }
}

/// The same, where the word is at hand.
fn read_topics<'a>(
    alloc: Global,
    quads: &'a [Quad],
    primary: &Term,
) -> Result<Vec<GraphTopic<'a>>, OutOfMemory>
    requires { primary.now ≡ primary_topic }
    ensures { IfOk result (λ v. abouts v.items ≡ abouts_of quads.entry.now) }
{
    let mut topics = Vec::new(alloc);
    for quad in quads {
        if let Some(found) = topic_in(quad, primary) {
            topics.push(found)?;
        }
    }
    Ok(topics)
}

/// The topic that is this term, if a named graph is about it.
fn same_topic<'a>(topics: &[GraphTopic<'a>], own: &Term) -> Option<&'a Term>
    ensures { MatchOption result (list_any (has_same_topic own.now) topics.entry.now ≡ false)
        (λ t. (t.now ≡ own.now) × (list_any (has_same_topic own.now) topics.entry.now ≡ true)) }
{
    for found in topics {
        if found.topic.same(own) {
            return Some(found.topic);
        }
    }
    None
}

fn has_other_topic(topics: &[GraphTopic], topic: &Term) -> bool
    ensures { result ≡ list_any (has_other_topic topic.now) topics.now }
{
    topics.iter().any(|found| !found.topic.same(topic))
}

/// What the first named graph is about.
fn first_topic<'a>(topics: &[GraphTopic<'a>]) -> Option<&'a Term>
    ensures { MatchOption result (topics_in topics.entry.now ≡ []) (λ t. Contains (topics_in topics.entry.now) t.now) }
{
    match topics {
        [] => None,
        [first, ..] => Some(first.topic),
    }
}

/// The only topic, if there is one.
fn only_topic<'a>(topics: &[GraphTopic<'a>]) -> Option<&'a Term>
    ensures { (quads : List Quad) (text : List ℕ) → abouts topics.entry.now ≡ abouts_of quads
        → list_any (has_same_topic (terms.Iri text)) topics.entry.now ≡ false →
        MatchOption result (HasNoTopic quads text)
        (λ t. (topic : List ℕ) × (t.now ≡ terms.Iri topic) × IsTopic quads text topic) }
{
    let first = first_topic(topics)?;
    if has_other_topic(topics, first) {
        return None;
    }
    Some(first)
}

/// The topic of a page whose own address is this IRI: that IRI where a named graph is about it, else the only IRI that any
/// is about. `None` where there is no such IRI, or more than one.
pub fn find_topic<'a>(topics: &[GraphTopic<'a>], own: &Term) -> Option<&'a Term>
    ensures { (quads : List Quad) (text : List ℕ) → abouts topics.entry.now ≡ abouts_of quads → own.now
        ≡ terms.Iri text →
        MatchOption result (HasNoTopic quads text)
        (λ t. (topic : List ℕ) × (t.now ≡ terms.Iri topic) × IsTopic quads text topic) }
{
    match same_topic(topics, own) {
        Some(topic) => Some(topic),
        None => only_topic(topics),
    }
}

/// What the quads of a body say their named graphs are about, in the order of the quads. The only error is out of memory.
pub fn topics_of<'a>(alloc: Global, quads: &'a [Quad]) -> Result<Vec<GraphTopic<'a>>, OutOfMemory>
    ensures { IfOk result (λ v. abouts v.items ≡ abouts_of quads.entry.now) }
{
    let primary = primary_topic(alloc)?;
    read_topics(alloc, quads, &primary)
}

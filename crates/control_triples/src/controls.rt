// The control triples of a page.
ghost use Rattle.std.specs.Prelude.{ℕ, ◌≡◌, ◌↔◌, ◌≤◌, ◌<◌, ◌++◌, ◌||◌, ◌&&◌, true, false, List, length, IfOk, OnOk, IsTrue, slice_index_or};
ghost use Rattle.std.specs.List.{Contains, filter_map, list_any};
ghost use Rattle.std.specs.List.Sorted.{IsStrictlySortedBy};
ghost use Rattle.std.specs.Borrow.{Bor};
ghost use Rattle.std.specs.Option.{option_copied, option_to_list};
ghost use Rattle.rdf_terms.specs.declared.term.Term.{Term};
ghost use Rattle.rdf_terms.specs.declared.term.Term.TheVariants as terms;
ghost use Rattle.rdf_terms.specs.declared.term.Triple.{Triple};
ghost use Rattle.control_triples.specs.Controls.{Says};
ghost use Rattle.control_triples.specs.Parts.{borrowed_triples, objects_in, is_about_in, has_about, abouts, abouts_of, control_of, AreControls, triple};
ghost use Rattle.control_triples.specs.Ranges.{holds_term, goes_before, is_triple_before, length_order, length_triple_order};

use crate::order::{compare_pair, compare_terms, compare_triples};
use crate::topic::GraphTopic;
use rdf_terms::{Quad, Term, Triple};
use std::alloc::Global;
use std::cmp::Ordering;
use std::collections::BTreeSet;
use std::marker::Model;
use tpf_base::OutOfMemory;

/// The triples of the control quads: those of the named graphs that are about the topic. Each once, in the order of the
/// lengths of their terms, so that what has one subject and one predicate stands side by side, and most terms are told
/// apart without a look at their bytes.
#[derive(Drop)]
pub struct Controls<'a> {
    quads: &'a [Quad],
    topic: &'a Term,
    triples: Vec<&'a Triple>,
}

impl<'a> Model for Controls<'a> {
    ghost use Rattle.std.specs.Prelude.{◌≡◌};
    ghost use Rattle.rdf_terms.specs.declared.term.Term.TheVariants as terms;
    ghost use Rattle.control_triples.specs.Parts.{Source, AreControls, iri_text, borrowed_triples};

    ghost Value = { Source };

    ghost view = { λ c. record { quads = c.quads.now; topic = iri_text c.topic.now } };

    ghost invariant = { λ c. (c.topic.now ≡ terms.Iri (iri_text c.topic.now)) × AreControls c.quads.now (iri_text c.topic.now) (borrowed_triples c.triples.items) };
}

fn add_graph<'a>(
    graphs: &mut BTreeSet<&'a Term>,
    found: &GraphTopic<'a>,
    topic: &Term,
) -> Result<(), OutOfMemory>
    ensures { OnOk result ((graph : Term) → holds_term graphs.new graph
        ≡ (is_about_in topic.now graph found.entry.now || holds_term graphs.old graph)) }
{
    if found.topic.same(topic) {
        graphs.insert(found.graph)?;
    }
    Ok(())
}

/// The named graphs that are about the topic.
fn graphs_about<'a>(
    alloc: Global,
    topics: &[GraphTopic<'a>],
    topic: &Term,
) -> Result<BTreeSet<&'a Term>, OutOfMemory>
    ensures { IfOk result (λ graphs. (graph : Term) → holds_term graphs graph
        ≡ list_any (is_about_in topic.now graph) topics.entry.now) }
{
    let mut graphs = BTreeSet::new(alloc);
    for found in topics {
        add_graph(&mut graphs, found, topic)?;
    }
    Ok(graphs)
}

/// The triple of a control quad.
fn control_of<'a>(quad: &'a Quad, graphs: &BTreeSet<&'a Term>) -> Option<&'a Triple>
    ensures { (all : List Quad) (topic : Term) →
        ((graph : Term) → holds_term graphs.now graph ≡ has_about all topic graph) →
        option_copied result ≡ control_of all topic quad.entry.now }
{
    match &quad.graph {
        None => None,
        Some(graph) => {
            if graphs.contains(&graph) {
                Some(&quad.triple)
            } else {
                None
            }
        }
    }
}

fn add_control<'a>(
    controls: &mut Vec<&'a Triple>,
    quad: &'a Quad,
    graphs: &BTreeSet<&'a Term>,
) -> Result<(), OutOfMemory>
    ensures { OnOk result ((all : List Quad) (topic : Term)
        → ((graph : Term) → holds_term graphs.now graph ≡ has_about all topic graph) →
        borrowed_triples controls.new.items ≡ borrowed_triples controls.old.items
        ++ option_to_list (control_of all topic quad.entry.now)) }
{
    if let Some(triple) = control_of(quad, graphs) {
        controls.push(triple)?;
    }
    Ok(())
}

/// The triples of the control quads of a body, those in a named graph that is about the topic, in the order of the quads.
/// The topics are those that `topics_of` gives for the quads. The only error is out of memory.
pub fn controls_in<'a>(
    alloc: Global,
    quads: &'a [Quad],
    topics: &[GraphTopic<'a>],
    topic: &Term,
) -> Result<Vec<&'a Triple>, OutOfMemory>
    requires { abouts topics.now ≡ abouts_of quads.now }
    ensures { IfOk result (λ v. borrowed_triples v.items
        ≡ filter_map (control_of quads.entry.now topic.now) quads.entry.now) }
{
    let graphs = graphs_about(alloc, topics, topic)?;
    let mut controls = Vec::new(alloc);
    for quad in quads {
        add_control(&mut controls, quad, &graphs)?;
    }
    Ok(controls)
}

/// The control triples, each once, in their order.
fn sorted_controls<'a>(mut controls: Vec<&'a Triple>) -> Vec<&'a Triple>
    ensures { (quads : List Quad) (topic : Term) (text : List ℕ) → borrowed_triples controls.entry.items
        ≡ filter_map (control_of quads topic) quads → topic ≡ terms.Iri text
        → AreControls quads text (borrowed_triples result.items) }
{
    controls.sort_unstable_by(|a, b| compare_triples(a, b));
    controls.dedup();
    controls
}

/// Whether the triple stands before those with this subject and predicate, or with them where that is asked.
fn goes_before(triple: &Triple, subject: &Term, predicate: &Term, with_equal: bool) -> bool
    ensures { result ≡ goes_before with_equal subject.now predicate.now triple.now }
{
    match compare_pair(triple, subject, predicate) {
        Ordering::Less => true,
        Ordering::Equal => with_equal,
        Ordering::Greater => false,
    }
}

/// How many triples stand before those with this subject and predicate, these counted where that is asked.
fn place(triples: &[&Triple], subject: &Term, predicate: &Term, with_equal: bool) -> usize
    requires { IsStrictlySortedBy length_triple_order (borrowed_triples triples.now) }
    ensures within { result ≤ length triples.now }
    ensures before { (k : ℕ) (d : Bor Triple) → k < result
        → goes_before with_equal subject.now predicate.now (slice_index_or triples.now k d).now ≡ true }
    ensures behind { (k : ℕ) (d : Bor Triple) → result ≤ k → k < length triples.now
        → goes_before with_equal subject.now predicate.now (slice_index_or triples.now k d).now ≡ false }
{
    triples.partition_point(|triple| goes_before(triple, subject, predicate, with_equal))
}

/// The triples with this subject and predicate, in the order of their objects.
fn range_of<'b, 'a>(triples: &'b [&'a Triple], subject: &Term, predicate: &Term) -> &'b [&'a Triple]
    requires { IsStrictlySortedBy length_triple_order (borrowed_triples triples.now) }
    ensures ascending { IsStrictlySortedBy length_order (objects_in result.now) }
    ensures members { (object : Term) → Contains (objects_in result.now) object
        ↔ Contains (borrowed_triples triples.entry.now) (triple subject.now predicate.now object) }
{
    let from = place(triples, subject, predicate, false);
    let to = place(triples, subject, predicate, true);
    &triples[from..to]
}

/// Whether the triple stands before the one of these terms.
fn is_triple_before(triple: &Triple, subject: &Term, predicate: &Term, object: &Term) -> bool
    ensures { result ≡ is_triple_before
        (record { subject = subject.now; predicate = predicate.now; object = object.now }) triple.now }
{
    matches!(
        compare_terms(triple, subject, predicate, object),
        Ordering::Less
    )
}

/// Whether the triple is the one of these terms.
fn is_triple(triple: &Triple, subject: &Term, predicate: &Term, object: &Term) -> bool
    ensures { IsTrue result ↔ (triple.now
        ≡ record { subject = subject.now; predicate = predicate.now; object = object.now }) }
{
    triple.subject.same(subject) && triple.predicate.same(predicate) && triple.object.same(object)
}

/// Whether one of the triples, which stand in their order, is the one of these terms: one search, where their range takes
/// two.
fn has_triple(triples: &[&Triple], subject: &Term, predicate: &Term, object: &Term) -> bool
    requires { IsStrictlySortedBy length_triple_order (borrowed_triples triples.now) }
    ensures { IsTrue result ↔ Contains (borrowed_triples triples.now) (triple subject.now predicate.now object.now) }
{
    let place = triples.partition_point(|one| is_triple_before(one, subject, predicate, object));
    place < triples.len() && is_triple(triples[place], subject, predicate, object)
}

impl<'a> Controls<'a> {
    /// The control triples of a body under its topic, which is an IRI, from those of its control quads, which `controls_in`
    /// gives. It takes no memory.
    pub fn new(quads: &'a [Quad], topic: &'a Term, triples: Vec<&'a Triple>) -> Controls<'a>
        requires topic { (text : List ℕ) × (topic.now ≡ terms.Iri text) }
        requires triples { borrowed_triples triples.items ≡ filter_map (control_of quads.now topic.now) quads.now }
        ensures quads { result.quads ≡ quads.entry.now }
        ensures topic { topic.entry.now ≡ terms.Iri result.topic }
    {
        let triples = sorted_controls(triples);
        Controls {
            quads,
            topic,
            triples,
        }
    }

    /// The topic: the IRI of the page.
    pub fn topic(&self) -> &Term
        ensures { result.now ≡ terms.Iri self.now.topic }
    {
        self.topic
    }

    /// The control triples, each once, in the order of the lengths of their terms.
    pub fn triples(&self) -> &[&'a Triple]
        ensures { AreControls self.now.quads self.now.topic (borrowed_triples result.now) }
    {
        self.triples.as_slice()
    }

    /// The control triples with this subject and predicate, in the order of their objects.
    pub fn objects(&self, subject: &Term, predicate: &Term) -> &[&'a Triple]
        ensures ascending { IsStrictlySortedBy length_order (objects_in result.now) }
        ensures members { (object : Term) → Contains (objects_in result.now) object
            ↔ Says self.now.quads self.now.topic subject.now predicate.now object }
    {
        range_of(self.triples.as_slice(), subject, predicate)
    }

    /// Whether a control triple has these terms.
    pub(crate) fn holds(&self, subject: &Term, predicate: &Term, object: &Term) -> bool
        ensures { IsTrue result ↔ Says self.now.quads self.now.topic subject.now predicate.now object.now }
    {
        has_triple(self.triples(), subject, predicate, object)
    }
}

// The triples of a page.
ghost use Rattle.std.specs.Prelude.{◌≡◌, IfOk};
ghost use Rattle.std.specs.List.{list_any};
ghost use Rattle.control_triples.specs.Contents.{page_triples, HasBlankData};
ghost use Rattle.page_controls.specs.Outcomes.{Answers};
ghost use Rattle.control_triples.specs.Marks.{marked};
ghost use Rattle.control_reader.specs.Ascending.{triples_of};
ghost use Rattle.control_reader.specs.Blanks.{is_blank, holds_blank, TakesTriples};

use fragment_page::PageFault;
use rdf_terms::{Quad, Term, Triple};
use std::alloc::Global;
use tpf_base::OutOfMemory;

fn is_blank(term: &Term) -> bool
    ensures { result ≡ is_blank term.now }
{
    matches!(term, Term::Blank(_))
}

fn holds_blank(triple: &Triple) -> bool
    ensures { result ≡ holds_blank triple.now }
{
    is_blank(&triple.subject) || (is_blank(&triple.predicate) || is_blank(&triple.object))
}

fn have_blank(triples: &[Triple]) -> bool
    ensures { result ≡ list_any holds_blank triples.now }
{
    triples.iter().any(|triple| holds_blank(triple))
}

/// The triple of a quad.
fn triple_of(quad: Quad) -> Triple
    ensures { result ≡ quad.triple }
{
    drop(quad.graph);
    quad.triple
}

/// The triples of the marked quads.
fn marked(alloc: Global, quads: Vec<Quad>, marks: Vec<bool>) -> Result<Vec<Triple>, OutOfMemory>
    ensures { IfOk result (λ v. v.items ≡ marked quads.items marks.items) }
{
    let triples = quads
        .into_iter()
        .zip(marks)
        .filter(|(_, mark)| *mark)
        .map(|(quad, _)| triple_of(quad))
        .collect(alloc)?;
    Ok(triples)
}

/// The triples of the quads.
fn triples_of(alloc: Global, quads: Vec<Quad>) -> Result<Vec<Triple>, OutOfMemory>
    ensures { IfOk result (λ v. v.items ≡ triples_of quads.items) }
{
    let triples = quads
        .into_iter()
        .map(|quad| triple_of(quad))
        .collect(alloc)?;
    Ok(triples)
}

/// The distinct triples of the default graph, where all quads stand in it and no triple comes twice.
pub(crate) fn take_all(alloc: Global, quads: Vec<Quad>) -> Result<Vec<Triple>, PageFault>
    requires { triples_of quads.items ≡ page_triples quads.items }
    ensures { Answers (λ v. TakesTriples quads.items v.items)
        (λ fault. (fault ≡ PageFault.BlankData) × HasBlankData quads.items) result }
{
    let triples = triples_of(alloc, quads)?;
    if have_blank(triples.as_slice()) {
        return Err(PageFault::BlankData);
    }
    Ok(triples)
}

/// The distinct triples of the default graph, in the order of their first lines, where the first quads with them are
/// marked.
pub(crate) fn take_triples(
    alloc: Global,
    quads: Vec<Quad>,
    marks: Vec<bool>,
) -> Result<Vec<Triple>, PageFault>
    requires { marked quads.items marks.items ≡ page_triples quads.items }
    ensures { Answers (λ v. TakesTriples quads.items v.items)
        (λ fault. (fault ≡ PageFault.BlankData) × HasBlankData quads.items) result }
{
    let triples = marked(alloc, quads, marks)?;
    if have_blank(triples.as_slice()) {
        return Err(PageFault::BlankData);
    }
    Ok(triples)
}

// The solutions of a basic graph pattern.
use crate::answers::rows_text;
use case_rows::{Case, CaseFault};
use nquads_text::read_all;
use pattern_parser::parse;
use plain_answers::solutions;
use rdf_terms::{Quad, Triple};
use std::alloc::Global;

/// The most bytes of a term's canonical text in the data of a row.
const LONGEST: usize = 1000;

/// The triple of a quad.
fn triple_of(quad: Quad) -> Triple {
    drop(quad.graph);
    quad.triple
}

/// The triples of a text, whatever their graphs.
fn triples_of(alloc: Global, text: &[u8]) -> Result<Vec<Triple>, CaseFault> {
    let Ok(quads) = read_all(alloc, text, LONGEST) else {
        return Err(CaseFault::Row);
    };
    let triples = quads
        .into_iter()
        .map(|quad| triple_of(quad))
        .collect(alloc)?;
    Ok(triples)
}

/// The solutions of a query of one basic graph pattern over the triples of N-Quads text.
fn solved_over(alloc: Global, text: &[u8], triples: &[Triple]) -> Result<String, CaseFault> {
    let Ok(query) = parse(alloc, text) else {
        return Err(CaseFault::Row);
    };
    match solutions(alloc, triples, &query) {
        Ok(rows) => rows_text(alloc, &query, rows.as_slice()),
        Err(_) => Err(CaseFault::OutOfMemory),
    }
}

/// `text`, `data`: how many solutions a query of one basic graph pattern has over the triples of N-Quads text, and they
/// in the order of their bytes, each by its terms for the selected names.
pub fn solved(alloc: Global, case: &mut Case<'_>) -> Result<String, CaseFault> {
    let text = case.bytes(alloc, "text")?;
    let data = case.bytes(alloc, "data")?;
    let triples = triples_of(alloc, data.as_slice())?;
    solved_over(alloc, text.as_slice(), triples.as_slice())
}

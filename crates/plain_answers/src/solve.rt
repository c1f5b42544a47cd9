// The solutions of a query over a list of triples.
ghost use Rattle.std.specs.Prelude.{◌≡◌, length, IfOk, OnOk, map, ◌++◌, ◌||◌};
ghost use Rattle.std.specs.List.{AllByRecursion};
ghost use Rattle.bgp_core.specs.Queries.{HasPlacesFor};
ghost use Rattle.rdf_terms.specs.Same.{triple_eq};
ghost use Rattle.rdf_terms.specs.declared.term.Triple.{Triple};
ghost use Rattle.bgp_core.specs.Solutions.{solutions, distinct, solutions_of};
ghost use Rattle.plain_answers.specs.Seen.{is_seen, once_more};

use bgp_core::{Pattern, Query, Row, match_triple};
use rdf_terms::Triple;
use std::alloc::Global;
use std::collections::BTreeSet;
use text_base::OutOfMemory;

/// Adds a triple at the end, unless it was seen before.
fn add_new<'a>(
    seen: &mut BTreeSet<&'a Triple>,
    once: &mut Vec<&'a Triple>,
    triple: &'a Triple,
) -> Result<(), OutOfMemory>
    ensures once { OnOk result (map (λ t. t.now) once.new.items ≡
        map (λ t. t.now) once.old.items ++ once_more (is_seen seen.old triple.entry.now) triple.entry.now) }
    ensures seen { OnOk result ((q : Triple) →
        is_seen seen.new q ≡ (triple_eq triple.entry.now q || is_seen seen.old q)) }
{
    if seen.insert(triple)? {
        once.push(triple)?;
    }
    Ok(())
}

/// The distinct triples, in the order of their first places.
fn distinct<'a>(alloc: Global, triples: &'a [Triple]) -> Result<Vec<&'a Triple>, OutOfMemory>
    ensures { IfOk result (λ once. map (λ t. t.now) once.items ≡ distinct triples.now) }
{
    let mut seen = BTreeSet::new(alloc);
    let mut once = Vec::new(alloc);
    for triple in triples {
        add_new(&mut seen, &mut once, triple)?;
    }
    Ok(once)
}

/// Adds the solutions of the patterns that extend a row. Where no pattern is left, this is the row itself.
fn extend_all(
    alloc: Global,
    triples: &[&Triple],
    patterns: &[Pattern],
    row: Row,
    out: &mut Vec<Row>,
) -> Result<(), OutOfMemory>
    requires { AllByRecursion (HasPlacesFor (length row)) patterns.now }
    ensures { OnOk result (out.new.items ≡ out.old.items ++ solutions (map (λ t. t.now) triples.now) patterns.now row) }
{
    let [pattern, others @ ..] = patterns else {
        out.push(row)?;
        return Ok(());
    };
    for triple in triples {
        if let Some(next) = match_triple(alloc, pattern, &row, triple)? {
            extend_all(alloc, triples, others, next, out)?;
        }
    }
    Ok(())
}

fn rows_of(alloc: Global, triples: &[Triple], query: &Query) -> Result<Vec<Row>, OutOfMemory>
    ensures { IfOk result (λ v. v.items ≡ solutions_of (distinct triples.now) query.now) }
{
    let once = distinct(alloc, triples)?;
    let empty = Row::empty(alloc, query.names().len());
    let mut rows = Vec::new(alloc);
    extend_all(alloc, &once, query.patterns(), empty, &mut rows)?;
    Ok(rows)
}

/// The solutions of a query over the distinct triples of a list (SPARQL 1.1, 18.3.1), each as often as SPARQL counts it, in
/// the order of nested matching: by the triples of the first pattern, then by those of the second. Each row has a place for
/// every name of the query. The only error is out of memory.
pub fn solutions(alloc: Global, triples: &[Triple], query: &Query) -> Result<Vec<Row>, OutOfMemory>
    ensures fit { IfOk result (λ v. AllByRecursion (λ r. length query.now.names ≡ length r) v.items) }
    ensures rows { IfOk result (λ v. v.items ≡ solutions_of (distinct triples.now) query.now) }
{
    let rows = rows_of(alloc, triples, query)?;
    Ok(rows)
}

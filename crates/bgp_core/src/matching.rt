// Matching one triple.
ghost use Rattle.std.specs.Prelude.{◌≡◌, length, IfOk, IfSome, Option, Some, None, true};
ghost use Rattle.rdf_terms.specs.declared.term.Term.{Term};
ghost use Rattle.rdf_terms.specs.declared.term.Triple.{Triple};
ghost use Rattle.bgp_core.specs.declared.pattern.Pattern.{Pattern};
ghost use Rattle.bgp_core.specs.Queries.{HasPlaceFor, HasPlacesFor};
ghost use Rattle.bgp_core.specs.Solutions.{bind, extension};
ghost use Rattle.bgp_core.specs.Fits.{allows, agree, fits};

use crate::{Part, Pattern, Row};
use rdf_terms::{Term, Triple};
use std::alloc::Global;
use text_base::OutOfMemory;

/// Whether a row lets a part become a term.
fn allows(part: &Part, term: &Term, row: &Row) -> bool
    ensures { result ≡ allows part.now term.now row.now }
{
    match part {
        Part::Fixed(fixed) => fixed.same(term),
        Part::Name(name) => match row.term(*name) {
            Some(bound) => bound.same(term),
            None => true,
        },
    }
}

/// Whether two parts may become two terms: not where they are one name and the terms differ.
fn agree(part: &Part, term: &Term, other: &Part, other_term: &Term) -> bool
    ensures { result ≡ agree part.now term.now other.now other_term.now }
{
    match (part, other) {
        (Part::Name(name), Part::Name(other_name)) => *name != *other_name || term.same(other_term),
        _ => true,
    }
}

/// Whether a row lets a pattern become a triple, tested before anything is copied or moved: each fixed part is its term, each
/// name that is bound has its term, and a name that stands twice would get one term. It is the test of `match_triple`, for
/// callers that move the terms of their triple. It takes no memory.
pub fn fits(pattern: &Pattern, row: &Row, triple: &Triple) -> bool
    ensures { result ≡ fits pattern.now row.now triple.now }
{
    allows(&pattern.subject, &triple.subject, row)
        && allows(&pattern.predicate, &triple.predicate, row)
        && allows(&pattern.object, &triple.object, row)
        && agree(
            &pattern.subject,
            &triple.subject,
            &pattern.predicate,
            &triple.predicate,
        )
        && agree(
            &pattern.subject,
            &triple.subject,
            &pattern.object,
            &triple.object,
        )
        && agree(
            &pattern.predicate,
            &triple.predicate,
            &pattern.object,
            &triple.object,
        )
}

/// The row extended so that a part becomes a term, if there is one. The term is copied where its name was not bound.
fn bind(alloc: Global, part: &Part, term: &Term, mut row: Row) -> Result<Option<Row>, OutOfMemory>
    requires { HasPlaceFor (length row) part.now }
    ensures value { IfOk result (λ o. o ≡ bind part.now term.now row) }
    ensures length { IfOk result (λ o. IfSome o (λ r. length r ≡ length row)) }
{
    match part {
        Part::Fixed(fixed) => Ok(if fixed.same(term) { Some(row) } else { None }),
        Part::Name(name) => match row.term(*name) {
            Some(bound) => Ok(if bound.same(term) { Some(row) } else { None }),
            None => {
                row.bind(alloc, *name, term.copy(alloc)?)?;
                Ok(Some(row))
            }
        },
    }
}

/// Binds the three parts of a pattern in a row, one after another.
#[tactic(auto, unfolding(crate::specs::Solutions::extension))]
fn bind_all(
    alloc: Global,
    pattern: &Pattern,
    row: Row,
    triple: &Triple,
) -> Result<Option<Row>, OutOfMemory>
    requires { HasPlacesFor (length row) pattern.now }
    ensures value { IfOk result (λ o. o ≡ extension pattern.now row triple.now) }
    ensures length { IfOk result (λ o. IfSome o (λ r. length r ≡ length row)) }
{
    let Some(row) = bind(alloc, &pattern.subject, &triple.subject, row)? else {
        return Ok(None);
    };
    let Some(row) = bind(alloc, &pattern.predicate, &triple.predicate, row)? else {
        return Ok(None);
    };
    bind(alloc, &pattern.object, &triple.object, row)
}

/// The row extended by the names of the pattern so that the pattern becomes the triple (SPARQL 1.1,
/// 18.3): `None` exactly where there is no such row. The row is copied only where there is one, and shares what was bound
/// with it; the terms of the names that are bound anew are copied. Condition: the row has a place for every name of the
/// pattern. The only error is out of memory.
pub fn match_triple(
    alloc: Global,
    pattern: &Pattern,
    row: &Row,
    triple: &Triple,
) -> Result<Option<Row>, OutOfMemory>
    requires { HasPlacesFor (length row.now) pattern.now }
    ensures value { IfOk result (λ o. o ≡ extension pattern.now row.now triple.now) }
    ensures length { IfOk result (λ o. IfSome o (λ r. length r ≡ length row.now)) }
{
    if !fits(pattern, row, triple) {
        return Ok(None);
    }
    bind_all(alloc, pattern, row.copy(alloc)?, triple)
}

// The extension of a row by a triple that is taken apart.
ghost use Rattle.std.specs.Prelude.{◌≡◌, length, IfOk, IfSome, Some, true};
ghost use Rattle.bgp_core.specs.Queries.{HasPlaceFor, HasPlacesFor};
ghost use Rattle.bgp_core.specs.Solutions.{bind, extension};
ghost use Rattle.bgp_core.specs.Fits.{allows, fits};

use bgp_core::{Part, Pattern, Row, fits};
use rdf_terms::{Term, Triple};
use std::alloc::Global;
use tpf_base::OutOfMemory;

/// The row with the name of a part bound to a term. The term is moved where the name was not bound,
/// and dropped where it was, or where the part is a term. Condition: the row lets the part become
/// the term.
fn bind(alloc: Global, part: &Part, term: Term, mut row: Row) -> Result<Row, OutOfMemory>
    requires place { HasPlaceFor (length row) part.now }
    requires allowed { allows part.now term row ≡ true }
    ensures value { IfOk result (λ r. bind part.now term row ≡ Some r) }
    ensures length { IfOk result (λ r. length r ≡ length row) }
{
    match part {
        Part::Name(name) if row.term(*name).is_none() => row.bind(alloc, *name, term)?,
        _ => drop(term),
    }
    Ok(row)
}

/// The row with the names of a pattern bound to the terms of a triple, which is taken apart.
/// Condition: the row lets the pattern become the triple.
fn bind_all(alloc: Global, pattern: &Pattern, triple: Triple, row: Row) -> Result<Row, OutOfMemory>
    requires places { HasPlacesFor (length row) pattern.now }
    requires allowed { fits pattern.now row triple ≡ true }
    ensures value { IfOk result (λ r. extension pattern.now row triple ≡ Some r) }
    ensures length { IfOk result (λ r. length r ≡ length row) }
{
    let Triple {
        subject,
        predicate,
        object,
    } = triple;
    let begun = match bind(alloc, &pattern.subject, subject, row) {
        Ok(begun) => begun,
        Err(fault) => {
            drop(predicate);
            drop(object);
            return Err(fault);
        }
    };
    let grown = match bind(alloc, &pattern.predicate, predicate, begun) {
        Ok(grown) => grown,
        Err(fault) => {
            drop(object);
            return Err(fault);
        }
    };
    let whole = bind(alloc, &pattern.object, object, grown)?;
    Ok(whole)
}

/// The row extended by the names of the pattern so that the pattern becomes the triple: `None`
/// exactly where there is no such row. The row is copied only where there is one, and shares what
/// was bound with it; the terms of the names that are bound anew are moved out of the triple, each
/// once, and the others are dropped. Condition: the row has a place for every name of the pattern.
pub(crate) fn extension(
    alloc: Global,
    pattern: &Pattern,
    row: &Row,
    triple: Triple,
) -> Result<Option<Row>, OutOfMemory>
    requires { HasPlacesFor (length row.now) pattern.now }
    ensures value { IfOk result (λ o. o ≡ extension pattern.now row.now triple) }
    ensures length { IfOk result (λ o. IfSome o (λ r. length r ≡ length row.now)) }
{
    if !fits(pattern, row, &triple) {
        drop(triple);
        return Ok(None);
    }
    match row.copy(alloc) {
        Ok(copy) => Ok(Some(bind_all(alloc, pattern, triple, copy)?)),
        Err(fault) => {
            drop(triple);
            Err(fault)
        }
    }
}

// What the definitions of queries say of every text.
ghost use Rattle.pattern_parser.specs.Productions.{AsProduced};
ghost use Rattle.pattern_parser.specs.Queries.{OneQuery};
ghost use Rattle.pattern_parser.specs.Read.{ReadAsProduced};
ghost use Rattle.pattern_parser.specs.Written.{TermsAsWritten};

use crate::tokens::{one_fault, one_reading};

/// A text is exactly one of the two: one query, or a text with one first fault, which has a kind
/// and a place.
pub fn one_query()
    ensures { OneQuery }
{
    one_reading();
    one_fault();
}

/// The patterns that the productions of a block give, each its own (TriplesBlock, TriplesSameSubject,
/// PropertyListNotEmpty, ObjectList; SPARQL 1.1, section 19.8), are those that are read.
pub fn as_produced()
    ensures { AsProduced }
{}

/// Between the braces of each text that is read stands a block of SPARQL's productions, or nothing,
/// and the query's patterns are those that the productions give (SPARQL 1.1, section 19.8).
pub fn read_as_produced()
    ensures { ReadAsProduced }
{}

/// In each query every token that is a term stands for it as it is written: no IRI, datatype or
/// language tag is dropped (SPARQL 1.1, section 4.1).
pub fn terms_as_written()
    ensures { TermsAsWritten }
{}

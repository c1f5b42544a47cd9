//! The limits that definitions here name. They are this project's own.

/// The most bytes of a blank node's label, in text that is read.
pub const LONGEST_LABEL: usize = 1024;

/// The most bytes of the canonical text of a term, in data that are served.
pub const LONGEST_TERM: usize = 262144;

/// The most bytes of a fixed term's texts that a query need not write, in a round sum: `a` stands for
/// an IRI of 47 bytes, and a bare number or Boolean has a datatype's IRI of at most 40 (SPARQL 1.1
/// Query, 4.1.2 and 4.2.4).
pub const MOST_UNWRITTEN: usize = 60;

/// The most bytes of the canonical text of a term, in a page that is read.
pub const LONGEST_READ: usize = 4194304;

/// The most triples, and the most distinct terms, of data that are served.
pub const MOST_TRIPLES: u32 = 16777215;

/// The most rows by which one selection is restricted.
pub const MOST_ROWS: usize = 64;

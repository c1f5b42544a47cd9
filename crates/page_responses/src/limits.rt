//! The limits that definitions here name. They are this project's own.

/// The most bytes of a part of a response. A buffer of as many is kept while nothing is owed on a
/// connection: a page of a hundred triples has its place there.
pub const LONGEST_PART: usize = 16384;

/// How many bytes of a long line's source are written in one part: each is written as at most two.
pub const PART: usize = 8192;

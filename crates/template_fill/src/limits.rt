//! The limits that definitions here name. They are this project's own.

/// The most bytes of the text of a start, and of a server's base, for which success is promised.
pub const LONGEST_START: usize = 65536;

/// The most triples of a page.
pub const LARGEST_PAGE: u64 = 1000;

//! The limits that definitions here and above name. They are this project's own, but for the highest
//! port.

/// The most bytes of a request's head, together with the empty lines before it.
pub const HEAD_LIMIT: usize = 4194304;

/// The most bytes of all heads of one reply, and of the lines after a body in chunks.
pub const HEADS_LIMIT: usize = 65536;

/// The most bytes of the line that gives a chunk's size.
pub const LINE_LIMIT: usize = 1024;

/// How many bytes the chunk lines and the line ends behind chunks may have together, beside eight for
/// each byte of the body.
pub const PADDING_LIMIT: usize = 1048576;

/// The highest port: 16 bits hold it (RFC 9293, section 3.1).
pub const HIGHEST_PORT: usize = 65535;

/// How many bytes of a response are made before they are sent, where so many are owed.
pub const ENOUGH_PENDING: usize = 65536;

/// The most header fields of a head.
pub const MOST_FIELDS: usize = 64;

/// The most hexadecimal digits of a chunk's size, zeros in front and all.
pub const MOST_CHUNK_DIGITS: usize = 15;

/// The most digits of a number that a page gives, zeros in front and all: its count of triples and
/// the version of the data. Each number of so many digits fits 64 bits.
pub const MOST_DIGITS: usize = 19;

/// The highest number of `MOST_DIGITS` digits, 9999999999999999999: of a version, of a page's count of
/// triples, of a seed.
pub const HIGHEST_NUMBER: u64 = 9999999999999999999;

/// The most connections that a client keeps open.
pub const MOST_LINKS: u32 = 256;

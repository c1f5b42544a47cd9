//! What a client and a server take where no option says otherwise.

/// How many rows a client extends at once.
pub const USUAL_WINDOW: u32 = 16;

/// How many connections a client keeps open.
pub const USUAL_LINKS: u32 = 8;

/// How often a client sends a request again that failed.
pub const USUAL_RETRIES: u32 = 2;

/// How many exchanges a client starts at most.
pub const USUAL_BUDGET: u64 = 1000000;

/// The most bytes of a reply's body that a client takes: 16 MiB.
pub const USUAL_BODY: u64 = 16777216;

/// How many triples a page of a server has.
pub const USUAL_PAGE: u64 = 100;

// What bounds a call, and what it tells at its end.
use request_plan::BlockSize;

/// What bounds a call.
#[derive(Clone, Copy)]
pub struct Options {
    /// How many nodes of the join may work at once, at least 1: so many rows are extended at a time.
    pub window: u32,
    /// For how many rows one request may ask, from 1, which is row by row, to `MOST_ROWS` (64): a server
    /// that restricts its fragments by rows (brTPF) answers a block of them at once, and any other answers
    /// with all that match the pattern.
    pub block: BlockSize,
    /// How many requests may be under way at once, and how many connections (links) are kept open, from 1
    /// to `MOST_LINKS` (256).
    pub links: u32,
    /// How often a request that failed is sent again. 0: a request that fails ends the call.
    pub retries: u32,
    /// How many requests may be started, those that are sent again counted each time.
    pub budget: u64,
    /// How many bytes the body of a reply may have. A reply with more of them is refused.
    pub max_body: u64,
}

/// What a call tells at its end.
#[derive(Clone, Copy)]
pub struct Report {
    /// How many requests were started, those that were sent again counted each time.
    pub requests: u64,
    /// How many rows there are. It stands still at 2^64 - 1.
    pub rows: u64,
    /// The version of the data that the start page tells, which each other page told as well; `None` where
    /// it tells none.
    pub version: Option<u64>,
}

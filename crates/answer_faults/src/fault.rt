// What came of a query: why it has no whole answer, and the numbers of one whose answer is counted alone.

use data_files::{DataFault, QueryFileFault};
use tpf_client::ClientFault;

/// Why a query has no whole answer.
#[derive(Debug, Drop)]
pub enum AnswerFault {
    /// The data of the file are not served.
    Data(DataFault),
    /// The query is not read.
    Query(QueryFileFault),
    /// The call over the wire ended before its result was whole.
    Client(ClientFault),
}

/// What a query of generated data came to.
#[derive(Clone, Copy)]
pub struct Counts {
    /// How many triples the data have, each counted once.
    pub triples: u64,
    /// How many rows the result has. It stands still at 2^64 - 1.
    pub rows: u64,
}

// Why a file is not read, or what it holds is not served.

use group_faults::GroupWhy;
use nquads_text::Why;
use tpf_base::Text;

/// Why the data of a file are not served. Where the shelf tells what the file holds, all but the last
/// two are said by that alone, and at most one of them is true.
#[derive(Debug, Drop)]
pub enum DataFault {
    /// The file has more than `MOST_BYTES` (1073741824) bytes.
    TooLong,
    /// The first line with a fault, and its first fault. No term has a canonical text of more than
    /// `LONGEST_TERM` (262144) bytes.
    Bad { line: u64, why: Why },
    /// The least label of a blank node whose Skolem IRI stands in the chosen triples already.
    GenidClash(Text),
    /// The distinct triples that are chosen, or their distinct terms, are more than `MOST_TRIPLES`
    /// (16777215).
    TooMany,
    /// The file could not be read: the shelf's count of faults rose.
    File,
    /// Out of memory.
    OutOfMemory,
}

/// Why the query of a file is not read.
#[derive(Clone, Copy, Debug, PartialEq, Eq)]
pub enum QueryFileFault {
    /// The first fault of the query, and the byte at which it stands, from 0, in the grammar of queries
    /// with groups. A file of more than `LONGEST_QUERY` (262144) bytes is too long a query, at that byte.
    Bad { at: usize, why: GroupWhy },
    /// The file could not be read: the shelf's count of faults rose.
    File,
    /// Out of memory.
    OutOfMemory,
}

// Why a text is no query.
use text_base::OutOfMemory;

/// The kinds of faults of a query's text. Of several, the first kind in this order is told, and of
/// this kind the first place. Places are in bytes, from 0.
#[derive(Clone, Copy, Debug, PartialEq, Eq)]
pub enum QueryWhy {
    /// The text has more than `LONGEST_QUERY` bytes (262144); the place is that number.
    TooLong,
    /// The text is not UTF-8; the place is the length of its longest prefix that is.
    Utf8,
    /// Some place begins no token, no white space and no comment; the first such place.
    Token,
    /// The tokens are no query; the first token with which the tokens so far begin none, or the
    /// text's length where they end too early.
    Grammar,
    /// A prefixed name, from SELECT on, whose prefix is not declared; the first.
    UnknownPrefix,
    /// An IRI with no scheme, also one of a PREFIX; the first.
    RelativeIri,
    /// A string with the datatype rdf:langString, which has no language tag (RDF 1.1 Concepts,
    /// section 3.3); the first.
    LangString,
    /// More than `MOST_PATTERNS` triple patterns (64); the object that completes one too many.
    TooManyPatterns,
}

/// Why a text gives no query.
#[derive(Clone, Copy, Debug)]
pub enum QueryFault {
    /// The first fault of the text and its place, in bytes from 0.
    Bad { at: usize, why: QueryWhy },
    /// Out of memory.
    OutOfMemory,
}

impl From<OutOfMemory> for QueryFault {
    ghost use Rattle.std.specs.Prelude.{◌≡◌};
    ghost use Rattle.pattern_parser.specs.declared.fault.QueryFault.TheVariants.{OutOfMemory};

    ghost from_gives = { λ _ e. e ≡ OutOfMemory };

    fn from(_: OutOfMemory) -> Self {
        QueryFault::OutOfMemory
    }
}

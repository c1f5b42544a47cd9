// Faults of texts.
use std::alloc::AllocError;

/// The faults of a line, by the grammar (RDF 1.1 N-Quads 4) and by the limits of the reader. The first of them in this
/// order is told.
#[derive(Clone, Copy, Debug)]
pub enum Why {
    /// The line's bytes are not UTF-8.
    Utf8,
    /// The line is neither blank nor a comment, and no statement.
    Statement,
    /// A numeric escape names a surrogate or more than U+10FFFF, or in an IRI a character that an IRI may not hold.
    Escape,
    /// An IRI has no scheme; N-Quads has no base that it could be relative to.
    RelativeIri,
    /// A literal has the datatype rdf:langString, which comes by a tag alone (RDF 1.1 Concepts 3.3).
    LangString,
    /// A term's canonical text has more bytes than the reader takes, or a label has more than `LONGEST_LABEL` (1024).
    TermTooLong,
}

/// Why a text is not read.
#[derive(Clone, Copy, Debug)]
pub enum TextFault {
    /// The first line with a fault, counted from 1, and its first fault. A number above `u64::MAX` is told as that.
    Bad { line: u64, why: Why },
    /// Memory ran out.
    OutOfMemory,
}

impl From<AllocError> for TextFault {
    ghost use Rattle.std.specs.Prelude.{◌≡◌};
    ghost use Rattle.nquads_text.specs.declared.fault.TextFault.TheVariants.{OutOfMemory};

    ghost from_gives = { λ _ e. e ≡ OutOfMemory };

    fn from(_: AllocError) -> Self {
        TextFault::OutOfMemory
    }
}

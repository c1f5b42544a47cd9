// The kinds of pieces that a query's text is made of.

/// What a piece of a query's text is: white space, a comment, or a token of some kind (SPARQL 1.1,
/// section 19.8).
#[derive(Clone, Copy, Debug, PartialEq, Eq)]
pub enum PieceKind {
    /// White space: one or more of WS.
    White,
    /// A comment: `#` and what follows it on the line (section 19.4).
    Comment,
    /// IRIREF, in which a numeric escape may stand.
    Iri,
    /// PNAME_NS, as `foaf:`.
    Prefix,
    /// PNAME_LN, as `foaf:name`.
    Prefixed,
    /// VAR1 or VAR2.
    Variable,
    /// BLANK_NODE_LABEL.
    Blank,
    /// ANON: `[` and `]` with white space alone between.
    Anonymous,
    /// STRING_LITERAL1 or STRING_LITERAL2.
    Str,
    /// LANGTAG.
    Tag,
    /// INTEGER, INTEGER_POSITIVE or INTEGER_NEGATIVE.
    Integer,
    /// DECIMAL, DECIMAL_POSITIVE or DECIMAL_NEGATIVE.
    Decimal,
    /// DOUBLE, DOUBLE_POSITIVE or DOUBLE_NEGATIVE.
    Double,
    /// One or more ASCII letters, as the keywords have them.
    Word,
    /// `{`
    OpenBrace,
    /// `}`
    CloseBrace,
    /// `.`
    Dot,
    /// `;`
    Semicolon,
    /// `,`
    Comma,
    /// `*`
    Star,
    /// `^^`
    Carets,
}

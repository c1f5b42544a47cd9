// The kinds of token that the grammar of queries tells apart.

/// What a token is to the grammar (SPARQL 1.1, section 19.8). A word is a keyword, or another.
#[derive(Clone, Copy, Debug)]
pub enum Kind {
    /// IRIREF.
    Iri,
    /// PNAME_NS.
    Prefix,
    /// PNAME_LN.
    Prefixed,
    /// Var.
    Variable,
    /// BLANK_NODE_LABEL.
    Blank,
    /// ANON.
    Anonymous,
    /// String.
    Str,
    /// LANGTAG.
    Tag,
    /// NumericLiteral.
    Number,
    /// `PREFIX`, in any case.
    PrefixWord,
    /// `SELECT`, in any case.
    SelectWord,
    /// `WHERE`, in any case.
    WhereWord,
    /// `true`, in any case.
    TrueWord,
    /// `false`, in any case.
    FalseWord,
    /// `a`, in lower case.
    TypeWord,
    /// `DISTINCT`, in any case. It stands in no query without groups.
    DistinctWord,
    /// `OPTIONAL`, in any case, likewise.
    OptionalWord,
    /// `UNION`, in any case, likewise.
    UnionWord,
    /// Any other word, which stands in no query here.
    OtherWord,
    /// `{`
    OpenBrace,
    /// `}`
    CloseBrace,
    /// `.`
    Dot,
    /// `;`
    Semicolon,
    /// `,`
    Comma,
    /// `*`
    Star,
    /// `^^`
    Carets,
}

// What the definitions of queries say of every text.
ghost use Rattle.pattern_parser.specs.Short.{TermsAreShort};

/// In each query the texts of a fixed term, its IRI or its form with the datatype or language tag,
/// have at most `MOST_UNWRITTEN` bytes (60) more together than a query's text may have (262204). They
/// stand in the text, but for rdf:type and the datatypes of numbers, `true` and `false`.
pub fn terms_are_short()
    ensures { TermsAreShort }
{}

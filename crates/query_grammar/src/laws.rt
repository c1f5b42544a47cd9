// What the grammars say of every list of kinds of token.
ghost use Rattle.query_grammar.specs.Groups.{PlainIsQuery};

/// Without DISTINCT, OPTIONAL and UNION, and with one opening brace at most, tokens are a query with
/// groups exactly where they are a query, and have the same fault.
pub fn plain_is_query()
    ensures { PlainIsQuery }
{}

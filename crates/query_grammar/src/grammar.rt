// Which kinds of token are a query, and where they stop to be one.
ghost use Rattle.std.specs.Prelude.{MatchOption};
ghost use Rattle.query_grammar.specs.Grammar.{IsQuery, IsGrammarFault};

use crate::kind::Kind;
use crate::machine::{State, is_end, next};

/// The number of the first token with which the tokens so far begin no query, counted from 0, or
/// the number of tokens where they only end too early; `None` exactly where they are a query: a
/// SELECT of one basic graph pattern, without paths (SPARQL 1.1, section 19.8).
pub fn grammar_fault(kinds: &[Kind]) -> Option<usize>
    ensures { MatchOption result (IsQuery kinds.now) (λ n. IsGrammarFault kinds.now n) }
{
    let mut state = State::Start;
    for (i, kind) in kinds.iter().enumerate() {
        match next(state, *kind) {
            Some(after) => state = after,
            None => return Some(i),
        }
    }
    if is_end(state) {
        None
    } else {
        Some(kinds.len())
    }
}

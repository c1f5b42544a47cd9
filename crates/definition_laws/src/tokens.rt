// What the definitions of tokens and the grammars over their kinds say of every list.
ghost use Rattle.query_grammar.specs.Grammar.{OneFault};
ghost use Rattle.query_grammar.specs.Groups.{OneGroupFault};
ghost use Rattle.query_tokens.specs.Pieces.{OneReading};

use crate::expressions::{beginning_is_decided, matching_is_decided};

/// A text has exactly one of the two: one list of tokens, or one first fault.
pub fn one_reading()
    ensures { OneReading }
{
    matching_is_decided();
}

/// Tokens are exactly one of the two: a query, or a list with one place of fault. Whatever begins
/// a query can be completed, so that the first token that cannot come is known at once.
pub fn one_fault()
    ensures { OneFault }
{
    matching_is_decided();
    beginning_is_decided();
}

/// Tokens are exactly one of the two: a query with groups, or a list with one place of fault.
pub fn one_group_fault()
    ensures { OneGroupFault }
{}

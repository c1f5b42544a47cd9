// What the definitions of queries with groups say of every text and tree.
ghost use Rattle.group_parser.specs.Texts.{OneGroupQuery, PlainTextsAgree};
ghost use Rattle.group_query.specs.Laws.{StepsAreTrees};

use crate::patterns::one_query;
use crate::tokens::one_group_fault;
use query_grammar::laws::plain_is_query;

/// A text is exactly one of the two: one query with groups, or a text with one first fault, which has a
/// kind and a place.
pub fn one_group_query()
    ensures { OneGroupQuery }
{
    one_query();
    one_group_fault();
}

/// A text whose tokens hold none of DISTINCT, OPTIONAL and UNION and at most one `{` is the same query for
/// both readers, its patterns being the one block, or has the same fault.
pub fn plain_texts_agree()
    ensures { PlainTextsAgree }
{
    plain_is_query();
}

/// Steps are those of one tree alone: the steps of a tree give that tree.
pub fn steps_are_trees()
    ensures { StepsAreTrees }
{}

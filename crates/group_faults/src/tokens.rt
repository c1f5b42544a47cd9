// The tokens of a text that the grammar of groups reads.
ghost use Rattle.std.specs.Prelude.{◌≡◌, ◌≤◌, ℕ, length, IfOk, OnOk, IsErrOf};
ghost use Rattle.query_tokens.specs.declared.piece.TheConstants.{LONGEST_QUERY};
ghost use Rattle.query_words.specs.Words.{kinds_of};
ghost use Rattle.query_grammar.specs.Groups.{IsGroupQuery, IsGroupFault};
ghost use Rattle.pattern_parser.specs.declared.fault.QueryWhy.{QueryWhy};
ghost use Rattle.pattern_parser.specs.Queries.{ReadsTokens, place_or};
ghost use Rattle.group_faults.specs.declared.fault.GroupWhy.{GroupWhy};
ghost use Rattle.group_faults.specs.Faults.{ReadsGroupWords, GroupFaultAt};

use crate::fault::{GroupFault, GroupWhy, as_group_fault};
use pattern_parser::{QueryWhy, place_or, token_words};
use query_grammar::groups::group_fault;
use query_words::word::{Word, kinds_of};
use std::alloc::Global;

/// What the tokens of a text say.
fn words_of(alloc: Global, text: &[u8]) -> Result<Vec<Word>, GroupFault>
    ensures words { IfOk result (λ v. ReadsTokens text.now v.items) }
    ensures few { IfOk result (λ v. length v.items ≤ LONGEST_QUERY) }
    ensures bad { (w : GroupWhy) (at : ℕ) → IsErrOf result (GroupFault.Bad at w) → GroupFaultAt text.now w at }
{
    match token_words(alloc, text) {
        Ok(words) => Ok(words),
        Err(fault) => Err(as_group_fault(fault)),
    }
}

/// Finds the first token with which the tokens so far begin no query with groups.
fn check_grammar(alloc: Global, words: &[Word], end: usize) -> Result<(), GroupFault>
    ensures ok { OnOk result (IsGroupQuery (kinds_of words.now)) }
    ensures bad { (w : GroupWhy) (at : ℕ) → IsErrOf result (GroupFault.Bad at w)
        → (w ≡ GroupWhy.Basic QueryWhy.Grammar)
        × (n : ℕ) × IsGroupFault (kinds_of words.now) n × (at ≡ place_or words.now n end) }
{
    let kinds = kinds_of(alloc, words)?;
    match group_fault(alloc, kinds.as_slice()) {
        Ok(None) => Ok(()),
        Ok(Some(number)) => Err(GroupFault::Bad {
            at: place_or(words, number, end),
            why: GroupWhy::Basic(QueryWhy::Grammar),
        }),
        Err(_) => Err(GroupFault::OutOfMemory),
    }
}

/// What the tokens of a text say that the grammar of groups reads. `Bad` exactly where it reads none, with
/// the first fault: of the text's length, of UTF-8, of a token or of the grammar. `OutOfMemory` comes only
/// where memory runs out.
pub fn group_words(alloc: Global, text: &[u8]) -> Result<Vec<Word>, GroupFault>
    ensures words { IfOk result (λ v. ReadsGroupWords text.now v.items) }
    ensures few { IfOk result (λ v. length v.items ≤ LONGEST_QUERY) }
    ensures bad { (w : GroupWhy) (at : ℕ) → IsErrOf result (GroupFault.Bad at w) → GroupFaultAt text.now w at }
{
    let words = words_of(alloc, text)?;
    check_grammar(alloc, words.as_slice(), text.len())?;
    Ok(words)
}

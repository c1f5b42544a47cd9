// The first fault of tokens that the grammar of groups reads.
ghost use Rattle.std.specs.Prelude.{◌≡◌, ◌≤◌, ℕ, length, OnOk, IsErrOf, Some, None};
ghost use Rattle.query_tokens.specs.declared.piece.TheConstants.{LONGEST_QUERY};
ghost use Rattle.pattern_parser.specs.Prefixes.{iris};
ghost use Rattle.pattern_parser.specs.Queries.{term_fault};
ghost use Rattle.group_faults.specs.declared.fault.GroupWhy.{GroupWhy};
ghost use Rattle.group_faults.specs.Faults.{basic_or, HasBlockFault, group_fault_with};

use crate::fault::{GroupFault, GroupWhy};
use crate::limits::{excess_in_groups, first_deep};
use crate::shared::first_shared;
use pattern_parser::{Prefixes, QueryFault, QueryWhy, before_brace, check_terms};
use query_words::word::Word;
use std::alloc::Global;

fn bad(at: usize, why: GroupWhy) -> GroupFault
    ensures { result ≡ GroupFault.Bad at why }
{
    GroupFault::Bad { at, why }
}

/// Finds the first fault of names and terms, in the tokens from SELECT on and in all.
fn check_names(prefixes: &Prefixes, words: &[Word], body: &[Word]) -> Result<(), GroupFault>
    ensures ok { OnOk result (term_fault (iris prefixes.now) words.now body.now ≡ None) }
    ensures bad { (w : GroupWhy) (at : ℕ) → IsErrOf result (GroupFault.Bad at w)
        → basic_or (term_fault (iris prefixes.now) words.now body.now) None ≡ Some (w, at) }
{
    match check_terms(prefixes, words, body) {
        Ok(()) => Ok(()),
        Err(QueryFault::Bad { at, why }) => Err(bad(at, GroupWhy::Basic(why))),
        Err(QueryFault::OutOfMemory) => Err(GroupFault::OutOfMemory),
    }
}

/// Finds the first fault of the groups, in the tokens from the first brace on.
fn check_block(alloc: Global, block: &[Word]) -> Result<(), GroupFault>
    requires { length block.now ≤ LONGEST_QUERY }
    ensures ok { OnOk result (HasBlockFault block.now None) }
    ensures bad { (w : GroupWhy) (at : ℕ) → IsErrOf result (GroupFault.Bad at w)
        → HasBlockFault block.now (Some (w, at)) }
{
    if let Some(at) = excess_in_groups(block) {
        return Err(bad(at, GroupWhy::Basic(QueryWhy::TooManyPatterns)));
    }
    if let Some(at) = first_deep(block) {
        return Err(bad(at, GroupWhy::TooDeep));
    }
    match first_shared(alloc, block)? {
        Some(at) => Err(bad(at, GroupWhy::SharedBlank)),
        None => Ok(()),
    }
}

/// Finds the first fault of tokens that the grammar of groups reads, of which those from SELECT on are
/// given too, with these prefixes. `Bad` exactly where they have one; `OutOfMemory` comes only where memory
/// runs out.
pub fn check_groups(
    alloc: Global,
    prefixes: &Prefixes,
    words: &[Word],
    body: &[Word],
) -> Result<(), GroupFault>
    requires { length body.now ≤ LONGEST_QUERY }
    ensures ok { OnOk result (group_fault_with (iris prefixes.now) words.now body.now ≡ None) }
    ensures bad { (w : GroupWhy) (at : ℕ) → IsErrOf result (GroupFault.Bad at w)
        → group_fault_with (iris prefixes.now) words.now body.now ≡ Some (w, at) }
{
    check_names(prefixes, words, body)?;
    let (_, block) = body.split_at(before_brace(body));
    check_block(alloc, block)
}

// The query with groups that a text is.
ghost use Rattle.std.specs.Prelude.{◌≡◌, ◌≤◌, ℕ, length, IfOk, OnOk, IsErrOf, Some, None};
ghost use Rattle.query_tokens.specs.declared.piece.TheConstants.{LONGEST_QUERY};
ghost use Rattle.query_words.specs.Words.{kinds_of};
ghost use Rattle.query_grammar.specs.Groups.{IsGroupQuery, ArePlain};
ghost use Rattle.pattern_parser.specs.Prefixes.{iris};
ghost use Rattle.pattern_parser.specs.Queries as queries;
ghost use Rattle.group_faults.specs.declared.fault.GroupWhy.{GroupWhy};
ghost use Rattle.group_faults.specs.Faults.{group_fault, GroupFaultAt};
ghost use Rattle.group_parser.specs.Texts.{IsGroupText, ReadsGroups};
ghost use Rattle.group_parser.specs.Asking.{IsAsked, IsAskedBy, IsPlainQuery};

use crate::build::build;
use bgp_core::Query;
use group_faults::{GroupFault, as_group_fault, check_groups, group_words};
use group_query::GroupQuery;
use pattern_parser::{
    Prefixes, before_brace, before_select, is_plain, prefixes_of, query_of_words,
};
use query_grammar::laws;
use query_words::word::Word;
use std::alloc::Global;

/// The query with groups of tokens that the grammar reads, of which those from SELECT on are given too,
/// with these prefixes, or the first fault of what they say.
fn query_with(
    alloc: Global,
    prefixes: &Prefixes,
    words: &[Word],
    body: &[Word],
) -> Result<GroupQuery, GroupFault>
    requires few { length body.now ≤ LONGEST_QUERY }
    requires query { IsGroupQuery (kinds_of words.now) }
    requires body { body.now ≡ queries.body words.now }
    requires prefixes { iris prefixes.now ≡ queries.prefixes words.now }
    ensures fine { OnOk result (group_fault words.now ≡ None) }
    ensures query { IfOk result (λ g. IsGroupText (queries.prefixes words.now) (queries.body words.now) g) }
    ensures bad { (w : GroupWhy) (at : ℕ) → IsErrOf result (GroupFault.Bad at w)
        → group_fault words.now ≡ Some (w, at) }
{
    check_groups(alloc, prefixes, words, body)?;
    let (select, block) = body.split_at(before_brace(body));
    Ok(build(alloc, prefixes, select, block)?)
}

/// The query with groups of tokens that the grammar reads, or the first fault of what they say.
fn group_query_of(alloc: Global, words: &[Word]) -> Result<GroupQuery, GroupFault>
    requires few { length words.now ≤ LONGEST_QUERY }
    requires query { IsGroupQuery (kinds_of words.now) }
    ensures fine { OnOk result (group_fault words.now ≡ None) }
    ensures query { IfOk result (λ g. IsGroupText (queries.prefixes words.now) (queries.body words.now) g) }
    ensures bad { (w : GroupWhy) (at : ℕ) → IsErrOf result (GroupFault.Bad at w)
        → group_fault words.now ≡ Some (w, at) }
{
    let (prologue, body) = words.split_at(before_select(words));
    let prefixes = prefixes_of(alloc, prologue)?;
    query_with(alloc, &prefixes, words, body)
}

/// The query with groups that a text is (SPARQL 1.1, sections 5, 6, 7, 15.3 and 18.2): blocks of triple
/// patterns, groups, UNION and OPTIONAL, nested at most `MOST_OPEN` (32) deep, with `SELECT` or `SELECT DISTINCT`.
/// `Bad` exactly where it is none, with its first fault and its place; `OutOfMemory` comes only where memory
/// runs out.
pub fn parse_group(alloc: Global, text: &[u8]) -> Result<GroupQuery, GroupFault>
    ensures query { IfOk result (λ g. ReadsGroups text.now g) }
    ensures bad { (w : GroupWhy) (at : ℕ) → IsErrOf result (GroupFault.Bad at w) → GroupFaultAt text.now w at }
{
    let words = group_words(alloc, text)?;
    group_query_of(alloc, words.as_slice())
}

/// A query: one basic graph pattern, or groups.
#[derive(Drop)]
pub enum Asked {
    Plain(Query),
    Groups(GroupQuery),
}

/// The query of tokens with at most one opening brace and none of DISTINCT, OPTIONAL and UNION, which the
/// grammar of groups reads.
fn plain_query_of(alloc: Global, words: &[Word]) -> Result<Query, GroupFault>
    requires few { length words.now ≤ LONGEST_QUERY }
    requires query { IsGroupQuery (kinds_of words.now) }
    requires plain { ArePlain 1 (kinds_of words.now) }
    ensures query { IfOk result (λ q. IsPlainQuery words.now q) }
    ensures bad { (w : GroupWhy) (at : ℕ) → IsErrOf result (GroupFault.Bad at w)
        → group_fault words.now ≡ Some (w, at) }
{
    laws::plain_is_query();
    match query_of_words(alloc, words) {
        Ok(query) => Ok(query),
        Err(fault) => Err(as_group_fault(fault)),
    }
}

/// The query of tokens that the grammar of groups reads.
fn asked_of(alloc: Global, words: &[Word]) -> Result<Asked, GroupFault>
    requires few { length words.now ≤ LONGEST_QUERY }
    requires query { IsGroupQuery (kinds_of words.now) }
    ensures query { IfOk result (λ asked. IsAskedBy words.now asked) }
    ensures bad { (w : GroupWhy) (at : ℕ) → IsErrOf result (GroupFault.Bad at w)
        → group_fault words.now ≡ Some (w, at) }
{
    if is_plain(words) {
        Ok(Asked::Plain(plain_query_of(alloc, words)?))
    } else {
        Ok(Asked::Groups(group_query_of(alloc, words)?))
    }
}

/// The query that a text is, read as `parse` does where its tokens hold none of DISTINCT, OPTIONAL and
/// UNION and one `{`, and as `parse_group` does else; the faults are those of `parse_group` in both cases.
pub fn parse_asked(alloc: Global, text: &[u8]) -> Result<Asked, GroupFault>
    ensures query { IfOk result (λ asked. IsAsked text.now asked) }
    ensures bad { (w : GroupWhy) (at : ℕ) → IsErrOf result (GroupFault.Bad at w) → GroupFaultAt text.now w at }
{
    let words = group_words(alloc, text)?;
    asked_of(alloc, words.as_slice())
}

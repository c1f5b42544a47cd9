// The query that a text is.
ghost use Rattle.std.specs.Prelude.{◌≡◌, ◌≤◌, ℕ, length, IfOk, OnOk, IsErrOf, Some, None};
ghost use Rattle.query_tokens.specs.declared.piece.TheConstants.{LONGEST_QUERY};
ghost use Rattle.query_words.specs.Words.{kinds_of};
ghost use Rattle.query_grammar.specs.Grammar.{IsQuery, IsGrammarFault};
ghost use Rattle.pattern_parser.specs.declared.fault.QueryWhy.{QueryWhy};
ghost use Rattle.pattern_parser.specs.Prefixes.{iris};
ghost use Rattle.pattern_parser.specs.Queries.{place_or, fault_with, later_fault, query_of, prefixes, body, ReadsTokens, ReadsQuery, FaultAt, IsTokenFaultAt};

use crate::build::{build, check_terms};
use crate::fault::{QueryFault, QueryWhy};
use crate::prefixes::{Prefixes, prefixes_of};
use crate::select::before_select;
use crate::token::{characters, pieces_of, text_of};
use bgp_core::Query;
use query_grammar::grammar::grammar_fault;
use query_words::word::{Word, kinds_of, words_of};
use std::alloc::Global;

/// What the tokens of a text say.
pub fn token_words(alloc: Global, text: &[u8]) -> Result<Vec<Word>, QueryFault>
    ensures words { IfOk result (λ v. ReadsTokens text.now v.items) }
    ensures few { IfOk result (λ v. length v.items ≤ LONGEST_QUERY) }
    ensures bad { (w : QueryWhy) (at : ℕ) → IsErrOf result (QueryFault.Bad at w) → IsTokenFaultAt text.now w at }
{
    let chars = characters(alloc, text_of(text)?)?;
    let pieces = pieces_of(alloc, chars.as_slice())?;
    Ok(words_of(alloc, chars.as_slice(), pieces.as_slice())?)
}

/// The place of the token with this number, or the end.
pub fn place_or(words: &[Word], number: usize, end: usize) -> usize
    ensures { result ≡ place_or words.now number end }
{
    match words.get(number) {
        Some(word) => word.at,
        None => end,
    }
}

/// Finds the first token with which the tokens so far begin no query.
fn check_grammar(alloc: Global, words: &[Word], end: usize) -> Result<(), QueryFault>
    ensures ok { OnOk result (IsQuery (kinds_of words.now)) }
    ensures bad { (w : QueryWhy) (at : ℕ) → IsErrOf result (QueryFault.Bad at w) → (w ≡ QueryWhy.Grammar)
        × (n : ℕ) × IsGrammarFault (kinds_of words.now) n × (at ≡ place_or words.now n end) }
{
    let kinds = kinds_of(alloc, words)?;
    match grammar_fault(kinds.as_slice()) {
        None => Ok(()),
        Some(number) => Err(QueryFault::Bad {
            at: place_or(words, number, end),
            why: QueryWhy::Grammar,
        }),
    }
}

/// The query of tokens that the grammar reads, of which those from SELECT on are given too, with
/// these prefixes, or the first fault of what they say.
fn query_with(
    alloc: Global,
    prefixes: &Prefixes,
    words: &[Word],
    body: &[Word],
) -> Result<Query, QueryFault>
    requires { length body.now ≤ LONGEST_QUERY }
    ensures fine { OnOk result (fault_with (iris prefixes.now) words.now body.now ≡ None) }
    ensures query { IfOk result (λ q. q ≡ query_of (iris prefixes.now) body.now) }
    ensures bad { (w : QueryWhy) (at : ℕ) → IsErrOf result (QueryFault.Bad at w)
        → fault_with (iris prefixes.now) words.now body.now ≡ Some (w, at) }
{
    check_terms(prefixes, words, body)?;
    build(alloc, prefixes, body)
}

/// The query of tokens that the grammar reads, or the first fault of what they say.
pub fn query_of_words(alloc: Global, words: &[Word]) -> Result<Query, QueryFault>
    requires { length words.now ≤ LONGEST_QUERY }
    ensures fine { OnOk result (later_fault words.now ≡ None) }
    ensures query { IfOk result (λ q. q ≡ query_of (prefixes words.now) (body words.now)) }
    ensures bad { (w : QueryWhy) (at : ℕ) → IsErrOf result (QueryFault.Bad at w)
        → later_fault words.now ≡ Some (w, at) }
{
    let (prologue, body) = words.split_at(before_select(words));
    let prefixes = prefixes_of(alloc, prologue)?;
    query_with(alloc, &prefixes, words, body)
}

/// The query that a text is (SPARQL 1.1, sections 4 and 19.8): its patterns in their order, its names
/// by their first place, and the numbers of those that are selected. `Bad` exactly where it is none,
/// with its first fault and its place; `OutOfMemory` comes only where memory runs out.
pub fn parse(alloc: Global, text: &[u8]) -> Result<Query, QueryFault>
    ensures query { IfOk result (λ q. ReadsQuery text.now q) }
    ensures bad { (w : QueryWhy) (at : ℕ) → IsErrOf result (QueryFault.Bad at w) → FaultAt text.now w at }
{
    let words = token_words(alloc, text)?;
    check_grammar(alloc, words.as_slice(), text.len())?;
    query_of_words(alloc, words.as_slice())
}

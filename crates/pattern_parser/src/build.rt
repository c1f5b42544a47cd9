// A query from its tokens.
ghost use Rattle.std.specs.Prelude.{if◌then◌else◌, ◌≡◌, ◌<◌, ◌≤◌, ◌+◌, ◌-◌, ◌^◌, ℕ, length, OnOk, IfOk, IsErrOf, Some, None};
ghost use Rattle.query_tokens.specs.declared.piece.TheConstants.{LONGEST_QUERY};
ghost use Rattle.pattern_parser.specs.declared.fault.QueryWhy.{QueryWhy};
ghost use Rattle.pattern_parser.specs.Names.{variable_numbers};
ghost use Rattle.pattern_parser.specs.Numbers.{AreNumbered};
ghost use Rattle.pattern_parser.specs.Prefixes.{iris};
ghost use Rattle.pattern_parser.specs.Items.{names_after};
ghost use Rattle.pattern_parser.specs.Triples.{block_patterns};
ghost use Rattle.pattern_parser.specs.Queries.{triples_of, query_of, excess, term_fault};

use crate::fault::{QueryFault, QueryWhy};
use crate::item::{items_of, names_of};
use crate::limit::excess_in;
use crate::names::Names;
use crate::prefixes::{Prefixes, first_lang, first_relative, first_unknown};
use crate::select::{before_brace, has_star, variable_numbers};
use crate::triple::patterns;
use bgp_core::{Pattern, Query};
use query_words::word::Word;
use std::alloc::Global;
use text_base::{OutOfMemory, Text};

/// Finds the first fault of names and terms, in the tokens from SELECT on and in all.
pub fn check_terms(prefixes: &Prefixes, words: &[Word], body: &[Word]) -> Result<(), QueryFault>
    ensures ok { OnOk result (term_fault (iris prefixes.now) words.now body.now ≡ None) }
    ensures bad { (w : QueryWhy) (at : ℕ) → IsErrOf result (QueryFault.Bad at w)
        → term_fault (iris prefixes.now) words.now body.now ≡ Some (w, at) }
{
    if let Some(at) = first_unknown(prefixes, body) {
        return Err(QueryFault::Bad {
            at,
            why: QueryWhy::UnknownPrefix,
        });
    }
    if let Some(at) = first_relative(words) {
        return Err(QueryFault::Bad {
            at,
            why: QueryWhy::RelativeIri,
        });
    }
    if let Some(at) = first_lang(prefixes, body) {
        return Err(QueryFault::Bad {
            at,
            why: QueryWhy::LangString,
        });
    }
    Ok(())
}

/// The numbers of the variables in some tokens, whose names join those given.
pub fn listed(alloc: Global, names: &mut Names, words: &[Word]) -> Result<Vec<u32>, OutOfMemory>
    requires numbered { AreNumbered names.old }
    requires few { length names.old.texts.items + length words.now < 2 ^ 32 - 1 }
    ensures numbers { IfOk result (λ v. v.items ≡ variable_numbers 0 names.new.texts.items) }
    ensures names { OnOk result (names.new.texts.items ≡ names_after names.old.texts.items 0 words.now) }
    ensures numbered { OnOk result (AreNumbered names.new) }
    ensures few { OnOk result (length names.new.texts.items ≤ length names.old.texts.items + length words.now) }
{
    names_of(alloc, names, words)?;
    variable_numbers(alloc, names.texts.as_slice())
}

/// The patterns of a block of tokens, whose names join those given. `OutOfMemory` comes only where memory
/// runs out.
pub fn block_patterns(
    alloc: Global,
    prefixes: &Prefixes,
    names: &mut Names,
    words: &[Word],
) -> Result<Vec<Pattern>, OutOfMemory>
    requires numbered { AreNumbered names.old }
    requires few { length names.old.texts.items + length words.now < 2 ^ 32 - 1 }
    ensures patterns { IfOk result (λ v. v.items
        ≡ block_patterns (iris prefixes.now) names.old.texts.items words.now) }
    ensures names { OnOk result (names.new.texts.items ≡ names_after names.old.texts.items 0 words.now) }
    ensures numbered { OnOk result (AreNumbered names.new) }
    ensures few { OnOk result (length names.new.texts.items ≤ length names.old.texts.items + length words.now) }
{
    let items = items_of(alloc, prefixes, names, words)?;
    patterns(alloc, items)
}

/// The selected numbers: those of all names where `*` stands, or else those listed.
pub fn chosen(
    alloc: Global,
    star: bool,
    listed: Vec<u32>,
    names: &[Text],
) -> Result<Vec<u32>, OutOfMemory>
    requires { length names.now < 2 ^ 32 }
    ensures { IfOk result (λ v. v.items ≡ (if star then variable_numbers 0 names.now else listed.items)) }
{
    if star {
        variable_numbers(alloc, names)
    } else {
        Ok(listed)
    }
}

/// The query that the tokens from SELECT on are, or its excess of patterns.
pub fn build(alloc: Global, prefixes: &Prefixes, body: &[Word]) -> Result<Query, QueryFault>
    requires { length body.now ≤ LONGEST_QUERY }
    ensures ok { IfOk result (λ q. (q ≡ query_of (iris prefixes.now) body.now)
        × (excess (triples_of (iris prefixes.now) body.now) ≡ None)) }
    ensures bad { (w : QueryWhy) (at : ℕ) → IsErrOf result (QueryFault.Bad at w)
        → (w ≡ QueryWhy.TooManyPatterns) × (excess (triples_of (iris prefixes.now) body.now) ≡ Some at) }
{
    let (select, block) = body.split_at(before_brace(body));
    if let Some(at) = excess_in(block) {
        return Err(QueryFault::Bad {
            at,
            why: QueryWhy::TooManyPatterns,
        });
    }
    let mut names = Names::new(alloc);
    let numbers = listed(alloc, &mut names, select)?;
    let patterns = block_patterns(alloc, prefixes, &mut names, block)?;
    let Names { texts, places: _ } = names;
    let selected = chosen(alloc, has_star(select), numbers, texts.as_slice())?;
    Ok(Query::new(patterns, texts, selected))
}

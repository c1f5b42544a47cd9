// A query with groups from its tokens.
ghost use Rattle.std.specs.Prelude.{◌≡◌, ◌≤◌, ◌+◌, length, IfOk};
ghost use Rattle.query_tokens.specs.declared.piece.TheConstants.{LONGEST_QUERY};
ghost use Rattle.pattern_parser.specs.Prefixes.{iris};
ghost use Rattle.group_parser.specs.Texts.{is_distinct, has_distinct, IsGroupIn};
ghost use Rattle.group_parser.specs.Building.{IsProduced};

use crate::walk::steps_of;
use group_query::GroupQuery;
use pattern_parser::{Names, Prefixes, chosen, has_star, listed};
use query_words::word::{Value, Word};
use std::alloc::Global;
use text_base::OutOfMemory;

fn is_distinct(value: &Value) -> bool
    ensures { result ≡ is_distinct value.now }
{
    matches!(value, Value::DistinctWord)
}

/// Whether some token is DISTINCT.
fn has_distinct(words: &[Word]) -> bool
    ensures { result ≡ has_distinct words.now }
{
    for word in words {
        if is_distinct(&word.value) {
            return true;
        }
    }
    false
}

/// The query that the tokens of a SELECT part and those from the first brace on are. `OutOfMemory` comes
/// only where memory runs out.
pub fn build(
    alloc: Global,
    prefixes: &Prefixes,
    select: &[Word],
    block: &[Word],
) -> Result<GroupQuery, OutOfMemory>
    requires few { length select.now + length block.now ≤ LONGEST_QUERY }
    requires group { IsProduced (iris prefixes.now) select.now block.now }
    ensures { IfOk result (λ g. IsGroupIn (iris prefixes.now) select.now block.now g) }
{
    let mut names = Names::new(alloc);
    let numbers = listed(alloc, &mut names, select)?;
    let steps = steps_of(alloc, prefixes, &mut names, block)?;
    let Names { texts, places: _ } = names;
    let selected = chosen(alloc, has_star(select), numbers, texts.as_slice())?;
    let distinct = has_distinct(select);
    Ok(GroupQuery::new(alloc, steps, texts, selected, distinct))
}

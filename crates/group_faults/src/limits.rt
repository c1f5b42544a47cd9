// Too many patterns, and groups too deep. Both are found from the tokens alone, before a term is made.
ghost use Rattle.std.specs.Prelude.{◌≡◌, ◌≤◌, ◌<◌, ◌+◌, ℕ, List, Option, length, IfSome, IfNone};
ghost use Rattle.pattern_parser.specs.Queries.{excess};
ghost use Rattle.group_faults.specs.Signs.{runs_of};
ghost use Rattle.group_faults.specs.Faults.{triples_in, depth_after, deep_from};
ghost use Rattle.group_faults.specs.Walks.{runs_from, IsOverIn, GoesBehind, IsOver, GoesOn};

use crate::sign::{is_other, sign_of};
use pattern_parser::{MOST_PATTERNS, PatternCount, count_patterns};
use query_words::word::{Value, Word};

/// The most groups that are open at once, one inside another.
pub const MOST_OPEN: usize = 32;

/// A walk over the runs of tokens between signs.
#[derive(Drop)]
struct Walk {
    /// Where the run begins.
    from: usize,
    /// How many more patterns there may be.
    left: usize,
}

impl Walk {
    /// Counts the patterns of the run before a token, and gives the place of the object that completes one
    /// too many.
    fn count(&mut self, run: &[Word]) -> Option<usize>
        ensures over { IfSome result (λ at. IsOverIn run.now self.old.left at) }
        ensures within { IfNone result (GoesBehind run.now self.old.left self.new.left) }
        ensures from { self.new.from ≡ self.old.from }
    {
        match count_patterns(self.left, run) {
            PatternCount::Over(at) => Some(at),
            PatternCount::Left(more) => {
                self.left = more;
                None
            }
        }
    }

    /// Takes the token at `i`: where it is a sign, the patterns of the run before it are counted.
    fn take(&mut self, words: &[Word], i: usize) -> Option<usize>
        requires from { self.old.from ≤ i }
        requires within { i < length words.now }
        ensures over { IfSome result (λ at. IsOver (runs_from self.old.from i words.now) self.old.left at) }
        ensures within { IfNone result (GoesOn (runs_from self.old.from i words.now) self.old.left
            (runs_from self.new.from (i + 1) words.now) self.new.left) }
        ensures from { IfNone result (self.new.from ≤ i + 1) }
    {
        if is_other(sign_of(&words[i].value)) {
            return None;
        }
        let run = &words[self.from..i];
        self.from = i + 1;
        self.count(run)
    }
}

/// The place of the object that completes a pattern after the first `MOST_PATTERNS` of all blocks, if there
/// is one, whatever the prefixes stand for.
pub fn excess_in_groups(words: &[Word]) -> Option<usize>
    ensures { (iri : List ℕ → Option (List ℕ)) (names : List (List ℕ))
        → result ≡ excess (triples_in iri names (runs_of words.now)) }
{
    let mut walk = Walk {
        from: 0,
        left: MOST_PATTERNS,
    };
    for i in 0..words.len() {
        if let Some(at) = walk.take(words, i) {
            return Some(at);
        }
    }
    let from = walk.from;
    walk.count(&words[from..])
}

/// How many groups are open behind a token, unless it opens one too many.
fn depth_after(depth: usize, value: &Value) -> Option<usize>
    requires { depth ≤ MOST_OPEN }
    ensures value { result ≡ depth_after depth value.now }
    ensures within { IfSome result (λ n. n ≤ MOST_OPEN) }
{
    match value {
        Value::OpenBrace => {
            if depth < MOST_OPEN {
                Some(depth + 1)
            } else {
                None
            }
        }
        Value::CloseBrace => Some(depth.saturating_sub(1)),
        _ => Some(depth),
    }
}

/// The place of the first `{` that opens a group inside `MOST_OPEN` others.
pub fn first_deep(words: &[Word]) -> Option<usize>
    ensures { result ≡ deep_from 0 words.now }
{
    let mut depth: usize = 0;
    for word in words {
        match depth_after(depth, &word.value) {
            Some(open) => depth = open,
            None => return Some(word.at),
        }
    }
    None
}

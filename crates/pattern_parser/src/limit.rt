// Where a block has one triple pattern too many. It is found from the tokens alone, before a term
// is made: a long subject is copied once for each of its objects, so that making all patterns first
// would take memory that grows with the square of the text.
ghost use Rattle.std.specs.Prelude.{◌≡◌, ◌∷◌, ℕ, List, Option, IsTrue, IsFalse, Some};
ghost use Rattle.pattern_parser.specs.Limits.{role_of, next_after, is_object, count_after, Counts};
ghost use Rattle.pattern_parser.specs.Queries.{excess};
ghost use Rattle.pattern_parser.specs.Triples.{block_triples};

use crate::item::more;
use query_words::word::{Value, Word};

/// The most triple patterns of a query.
pub const MOST_PATTERNS: usize = 64;

/// What a token is in a block.
#[derive(Clone, Copy)]
pub enum Role {
    /// A term or name.
    Part,
    Dot,
    Semicolon,
    Other,
}

/// Which part of a triple pattern the next term or name is.
#[derive(Clone, Copy)]
pub enum Next {
    Subject,
    Verb,
    Object,
}

/// A walk over the tokens of a block.
#[derive(Drop)]
struct Walk {
    next: Next,
    /// How many more patterns there may be.
    left: usize,
    /// How many of the next tokens belong to one before them.
    skip: usize,
}

fn role_of(value: &Value) -> Role
    ensures { result ≡ role_of value.now }
{
    match value {
        Value::Iri(_)
        | Value::Prefix(_)
        | Value::Prefixed(_, _)
        | Value::Variable(_)
        | Value::Label(_)
        | Value::Anonymous
        | Value::Str(_)
        | Value::Integer(_)
        | Value::Decimal(_)
        | Value::Double(_)
        | Value::True
        | Value::False
        | Value::TypeWord => Role::Part,
        Value::Dot => Role::Dot,
        Value::Semicolon => Role::Semicolon,
        _ => Role::Other,
    }
}

fn next_after(next: Next, role: Role) -> Next
    ensures { result ≡ next_after next role }
{
    match (next, role) {
        (Next::Subject, Role::Part) => Next::Verb,
        (_, Role::Part) => Next::Object,
        (_, Role::Dot) => Next::Subject,
        (Next::Subject, Role::Semicolon) => Next::Subject,
        (_, Role::Semicolon) => Next::Verb,
        (_, Role::Other) => next,
    }
}

fn is_object(next: Next, role: Role) -> bool
    ensures { result ≡ is_object next role }
{
    matches!((next, role), (Next::Object, Role::Part))
}

impl Walk {
    /// Takes one more token with those after it, and says whether it is the object that completes
    /// one pattern too many.
    fn take(&mut self, word: &Word, rest: &[Word]) -> bool
        ensures over { IsTrue result → count_after self.old.next self.old.left self.old.skip (word.now ∷ rest.now)
            ≡ PatternCount.Over word.now.at }
        ensures within { IsFalse result → count_after self.new.next self.new.left self.new.skip rest.now
            ≡ count_after self.old.next self.old.left self.old.skip (word.now ∷ rest.now) }
    {
        if self.skip > 0 {
            self.skip -= 1;
            return false;
        }
        let role = role_of(&word.value);
        if is_object(self.next, role) {
            if self.left == 0 {
                return true;
            }
            self.left -= 1;
        }
        self.next = next_after(self.next, role);
        self.skip = more(&word.value, rest);
        false
    }
}

/// What a block leaves of a number of patterns: the place of the object that completes one too many, or
/// how many more there may be.
#[derive(Clone, Copy)]
pub enum PatternCount {
    Over(usize),
    Left(usize),
}

fn walked(left: usize, words: &[Word]) -> PatternCount
    ensures { result ≡ count_after Next.Subject left 0 words.now }
{
    let mut walk = Walk {
        next: Next::Subject,
        left,
        skip: 0,
    };
    for (i, word) in words.iter().enumerate() {
        if walk.take(word, &words[i + 1..]) {
            return PatternCount::Over(word.at);
        }
    }
    PatternCount::Left(walk.left)
}

/// Counts the patterns of a block of tokens, of which there may be so many, whatever its prefixes stand
/// for.
pub fn count_patterns(left: usize, words: &[Word]) -> PatternCount
    ensures { (iri : List ℕ → Option (List ℕ)) (names : List (List ℕ))
        → Counts left (block_triples iri names words.now) result }
{
    walked(left, words)
}

/// The place of the object that completes one pattern of a block more than a query may have, if there is
/// one, whatever its prefixes stand for.
pub fn excess_in(words: &[Word]) -> Option<usize>
    ensures { (iri : List ℕ → Option (List ℕ)) (names : List (List ℕ))
        → result ≡ excess (block_triples iri names words.now) }
{
    match count_patterns(MOST_PATTERNS, words) {
        PatternCount::Over(at) => Some(at),
        PatternCount::Left(_) => None,
    }
}

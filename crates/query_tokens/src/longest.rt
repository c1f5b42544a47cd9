// The longest token at a place.
ghost use Rattle.std.specs.Prelude.{◌≡◌, ◌≤◌, false, length, drop, MatchOption, IsTrue};
ghost use Rattle.query_tokens.specs.Machine.{kind_at, better};
ghost use Rattle.query_tokens.specs.Names.{leads, IsRun, IsInName};
ghost use Rattle.query_tokens.specs.Forms.{NoToken, IsLongest};

use crate::ahead::{Run, leads_nowhere};
use crate::class::class_of;
use crate::kind::PieceKind;
use crate::machine::{State, step};

fn better(best: Option<(PieceKind, usize)>, state: State, n: usize) -> Option<(PieceKind, usize)>
    ensures { result ≡ better best (kind_at state) n }
{
    match state.kind() {
        Some(kind) => Some((kind, n)),
        None => best,
    }
}

fn is_in_name(state: State) -> bool
    ensures { IsTrue result → IsInName state }
{
    matches!(state, State::Name | State::NameDots)
}

/// Whether the machine stands in a name that comes to no colon.
fn ends_nowhere(state: State, chars: &[char], place: usize, run: &mut Run) -> bool
    requires within { place ≤ length chars.now }
    requires run { IsRun chars.now run.old }
    ensures run { IsRun chars.now run.new }
    ensures name { IsTrue result → IsInName state }
    ensures nowhere { IsTrue result → leads false (drop place chars.now) ≡ false }
{
    if is_in_name(state) {
        leads_nowhere(chars, place, run)
    } else {
        false
    }
}

/// The longest of the prefixes of `rest`, which is the text from a place on.
fn longest_front(
    chars: &[char],
    rest: &[char],
    place: usize,
    run: &mut Run,
) -> Option<(PieceKind, usize)>
    requires within { place ≤ length chars.now }
    requires rest { rest.now ≡ drop place chars.now }
    requires run { IsRun chars.now run.old }
    ensures run { IsRun chars.now run.new }
    ensures longest { MatchOption result (NoToken rest.now) (λ p. IsLongest rest.now p.0 p.1) }
{
    let mut state = State::Start;
    let mut best = None;
    for (i, c) in rest.iter().enumerate() {
        match step(state, class_of(*c)) {
            Some(after) => {
                state = after;
                best = better(best, after, i + 1);
            }
            None => return best,
        }
        if ends_nowhere(state, chars, place + i + 1, run) {
            return best;
        }
    }
    best
}

/// The longest prefix of the text from a place on that has the form of a token, white space or a
/// comment, with its kind and how many characters it has.
pub fn longest(chars: &[char], place: usize, run: &mut Run) -> Option<(PieceKind, usize)>
    requires within { place ≤ length chars.now }
    requires run { IsRun chars.now run.old }
    ensures run { IsRun chars.now run.new }
    ensures longest { MatchOption result (NoToken (drop place chars.now))
        (λ p. IsLongest (drop place chars.now) p.0 p.1) }
{
    longest_front(chars, &chars[place..], place, run)
}

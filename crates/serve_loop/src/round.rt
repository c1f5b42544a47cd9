// How a service goes round its connections, a part of them in each turn.
ghost use Rattle.std.specs.Prelude.{◌≡◌, ◌+◌, ◌≤◌, ◌==◌, ◌&&◌, true, if◌then◌else◌};
ghost use Rattle.serve_loop.specs.declared.live.TheConstants.{SPREAD};
ghost use Rattle.serve_loop.specs.Rounds.{IsAfter, is_still};

use crate::live::{Part, SPREAD, Turned};

/// Where a round stands.
#[derive(Clone, Copy)]
pub struct Round {
    /// The number of the first link that it has not come to.
    pub next: u64,
    /// Whether no turn of it moved or ended anything.
    pub quiet: bool,
    /// Links from this number on were given since the last turn began.
    pub begun: u64,
    /// Links from this number on were given since the turn before that began.
    pub newest: u64,
    /// How far apart the numbers of the links of the next row lie at most.
    pub spread: u64,
}

/// Whether a turn moved and ended nothing.
fn is_still(turned: Turned) -> bool
    ensures { result ≡ is_still turned }
{
    !turned.moved && turned.ended == 0
}

/// How far apart the numbers of the links of a row lie at most behind a turn: twice as far as before where that
/// turn moved and ended nothing, so that many idle links take few turns.
fn spread_after(spread: u64, turned: Turned) -> u64
    ensures most { result ≤ (if is_still turned then spread + spread else SPREAD) }
    ensures least { SPREAD ≤ spread → SPREAD ≤ result }
{
    if is_still(turned) {
        return spread.saturating_add(spread);
    }
    SPREAD
}

impl Round {
    /// A round that begins, before the first turn.
    pub fn new() -> Round
        ensures { result ≡ record { next = 0; quiet = true; begun = 0; newest = 0; spread = SPREAD } }
    {
        Round {
            next: 0,
            quiet: true,
            begun: 0,
            newest: 0,
            spread: SPREAD,
        }
    }

    /// Whether the round ended with a turn of this part, and none of its turns moved or ended anything.
    pub fn is_quiet(self, part: Part, turned: Turned) -> bool
        ensures { result ≡ ((part.last == 18446744073709551615) && (self.quiet && is_still turned)) }
    {
        part.last == u64::MAX && (self.quiet && is_still(turned))
    }

    /// Where it stands behind a turn of this part, which began when links from this number on were not given
    /// yet.
    pub fn after(self, part: Part, turned: Turned, begun: u64) -> Round
        ensures { IsAfter self part turned begun result }
    {
        let spread = spread_after(self.spread, turned);
        if part.last == u64::MAX {
            return Round {
                next: 0,
                quiet: true,
                begun,
                newest: self.begun,
                spread,
            };
        }
        Round {
            next: part.last + 1,
            quiet: self.quiet && is_still(turned),
            begun,
            newest: self.begun,
            spread,
        }
    }
}

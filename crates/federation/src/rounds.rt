// The rounds whose pages are gathered.
ghost use Rattle.std.specs.Prelude.{ℕ, IfOk, IfSome, IfNone};
ghost use Rattle.federation.specs.Changes.{WantsAt, NoneWant, AwaitsIn, IsUnknown, HandsIn, PutsAt, TakesIn};

use fragment_page::Page;
use joint_pages::Gathering;
use template_fill::WebAddress;
use tpf_base::OutOfMemory;

/// Where a page is awaited: the place of its round among the rounds, and its place in the round.
#[derive(Clone, Copy)]
pub(crate) struct Spot {
    pub(crate) round: usize,
    pub(crate) part: usize,
}

/// The place of the first round that wants an address.
fn wanting(rounds: &[Gathering]) -> Option<usize>
    ensures some { IfSome result (WantsAt rounds.now) }
    ensures none { IfNone result (NoneWant rounds.now) }
{
    for (place, round) in rounds.iter().enumerate() {
        if round.wants() {
            return Some(place);
        }
    }
    None
}

/// Hands out an address of the round at a place under a ticket. Condition: the round wants one.
fn hand_out_at(
    rounds: &mut Vec<Gathering>,
    place: usize,
    ticket: u64,
) -> Result<Option<WebAddress>, OutOfMemory>
    requires { WantsAt rounds.old.items place }
    ensures { IfOk result (HandsIn rounds.old.items rounds.new.items ticket) }
{
    rounds[place].hand_out(ticket)
}

/// Hands out an address of the first round that wants one under a ticket; `None` exactly where no round does.
pub(crate) fn hand_out(
    rounds: &mut Vec<Gathering>,
    ticket: u64,
) -> Result<Option<WebAddress>, OutOfMemory>
    ensures { IfOk result (HandsIn rounds.old.items rounds.new.items ticket) }
{
    match wanting(rounds.as_slice()) {
        None => Ok(None),
        Some(place) => hand_out_at(rounds, place, ticket),
    }
}

/// Where the page of a ticket is awaited; `None` exactly where the ticket is not out.
pub(crate) fn find(rounds: &[Gathering], ticket: u64) -> Option<Spot>
    ensures some { IfSome result (λ spot. AwaitsIn rounds.now spot ticket) }
    ensures none { IfNone result (IsUnknown rounds.now ticket) }
{
    for (place, round) in rounds.iter().enumerate() {
        if let Some(part) = round.place_of(ticket) {
            return Some(Spot { round: place, part });
        }
    }
    None
}

/// Puts a page at its spot, and says whether its round is whole then.
fn put_at(rounds: &mut Vec<Gathering>, spot: Spot, page: Page) -> bool
    requires { (ticket : ℕ) × AwaitsIn rounds.old.items spot ticket }
    ensures { (ticket : ℕ) → AwaitsIn rounds.old.items spot ticket →
        PutsAt rounds.old.items rounds.new.items spot ticket page result }
{
    let round = &mut rounds[spot.round];
    round.take(spot.part, page);
    round.is_whole()
}

/// Takes the page that is awaited at a spot. Where its round is whole then, it comes out.
pub(crate) fn take(rounds: &mut Vec<Gathering>, spot: Spot, page: Page) -> Option<Gathering>
    requires { (ticket : ℕ) × AwaitsIn rounds.old.items spot ticket }
    ensures { (ticket : ℕ) → AwaitsIn rounds.old.items spot ticket →
        TakesIn rounds.old.items rounds.new.items ticket page result }
{
    if put_at(rounds, spot, page) {
        Some(rounds.remove(spot.round))
    } else {
        None
    }
}

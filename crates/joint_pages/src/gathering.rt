// A round whose pages are gathered.
ghost use Rattle.std.specs.Prelude.{ℕ, ◌≡◌, ◌≢◌, ◌<◌, ◌==◌, List, [], ◌∷◌, length, slice_index_or, slice_set, IfOk, IfSome, IfNone, MatchOption, true, false};
ghost use Rattle.std.specs.Option.{option_map};
ghost use Rattle.std.specs.Rc.{rc_value};
ghost use Rattle.request_plan.specs.Rounds.{taken_of};
ghost use Rattle.request_plan.specs.Worlds.{World};
ghost use Rattle.joint_pages.specs.Parts.{PartData, came, pages_in, are_there};
ghost use Rattle.joint_pages.specs.Gatherings.{begun, HandsNext, AwaitsAt, IsStranger, TakesPart, is_whole};
ghost use Rattle.joint_pages.specs.Joined.{joined_as};
ghost use Rattle.joint_pages.specs.Truths.{AreServers, is_one, HoldsTrue, IsJointPageOf};

use crate::joining::{join_parts, put_copy};
use crate::only::only_page;
use crate::part::Part;
use fragment_page::Page;
use request_plan::{JointPage, RoundAsk, TripleSet};
use std::alloc::Global;
use std::collections::VecDeque;
use std::marker::Model;
use std::rc::Rc;
use template_fill::WebAddress;
use tpf_base::OutOfMemory;

/// A round whose pages are gathered, under the ticket that the round has in its join. Its addresses are handed out one after
/// another, each under a ticket of its own, and each page is taken for the ticket under which it was asked for. When all pages
/// are there they make the joint page of the round.
#[derive(Drop)]
pub struct Gathering {
    number: u64,
    wanted: VecDeque<WebAddress>,
    parts: Vec<Part>,
    taken: Option<Rc<TripleSet>>,
}

impl Model for Gathering {
    ghost use Rattle.std.specs.Option.{option_map};
    ghost use Rattle.std.specs.Rc.{rc_value};
    ghost use Rattle.request_plan.specs.Rounds.{taken_of};
    ghost use Rattle.joint_pages.specs.Gatherings.{GatheringData};

    ghost Value = { GatheringData };

    ghost view = { λ g. record { number = g.number; wanted = g.wanted.items; parts = g.parts.items; taken = taken_of (option_map rc_value g.taken) } };
}

/// The same triples again.
fn copy_set(alloc: Global, set: &TripleSet) -> Result<TripleSet, OutOfMemory>
    ensures { IfOk result (λ copy. copy ≡ set.now) }
{
    let triples = set.as_set().iter();
    let mut copy = TripleSet::new(alloc);
    for triple in triples {
        put_copy(alloc, triple, &mut copy)?;
    }
    Ok(copy)
}

/// The set itself where nobody shares it, or else a copy of it.
fn owned(alloc: Global, taken: Option<Rc<TripleSet>>) -> Result<TripleSet, OutOfMemory>
    ensures { IfOk result (λ set. set ≡ taken_of (option_map rc_value taken)) }
{
    match taken {
        None => Ok(TripleSet::new(alloc)),
        Some(shared) => match Rc::try_unwrap(shared) {
            Ok(set) => Ok(set),
            Err(shared) => copy_set(alloc, &shared),
        },
    }
}

/// Takes out the first address, if there is one.
fn first_of(wanted: &mut VecDeque<WebAddress>) -> Option<WebAddress>
    ensures { MatchOption result ((wanted.old.items ≡ []) × (wanted.new.items ≡ []))
        (λ address. wanted.old.items ≡ address ∷ wanted.new.items) }
{
    wanted.pop_front()
}

/// Whether there is no address.
fn is_none(wanted: &VecDeque<WebAddress>) -> bool
    ensures { result ≡ (length wanted.now.items == 0) }
{
    wanted.is_empty()
}

/// Whether all pages came.
fn all_there(parts: &[Part]) -> bool
    ensures { result ≡ are_there parts.now }
{
    for part in parts {
        if part.is_awaited() {
            return false;
        }
    }
    true
}

/// The place of the first page that is awaited under a ticket.
fn place_in(parts: &[Part], ticket: u64) -> Option<usize>
    ensures some { IfSome result (λ place. AwaitsAt parts.now place ticket) }
    ensures none { IfNone result (IsStranger parts.now ticket) }
{
    for (place, part) in parts.iter().enumerate() {
        if part.awaits(ticket) {
            return Some(place);
        }
    }
    None
}

/// Puts the page of the part at a place.
fn put_at(parts: &mut Vec<Part>, place: usize, page: Page)
    requires { place < length parts.old.items }
    ensures { (part : PartData) → part ≡ slice_index_or parts.old.items place part →
        parts.new.items ≡ slice_set parts.old.items place (came part page) }
{
    parts[place].put(page);
}

impl Gathering {
    /// A round of which nothing was asked for yet: it has an address to hand out. The only error is out of memory.
    pub fn begin(alloc: Global, ask: RoundAsk) -> Result<Gathering, OutOfMemory>
        ensures begun { IfOk result (λ g. g ≡ begun ask) }
        ensures some { IfOk result (λ g. g.wanted ≢ []) }
    {
        let (first, others, taken) = ask.round.into_parts();
        let mut wanted = VecDeque::from_vec(others);
        wanted.push_front(first)?;
        Ok(Gathering {
            number: ask.ticket,
            wanted,
            parts: Vec::new(alloc),
            taken,
        })
    }

    /// The ticket that the round has in its join. It takes no memory.
    pub fn number(&self) -> u64
        ensures { result ≡ self.now.number }
    {
        self.number
    }

    /// Whether an address was not handed out. It takes no memory.
    pub fn wants(&self) -> bool
        ensures some { result ≡ true → self.now.wanted ≢ [] }
        ensures none { result ≡ false → self.now.wanted ≡ [] }
    {
        !is_none(&self.wanted)
    }

    /// Hands out the next address under a ticket; `None` exactly where all were handed out, and then nothing changes. The only
    /// error is out of memory, and then nothing is promised of what is left.
    pub fn hand_out(&mut self, ticket: u64) -> Result<Option<WebAddress>, OutOfMemory>
        ensures { IfOk result (HandsNext self.old self.new ticket) }
    {
        let Some(address) = first_of(&mut self.wanted) else {
            return Ok(None);
        };
        self.parts.push(Part::awaited(ticket, &address))?;
        Ok(Some(address))
    }

    /// The place of the first page that is awaited under the ticket; `None` exactly where the ticket is not out. It takes no
    /// memory.
    pub fn place_of(&self, ticket: u64) -> Option<usize>
        ensures some { IfSome result (λ place. AwaitsAt self.now.parts place ticket) }
        ensures none { IfNone result (IsStranger self.now.parts ticket) }
    {
        place_in(self.parts.as_slice(), ticket)
    }

    /// Takes the page that is awaited at a place under a ticket. It takes no memory.
    pub fn take(&mut self, place: usize, page: Page)
        requires { (ticket : ℕ) × AwaitsAt self.old.parts place ticket }
        ensures { (ticket : ℕ) → AwaitsAt self.old.parts place ticket → TakesPart self.old self.new ticket page }
    {
        put_at(&mut self.parts, place, page);
    }

    /// Whether all addresses were handed out and all pages are there. It takes no memory.
    pub fn is_whole(&self) -> bool
        ensures { result ≡ is_whole self.now }
    {
        is_none(&self.wanted) && all_there(self.parts.as_slice())
    }

    /// The joint page of the pages that are there: of one server alone, the page as it is; of several the triples that are new,
    /// each once, the sum of the counts, and the next round, where a server has a further page. Where the gathering is whole and
    /// each page is true for the servers, it is the page of the round of all servers together. The only error is out of memory.
    pub fn joint_page(self, alloc: Global, alone: bool) -> Result<JointPage, OutOfMemory>
        ensures joined { IfOk result (λ page. page ≡ joined_as alone self.taken (pages_in self.parts)) }
        ensures together { (worlds : List World) → AreServers worlds → alone ≡ is_one worlds →
            HoldsTrue worlds self → is_whole self ≡ true → IfOk result (IsJointPageOf worlds self) }
    {
        if alone {
            return Ok(only_page(alloc, self.parts));
        }
        let taken = owned(alloc, self.taken)?;
        join_parts(alloc, self.parts, taken)
    }
}

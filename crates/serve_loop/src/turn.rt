// Turns over the live connections.
ghost use Rattle.std.specs.Prelude.{ℕ, ◌≡◌, ◌≢◌, ◌+◌, ◌<◌, ◌≤◌, ◌^◌, List, [], length, IfOk, OnOk, OnErr, IfErr, Option, Some, None, true, false, ◌↔◌};
ghost use Rattle.slab.specs.Slab.{get, slab_len};
ghost use Rattle.tpf_base.specs.Links.{WireState, listens};
ghost use Rattle.connections.specs.Versions.{IsHistory};
ghost use Rattle.serve_loop.specs.declared.live.TheConstants.{MOST_LIVE, MOST_RECEIVED};
ghost use Rattle.serve_loop.specs.Traffic.{moment, kept, no_traffic};
ghost use Rattle.serve_loop.specs.Parts.{IsBeyond, IsNarrow, among, parted};
ghost use Rattle.serve_loop.specs.Relates.{Relates, SuitsWire};
ghost use Rattle.serve_loop.specs.Asks.{AnswersAt, AnswersAll, AreAnswered};
ghost use Rattle.serve_loop.specs.Sentence.{RelatesOn, TurnsOn, SpeaksOn, SpeaksWholeOn};
ghost use Rattle.serve_loop.specs.Calls.{AllGoOn, GoesOnSpeaking, ServesAlone, IsBusy, StepsAll, CallsAt, ClosesAt, LeavesAll, ends, turned_by, turned_with};
ghost use Rattle.serve_loop.specs.Service.{FailsTurn};
ghost use Rattle.serve_loop.specs.Greets.{GreetsAll, FailsGreets};
ghost use Rattle.serve_loop.specs.Steps.{Welcomes};

use crate::live::{Live, MOST_LIVE, MOST_RECEIVED, Part, ServeFault, Stepped, Turned};
use crate::numbers::{beyond, last_of_row};
use crate::step::step;
use connections::{Converses, Supply};
use slab::Slab;
use std::alloc::Global;
use tpf_base::{Accept, Fault, Wire};

/// The live connections of a server, each with its link, and a buffer for what is received.
#[derive(Drop)]
pub struct Loop<C> {
    alloc: Global,
    live: Slab<Live<C>>,
    buffer: [u8; MOST_RECEIVED],
}

/// Takes what the system knows of readiness, so that a link that became ready is served in this turn,
/// whatever the others do.
fn look<W: Wire>(wire: &mut W)
    ensures same { W.state wire.new ≡ W.state wire.old }
{
    wire.look();
}

/// Keeps a new connection for the link that the door gives, where fewer than `MOST_LIVE` are live. The place
/// for it is found before the door is asked.
fn greet<C: Converses, W: Accept>(
    alloc: Global,
    live: &mut Slab<Live<C>>,
    server: &C::Server,
    wire: &mut W,
) -> Result<bool, ServeFault>
    requires listens { listens (W.state wire.old) ≡ true }
    requires few { slab_len live.old ≤ MOST_LIVE }
    requires suits { SuitsWire C.Suits server.now (λ key. get live.old key) (W.state wire.old) }
    ensures few { slab_len live.new ≤ MOST_LIVE }
    ensures suits { SuitsWire C.Suits server.now (λ key. get live.new key) (W.state wire.new) }
    ensures welcomes { IfOk result (λ accepted. Welcomes C.kind (get live.old) (get live.new) accepted
        (slab_len live.old) (slab_len live.new) (W.state wire.old) (W.state wire.new)) }
    ensures err { OnErr result ((key : ℕ) → get live.new key ≡ get live.old key) }
    ensures len { OnErr result (slab_len live.new ≡ slab_len live.old) }
    ensures fails { IfErr result (λ fault. FailsTurn fault (W.state wire.old) (W.state wire.new)) }
    ensures alone { ServesAlone (W.state wire.old) (W.state wire.new) }
    ensures waits { (W.state wire.new).waits ≡ (W.state wire.old).waits }
{
    if live.len() >= MOST_LIVE {
        return Ok(false);
    }
    if live.reserve(1).is_err() {
        return Err(ServeFault::OutOfMemory);
    }
    match wire.accept() {
        Ok(Some(link)) => {
            live.insert_reserved(Live {
                link,
                connection: C::new(alloc),
            });
            Ok(true)
        }
        Ok(None) => Ok(false),
        Err(Fault::Failed) => Err(ServeFault::Wire),
        Err(Fault::OutOfMemory) => Err(ServeFault::OutOfMemory),
    }
}

/// Keeps new connections for the links that wait at the door, until it gives none or `MOST_LIVE` are live.
fn greet_all<C: Converses, W: Accept>(
    alloc: Global,
    live: &mut Slab<Live<C>>,
    server: &C::Server,
    wire: &mut W,
) -> Result<(), ServeFault>
    requires listens { listens (W.state wire.old) ≡ true }
    requires few { slab_len live.old ≤ MOST_LIVE }
    requires suits { SuitsWire C.Suits server.now (λ key. get live.old key) (W.state wire.old) }
    ensures few { slab_len live.new ≤ MOST_LIVE }
    ensures suits { SuitsWire C.Suits server.now (λ key. get live.new key) (W.state wire.new) }
    ensures greets { OnOk result (GreetsAll C.kind (kept live.old) (kept live.new) (W.state wire.old)
        (W.state wire.new)) }
    ensures fails { IfErr result (λ fault. FailsGreets C.kind fault
        (kept live.old) (kept live.new) (W.state wire.old) (W.state wire.new)) }
{
    for greeted in 0..MOST_LIVE {
        let accepted = greet(alloc, live, server, wire)?;
        if !accepted {
            return Ok(());
        }
    }
    Ok(())
}

/// Whether the connection is live no more.
fn ends(stepped: Stepped) -> bool
    ensures { result ≡ ends stepped }
{
    match stepped {
        Stepped::Moved => false,
        Stepped::Still => false,
        Stepped::Ended => true,
        Stepped::Starved => true,
    }
}

/// Whether a key has a connection of the part.
fn is_among<C: Drop>(live: &Slab<Live<C>>, key: usize, part: Part) -> bool
    ensures yes { result ≡ true → among part (get live.now key) ≡ get live.now key }
    ensures no { result ≡ false → among part (get live.now key) ≡ None }
{
    match live.get(key) {
        Some(connection) => part.has(connection.link),
        None => false,
    }
}

/// Steps the connection of a key, if there is one of the part, and forgets it where it ended.
fn step_among<C: Converses, S: Supply<C::Server>, W: Wire>(
    live: &mut Slab<Live<C>>,
    key: usize,
    part: Part,
    buffer: &mut [u8],
    server: &mut C::Server,
    supply: &mut S,
    wire: &mut W,
) -> Option<Stepped>
    requires room { 0 < length buffer.old }
    requires most { length buffer.old ≤ MOST_RECEIVED }
    requires suits { SuitsWire C.Suits server.old (λ key. get live.old key) (W.state wire.old) }
    ensures room { length buffer.new ≡ length buffer.old }
    ensures suits { SuitsWire C.Suits server.new (λ key. get live.new key) (W.state wire.new) }
    ensures others { (other : ℕ) → other ≢ key → get live.new other ≡ get live.old other }
    ensures len { slab_len live.new + (turned_by result).ended ≡ slab_len live.old }
    ensures turns { TurnsOn C.kind (S.may supply.old) (kept live.old) (kept live.new)
        (moment (C.Server.serving server.old) (S.state supply.old) (W.state wire.old))
        (moment (C.Server.serving server.new) (S.state supply.new) (W.state wire.new)) (turned_by result) }
    ensures asks { (same : WireState) → AnswersAt C.kind (S.may supply.old) (among part (get live.old key))
        (moment (C.Server.serving server.old) (S.state supply.old) same)
        (moment (C.Server.serving server.new) (S.state supply.new) same) }
    ensures calls { CallsAt C.kind (among part (get live.old key)) result (W.state wire.old) (W.state wire.new) }
    ensures lasts { (l m : Live C) → among part (get live.old key) ≡ Some l → get live.new key ≡ Some m →
        GoesOnSpeaking C.kind l.connection m.connection }
    ensures follows { C.Server.Follows server.old server.new }
    ensures keeps { S.Keeps supply.old supply.new }
    ensures same { (data_set : C.Server.Data) → S.may supply.new data_set ↔ S.may supply.old data_set }
{
    if !is_among(live, key, part) {
        return None;
    }
    let stepped = match live.get_mut(key) {
        Some(connection) => step(connection, buffer, server, supply, wire),
        None => return None,
    };
    if ends(stepped) {
        live.try_remove(key);
    }
    Some(stepped)
}

impl Turned {
    /// With one more step.
    fn with(self, stepped: Option<Stepped>) -> Turned
        requires more { self.ended + 1 < 2 ^ 64 }
        requires few { self.starved ≤ self.ended }
        ensures { result ≡ turned_with self stepped }
    {
        match stepped {
            None => self,
            Some(Stepped::Still) => self,
            Some(Stepped::Moved) => Turned {
                moved: true,
                ..self
            },
            Some(Stepped::Ended) => Turned {
                ended: self.ended + 1,
                ..self
            },
            Some(Stepped::Starved) => Turned {
                ended: self.ended + 1,
                starved: self.starved + 1,
                ..self
            },
        }
    }
}

/// Steps each live connection of the part once.
fn step_all<C: Converses, S: Supply<C::Server>, W: Wire>(
    live: &mut Slab<Live<C>>,
    part: Part,
    buffer: &mut [u8],
    server: &mut C::Server,
    supply: &mut S,
    wire: &mut W,
) -> Turned
    requires room { 0 < length buffer.old }
    requires most { length buffer.old ≤ MOST_RECEIVED }
    requires few { slab_len live.old ≤ MOST_LIVE }
    requires suits { SuitsWire C.Suits server.old (λ key. get live.old key) (W.state wire.old) }
    ensures suits { SuitsWire C.Suits server.new (λ key. get live.new key) (W.state wire.new) }
    ensures len { slab_len live.new + result.ended ≡ slab_len live.old }
    ensures turns { TurnsOn C.kind (S.may supply.old) (kept live.old) (kept live.new)
        (moment (C.Server.serving server.old) (S.state supply.old) (W.state wire.old))
        (moment (C.Server.serving server.new) (S.state supply.new) (W.state wire.new)) result }
    ensures asks { (same : WireState) → AnswersAll C.kind (S.may supply.old) (parted part (get live.old))
        (moment (C.Server.serving server.old) (S.state supply.old) same)
        (moment (C.Server.serving server.new) (S.state supply.new) same) }
    ensures all { StepsAll C.kind result (parted part (get live.old)) (W.state wire.old) (W.state wire.new) }
    ensures lasts { AllGoOn C.kind (parted part (get live.old)) (get live.new) }
    ensures follows { C.Server.Follows server.old server.new }
    ensures keeps { S.Keeps supply.old supply.new }
    ensures same { (data_set : C.Server.Data) → S.may supply.new data_set ↔ S.may supply.old data_set }
{
    let mut turned = Turned {
        moved: false,
        ended: 0,
        starved: 0,
    };
    let keys = live.capacity();
    for key in 0..keys {
        turned = turned.with(step_among(live, key, part, buffer, server, supply, wire));
    }
    turned
}

/// Closes the link of the connection of a key, if there is one, and forgets it.
fn close_at<C: Drop, W: Wire>(live: &mut Slab<Live<C>>, key: usize, wire: &mut W)
    requires is_open { (l : Live C) → get live.old key ≡ Some l → ((W.state wire.old).links l.link).is_open ≡ true }
    ensures none { get live.new key ≡ None }
    ensures others { (other : ℕ) → other ≢ key → get live.new other ≡ get live.old other }
    ensures closes { ClosesAt (get live.old key) (W.state wire.old) (W.state wire.new) }
{
    if let Some(connection) = live.try_remove(key) {
        wire.close(connection.link);
    }
}

/// Closes the links of all live connections.
fn close_all<C: Drop, W: Wire>(live: &mut Slab<Live<C>>, wire: &mut W)
    requires distinct { (i j : ℕ) (a b : Live C) → get live.old i ≡ Some a → get live.old j ≡ Some b → a.link ≡ b.link →
        i ≡ j }
    requires is_open { (key : ℕ) (l : Live C) → get live.old key ≡ Some l →
        ((W.state wire.old).links l.link).is_open ≡ true }
    ensures none { (key : ℕ) → get live.new key ≡ None }
    ensures leaves { LeavesAll (get live.old) (W.state wire.old) (W.state wire.new) }
{
    let keys = live.capacity();
    for key in 0..keys {
        close_at(live, key, wire);
    }
}

impl<C: Converses> Loop<C> {
    ghost use Rattle.serve_loop.specs.Held.{held, held_count, lives};

    /// A loop without connections. It takes no memory.
    pub fn new(alloc: Global) -> Loop<C>
        ensures len { held_count result ≡ 0 }
        ensures none { (key : ℕ) → held result key ≡ None }
    {
        Loop {
            alloc,
            live: Slab::new(alloc),
            buffer: [0; MOST_RECEIVED],
        }
    }

    /// A loop without connections begins with no traffic, from now on. The call does nothing; it tells a
    /// proof of it.
    pub fn begins<S: Supply<C::Server>, W: Wire>(&self, _server: &C::Server, _supply: &S, _wire: &W)
        requires { (key : ℕ) → held self.now key ≡ None }
        ensures { (first : List C.Server.Data) → IsHistory first (C.Server.serving _server.now)
            → Relates C.kind (S.may _supply.now) first
            (moment (C.Server.serving _server.now) (S.state _supply.now) (W.state _wire.now))
            (no_traffic first) (held self.now) 0
            (moment (C.Server.serving _server.now) (S.state _supply.now) (W.state _wire.now)) }
    {}

    /// How many connections are live: at most `MOST_LIVE`.
    pub fn live(&self) -> usize
        ensures { result ≡ held_count self.now }
    {
        self.live.len()
    }

    /// The part of the connections that a turn steps whose row begins at this link: it ends `spread` behind
    /// the first link of a live connection there, or with the last link of all where that is not later. The
    /// newest links are those from this number on.
    pub fn part(&self, first: u64, newest: u64, spread: u64) -> Part
        ensures first { result.first ≡ first }
        ensures newest { result.newest ≡ newest }
        ensures narrow { IsNarrow result spread (held self.now) }
        ensures wide { result.last < 18446744073709551615 → first + spread ≤ result.last }
    {
        self.part_before(first, newest, spread, self.beyond())
    }

    /// The same where the number behind the newest link is known (`beyond`): it is not looked for again.
    pub fn part_before(&self, first: u64, newest: u64, spread: u64, beyond: u64) -> Part
        requires { IsBeyond (held self.now) beyond }
        ensures first { result.first ≡ first }
        ensures newest { result.newest ≡ newest }
        ensures narrow { IsNarrow result spread (held self.now) }
        ensures wide { result.last < 18446744073709551615 → first + spread ≤ result.last }
    {
        Part {
            first,
            last: last_of_row(&self.live, first, beyond, spread),
            newest,
        }
    }

    /// The number behind that of the newest link of a live connection, or 0. No link that is given later has
    /// a lower one.
    pub fn beyond(&self) -> u64
        ensures { IsBeyond (held self.now) result }
    {
        beyond(&self.live)
    }

    /// Takes what the system knows of readiness, asks the door (the listener) for a link where fewer than
    /// `MOST_LIVE` connections are live, and then steps each connection of the part once: it sends at most
    /// `MOST_SENT` bytes of what is pending or owed; where nothing is, it closes a connection that is to end,
    /// and receives at most `MOST_RECEIVED` bytes of another. A connection that is to end is closed with the
    /// last byte that is sent (`lasts`). A connection that waits for a reload asks the
    /// supply once before, unless the version is the last possible one. A connection that runs out of
    /// memory, or whose link fails, ends alone. The connections of other links are left as they are.
    ///
    /// `Wire` where the accept failed: the faults of the door rose. `OutOfMemory` where memory ran out
    /// there, or for the place of a new connection. In both cases the live connections stay, and the next
    /// turn goes on with them.
    pub fn turn<S: Supply<C::Server>, W: Accept>(
        &mut self,
        part: Part,
        server: &mut C::Server,
        supply: &mut S,
        wire: &mut W,
    ) -> Result<Turned, ServeFault>
        requires listens { listens (W.state wire.old) ≡ true }
        requires few { held_count self.old ≤ MOST_LIVE }
        requires suits { SuitsWire C.Suits server.old (λ key. held self.old key) (W.state wire.old) }
        ensures alone { ServesAlone (W.state wire.old) (W.state wire.new) }
        ensures few { held_count self.new ≤ MOST_LIVE }
        ensures suits { SuitsWire C.Suits server.new (λ key. held self.new key) (W.state wire.new) }
        ensures turns { IfOk result (TurnsOn C.kind (S.may supply.old) (lives self.old) (lives self.new)
            (moment (C.Server.serving server.old) (S.state supply.old) (W.state wire.old))
            (moment (C.Server.serving server.new) (S.state supply.new) (W.state wire.new))) }
        ensures prefixes { SpeaksOn C.kind (S.may supply.old) (lives self.old)
            (moment (C.Server.serving server.old) (S.state supply.old) (W.state wire.old))
            (moment (C.Server.serving server.new) (S.state supply.new) (W.state wire.new)) }
        ensures whole { IfOk result (SpeaksWholeOn C.kind (S.may supply.old) (lives self.old)
            (moment (C.Server.serving server.old) (S.state supply.old) (W.state wire.old))
            (moment (C.Server.serving server.new) (S.state supply.new) (W.state wire.new))) }
        ensures asks { IfOk result (λ turned. (same : WireState) → AnswersAll C.kind (S.may supply.old)
            (parted part (held self.old))
            (moment (C.Server.serving server.old) (S.state supply.old) same)
            (moment (C.Server.serving server.new) (S.state supply.new) same)) }
        ensures unasked { OnErr result ((same : WireState) → AreAnswered (S.may supply.old) []
            (moment (C.Server.serving server.old) (S.state supply.old) same)
            (moment (C.Server.serving server.new) (S.state supply.new) same)) }
        ensures calm { OnOk result ((W.state wire.new).door.faults ≡ (W.state wire.old).door.faults) }
        ensures busy { IfOk result (λ turned. IsBusy C.kind MOST_LIVE turned
            (parted part (held self.old)) (held_count self.old) (W.state wire.old) (W.state wire.new)) }
        ensures lasts { OnOk result (AllGoOn C.kind (parted part (held self.old)) (held self.new)) }
        ensures idle { IfOk result (λ turned. turned.moved ≡ true → (W.state wire.new).idle ≡ 0) }
        ensures count { IfOk result (λ turned. held_count self.new + turned.ended + (W.state wire.old).given
            ≡ held_count self.old + (W.state wire.new).given) }
        ensures most { IfOk result (λ turned. turned.ended ≤ MOST_LIVE) }
        ensures waits { (W.state wire.new).waits ≡ (W.state wire.old).waits }
        ensures err { OnErr result (RelatesOn C.kind (S.may supply.old) (lives self.old) (lives self.new)
            (moment (C.Server.serving server.old) (S.state supply.old) (W.state wire.old))
            (moment (C.Server.serving server.new) (S.state supply.new) (W.state wire.new))) }
        ensures fails { IfErr result (λ fault. FailsTurn fault (W.state wire.old) (W.state wire.new)) }
        ensures stay { OnErr result ((key : ℕ) → held self.new key ≡ held self.old key) }
        ensures follows { C.Server.Follows server.old server.new }
        ensures keeps { S.Keeps supply.old supply.new }
        ensures same { (data_set : C.Server.Data) → S.may supply.new data_set ↔ S.may supply.old data_set }
    {
        look(wire);
        let accepted = greet(self.alloc, &mut self.live, server, wire)?;
        let turned = step_all(&mut self.live, part, &mut self.buffer, server, supply, wire);
        Ok(Turned {
            moved: accepted || turned.moved,
            ..turned
        })
    }

    /// Accepts the links that wait at the door (the listener) until none does or `MOST_LIVE` connections are
    /// live, and keeps a new connection for each. No byte moves, and nothing waits.
    ///
    /// `Wire` where an accept failed: the faults of the door rose. `OutOfMemory` where memory ran out
    /// there, or for the place of a new connection. In both cases the live connections stay, those for the
    /// links that were given before among them.
    pub fn greet<W: Accept>(&mut self, server: &C::Server, wire: &mut W) -> Result<(), ServeFault>
        requires listens { listens (W.state wire.old) ≡ true }
        requires few { held_count self.old ≤ MOST_LIVE }
        requires suits { SuitsWire C.Suits server.now (λ key. held self.old key) (W.state wire.old) }
        ensures few { held_count self.new ≤ MOST_LIVE }
        ensures suits { SuitsWire C.Suits server.now (λ key. held self.new key) (W.state wire.new) }
        ensures greets { OnOk result (GreetsAll C.kind (lives self.old) (lives self.new) (W.state wire.old)
            (W.state wire.new)) }
        ensures fails { IfErr result (λ fault. FailsGreets C.kind fault
            (lives self.old) (lives self.new) (W.state wire.old) (W.state wire.new)) }
    {
        greet_all(self.alloc, &mut self.live, server, wire)
    }

    /// Closes the links of all live connections, and forgets them.
    pub fn close<W: Wire>(&mut self, wire: &mut W)
        requires distinct { (i j : ℕ) (a b : Live C) → held self.old i ≡ Some a → held self.old j ≡ Some b →
            a.link ≡ b.link → i ≡ j }
        requires is_open { (key : ℕ) (l : Live C) → held self.old key ≡ Some l →
            ((W.state wire.old).links l.link).is_open ≡ true }
        ensures none { (key : ℕ) → held self.new key ≡ None }
        ensures len { held_count self.new ≡ 0 }
        ensures leaves { LeavesAll (held self.old) (W.state wire.old) (W.state wire.new) }
    {
        close_all(&mut self.live, wire);
    }
}

// One connection: from the bytes that come to the bytes of the response.
ghost use Rattle.std.specs.Prelude.{ℕ, ◌≡◌, ◌≤◌, ◌<◌, ◌+◌, ◌-◌, ◌++◌, [], List, None, true, false, length, take, drop, IsOk, IsErr, OnOk, OnErr};
ghost use Rattle.rdf_terms.specs.declared.term.Triple.{Triple};
ghost use Rattle.list_laws.specs.Begins.{Begins};
ghost use Rattle.tpf_base.specs.declared.limits.TheConstants.{ENOUGH_PENDING};
ghost use Rattle.http_wire.specs.Requests.{holding};
ghost use Rattle.template_fill.specs.Metadata.{Config};
ghost use Rattle.tpf_base.specs.Marks.{Mark};
ghost use Rattle.tpf_server.specs.declared.limits.TheConstants.{MOST_PENDING};
ghost use Rattle.tpf_server.specs.Reading.{is_ended};
ghost use Rattle.tpf_server.specs.Reloads.{IsOutcome};
ghost use Rattle.tpf_server.specs.Conversation.{Answers, Conversation, Feeds, Makes, Reloads, closing, opening, owed_text, owes, starved_at, wants_reload};

use crate::Server;
use crate::outcome::Reloaded;
use crate::owed::Debt;
use crate::reading::Reading;
use http_wire::RequestFeed;
use page_responses::LONGEST_PART;
use std::alloc::Global;
use std::marker::Model;
use std::mem;
use tpf_base::{ENOUGH_PENDING, OutOfMemory};

/// One connection of a server: it takes the bytes that come and gives those of the response in
/// parts, each of at most `LONGEST_PART` (16384) bytes: the head of an answer, lines of a body, or a part
/// of a long line. No long body is made whole, and no long line. So at most `MOST_PENDING` (81919) bytes
/// are pending at any time, whatever is asked for: one fewer than `ENOUGH_PENDING` (65536), and one part.
///
/// A head is answered over the version that the server has when the head is read, also where the
/// server is reloaded before the answer is made. A request for a reload is not answered, and nothing
/// behind it is read, until its outcome is told.
///
/// Contracts see the bytes of which no head is made yet, what becomes of the heads that come, what is
/// owed, the bytes that are pending, and whether it is out of memory (starved).
pub struct Connection {
    alloc: Global,
    requests: RequestFeed,
    reading: Reading,
    debt: Debt,
    /// Bytes of the response that are made.
    bytes: Vec<u8>,
    /// How many of them were taken: at most half.
    given: usize,
    starved: bool,
}

// Written out, so that who drops one calls this, and does not take it apart at each exit.
impl Drop for Connection {
    fn drop(self) {
        let Connection {
            alloc: _alloc,
            requests: _requests,
            reading: _reading,
            debt: _debt,
            bytes: _bytes,
            given: _given,
            starved: _starved,
        } = self;
    }
}

/// The feed, or a new one that holds no memory: where nothing is held, and where nothing more is read.
fn remaining_feed(alloc: Global, requests: RequestFeed, ended: bool) -> RequestFeed
    requires { ended ≡ false → requests.refused ≡ None }
    ensures ended { ended ≡ true → result ≡ holding [] }
    ensures open_ { ended ≡ false → result ≡ requests }
{
    if ended || requests.held() == 0 {
        RequestFeed::new(alloc)
    } else {
        requests
    }
}

/// Drops the bytes that were given, where they are more than the others, and tells how many given ones
/// are left.
#[tactic(auto, using(crate::proofs::KeptLaws::same_left))]
fn compact(bytes: &mut Vec<u8>, given: usize) -> usize
    requires { given ≤ length bytes.old.items }
    ensures pending { drop result bytes.new.items ≡ drop given bytes.old.items }
    ensures half { result + result ≤ length bytes.new.items }
    ensures left { length bytes.new.items - result ≡ length bytes.old.items - given }
{
    if given == bytes.len() {
        bytes.clear();
        return 0;
    }
    if given > bytes.len() - given {
        bytes.drain(..given);
        return 0;
    }
    given
}

impl Model for Connection {
    ghost use Rattle.std.specs.Prelude.{◌≡◌, ◌≤◌, ◌+◌, ◌-◌, length, drop, None};
    ghost use Rattle.tpf_server.specs.declared.limits.TheConstants.{MOST_PENDING};
    ghost use Rattle.tpf_server.specs.Owed.{Fits};
    ghost use Rattle.tpf_server.specs.Conversation as conversations;

    ghost Value = { conversations.Conversation };

    ghost view = { λ c. record { unread = c.requests.bytes; reading = c.reading; rest = c.debt.rest; waiting = c.debt.waiting.items; pending = drop c.given c.bytes.items; starved = c.starved } };

    ghost invariant = { λ c. (c.given + c.given ≤ length c.bytes.items) × (c.requests.refused ≡ None) × Fits c.debt.rest c.debt.waiting.items × (length c.bytes.items - c.given ≤ MOST_PENDING) };
}

impl Connection {
    /// A connection on which no byte came. It takes no memory.
    pub fn new(alloc: Global) -> Connection
        ensures opening { result ≡ opening }
        ensures answers { (history : List (List Triple)) (config : Config) → Answers history config [] [] [] result }
    {
        Connection {
            alloc,
            requests: RequestFeed::new(alloc),
            reading: Reading::Reads,
            debt: Debt::new(alloc),
            bytes: Vec::new(alloc),
            given: 0,
            starved: false,
        }
    }

    /// Drops all but the first pending bytes, and remembers that memory ran out.
    fn starve(&mut self, pending: usize)
        requires { pending ≤ length self.old.pending }
        ensures { self.new ≡ record (starved_at self.old) { pending = take pending self.old.pending } }
    {
        self.bytes.truncate(self.given + pending);
        self.given = compact(&mut self.bytes, self.given);
        self.requests = RequestFeed::new(self.alloc);
        self.reading = self.reading.when_starved();
        self.debt = Debt::new(self.alloc);
        self.starved = true;
    }

    /// Reads the heads that stand whole. Out of memory, what is owed is dropped.
    fn read_on(&mut self, server: &Server, piece: &[u8]) -> Result<(), OutOfMemory>
        requires reads { self.old.reading ≡ Reading.Reads }
        requires fed { self.old.starved ≡ false }
        ensures ok { OnOk result (Feeds server.now piece.now self.old self.new) }
        ensures pending { self.new.pending ≡ self.old.pending }
        ensures reading { OnErr result (self.new.reading ≡ self.old.reading) }
    {
        let mut requests = mem::replace(&mut self.requests, RequestFeed::new(self.alloc));
        let mut debt = mem::replace(&mut self.debt, Debt::new(self.alloc));
        requests.feed(piece)?;
        let reading = match debt.read_heads(self.alloc, server, &mut requests) {
            Ok(reading) => reading,
            Err(fault) => {
                // Dropped here, so that no other way out has it.
                drop(debt);
                return Err(fault);
            }
        };
        self.requests = remaining_feed(self.alloc, requests, reading.is_ended());
        self.debt = debt;
        self.reading = reading;
        Ok(())
    }

    /// Keeps bytes that are read when the outcome of a reload is known.
    fn keep(&mut self, server: &Server, piece: &[u8]) -> Result<(), OutOfMemory>
        requires waits { wants_reload self.old ≡ true }
        requires fed { self.old.starved ≡ false }
        ensures ok { OnOk result (Feeds server.now piece.now self.old self.new) }
        ensures pending { self.new.pending ≡ self.old.pending }
        ensures reading { OnErr result (self.new.reading ≡ self.old.reading) }
    {
        self.requests.feed(piece)
    }

    fn read(&mut self, server: &Server, piece: &[u8]) -> Result<(), OutOfMemory>
        ensures ok { OnOk result (Feeds server.now piece.now self.old self.new) }
        ensures closed { closing self.old ≡ true → OnOk result (self.new ≡ self.old) }
        ensures closed_ok { closing self.old ≡ true → self.old.starved ≡ false → IsOk result }
        ensures pending { self.new.pending ≡ self.old.pending }
        ensures reading { OnErr result (self.new.reading ≡ self.old.reading) }
        ensures starved { self.old.starved ≡ true → IsErr result }
    {
        if self.starved {
            return Err(OutOfMemory);
        }
        match self.reading {
            Reading::Reads => self.read_on(server, piece),
            Reading::Waits(_) => self.keep(server, piece),
            Reading::Ended => Ok(()),
        }
    }

    /// Takes the next bytes of the connection, reads the heads that stand whole, and owes an answer
    /// to each over the version that is served, up to the first that ends the connection (RFC 9112,
    /// section 9.6) or asks for a reload. What follows a head that ends the connection is not read;
    /// what follows a request for a reload is kept until its outcome is told. No body is made. On a
    /// connection that is closing it changes nothing and takes no memory.
    ///
    /// `OutOfMemory` comes only where memory runs out. The pending bytes are then as before, all else is
    /// dropped, and each later `feed` and `fill` answers `OutOfMemory`.
    pub fn feed(&mut self, server: &Server, piece: &[u8]) -> Result<(), OutOfMemory>
        ensures ok { OnOk result (Feeds server.now piece.now self.old self.new) }
        ensures closed { closing self.old ≡ true → OnOk result (self.new ≡ self.old) }
        ensures closed_ok { closing self.old ≡ true → self.old.starved ≡ false → IsOk result }
        ensures err { OnErr result (self.new ≡ starved_at self.old) }
        ensures starved { self.old.starved ≡ true → IsErr result }
    {
        let pending = self.pending().len();
        let read = self.read(server, piece);
        if read.is_err() {
            self.starve(pending);
        }
        read
    }

    /// Whether the first head that is not read asks for a reload: its outcome is to be told to
    /// `reloaded`. Once it is out of memory it is false.
    pub fn wants_reload(&self) -> bool
        ensures { result ≡ wants_reload self.now }
    {
        self.reading.waits()
    }

    /// Answers the reload request, and reads the heads behind it. Out of memory, what is owed is
    /// dropped.
    fn answer(
        &mut self,
        server: &Server,
        outcome: Reloaded,
        closes: bool,
    ) -> Result<(), OutOfMemory>
        requires waits { self.old.reading ≡ Reading.Waits closes }
        requires outcome { IsOutcome server.now.version outcome }
        requires fed { self.old.starved ≡ false }
        ensures ok { OnOk result (Reloads server.now outcome self.old self.new) }
        ensures pending { self.new.pending ≡ self.old.pending }
        ensures reading { OnErr result (self.new.reading ≡ self.old.reading) }
    {
        let mut requests = mem::replace(&mut self.requests, RequestFeed::new(self.alloc));
        let mut debt = mem::replace(&mut self.debt, Debt::new(self.alloc));
        let reading = match debt.read_on(self.alloc, server, outcome, closes, &mut requests) {
            Ok(reading) => reading,
            Err(fault) => {
                drop(debt);
                return Err(fault);
            }
        };
        self.requests = remaining_feed(self.alloc, requests, reading.is_ended());
        self.debt = debt;
        self.reading = reading;
        Ok(())
    }

    fn answer_reload(&mut self, server: &Server, outcome: Reloaded) -> Result<(), OutOfMemory>
        requires waits { wants_reload self.old ≡ true }
        requires outcome { IsOutcome server.now.version outcome }
        ensures ok { OnOk result (Reloads server.now outcome self.old self.new) }
        ensures pending { self.new.pending ≡ self.old.pending }
        ensures reading { OnErr result (self.new.reading ≡ self.old.reading) }
    {
        if self.starved {
            return Err(OutOfMemory);
        }
        match self.reading {
            Reading::Reads => Ok(()),
            Reading::Waits(closes) => self.answer(server, outcome, closes),
            Reading::Ended => Ok(()),
        }
    }

    /// Answers the reload request that waits by how the reload came out, and reads on over the version
    /// that is served. A version that was reached is that of the server.
    ///
    /// `OutOfMemory` comes only where memory runs out. The pending bytes are then as before, all else is
    /// dropped, and each later `feed` and `fill` answers `OutOfMemory`.
    pub fn reloaded(&mut self, server: &Server, outcome: Reloaded) -> Result<(), OutOfMemory>
        requires waits { wants_reload self.old ≡ true }
        requires outcome { IsOutcome server.now.version outcome }
        ensures ok { OnOk result (Reloads server.now outcome self.old self.new) }
        ensures err { OnErr result (self.new ≡ starved_at self.old) }
    {
        let pending = self.pending().len();
        let answered = self.answer_reload(server, outcome);
        if answered.is_err() {
            self.starve(pending);
        }
        answered
    }

    /// Makes parts. Out of memory, what is owed is dropped.
    fn make_on(&mut self, server: &Server) -> Result<(), OutOfMemory>
        requires fed { self.old.starved ≡ false }
        ensures ok { OnOk result (Makes server.now.config self.old self.new) }
        ensures few { length self.new.pending ≤ MOST_PENDING }
        ensures pending { Begins self.old.pending self.new.pending }
        ensures some { OnOk result (owes self.old ≡ true → 0 < length self.new.pending) }
        ensures reading { OnErr result (self.new.reading ≡ self.old.reading) }
    {
        let mut debt = mem::replace(&mut self.debt, Debt::new(self.alloc));
        debt.fill(self.alloc, server.config(), self.given, &mut self.bytes)?;
        debt.give_back(self.alloc);
        self.debt = debt;
        Ok(())
    }

    #[tactic(auto, using(crate::proofs::KeptLaws::few_view))]
    fn make(&mut self, server: &Server) -> Result<(), OutOfMemory>
        ensures ok { OnOk result (Makes server.now.config self.old self.new) }
        ensures few { length self.new.pending ≤ MOST_PENDING }
        ensures full { ENOUGH_PENDING ≤ length self.old.pending → OnOk result (self.new ≡ self.old) }
        ensures full_ok { ENOUGH_PENDING ≤ length self.old.pending → self.old.starved ≡ false → IsOk result }
        ensures idle { owes self.old ≡ false → OnOk result (self.new ≡ self.old) }
        ensures idle_ok { owes self.old ≡ false → IsOk result }
        ensures pending { Begins self.old.pending self.new.pending }
        ensures some { OnOk result (owes self.old ≡ true → 0 < length self.new.pending) }
        ensures reading { OnErr result (self.new.reading ≡ self.old.reading) }
        ensures starved { self.old.starved ≡ true → IsErr result }
    {
        if self.starved {
            return Err(OutOfMemory);
        }
        if !self.debt.is_left() {
            return Ok(());
        }
        if self.bytes.len() - self.given >= ENOUGH_PENDING {
            return Ok(());
        }
        self.make_on(server)
    }

    /// Makes further bytes of the response, a part at a time, until at least `ENOUGH_PENDING` (65536) are
    /// pending or nothing is owed. Where as many are pending, or nothing is owed, it changes nothing and
    /// takes no memory. So never more than `MOST_PENDING` (81919) are pending (`few`). Each answer is made
    /// over the version by which its head was read; of the server only the configuration is used.
    ///
    /// `OutOfMemory` comes only where memory runs out. The pending bytes are then as before, all else is
    /// dropped, and each later `feed` and `fill` answers `OutOfMemory`.
    pub fn fill(&mut self, server: &Server) -> Result<(), OutOfMemory>
        ensures ok { OnOk result (Makes server.now.config self.old self.new) }
        ensures full { ENOUGH_PENDING ≤ length self.old.pending → OnOk result (self.new ≡ self.old) }
        ensures full_ok { ENOUGH_PENDING ≤ length self.old.pending → self.old.starved ≡ false → IsOk result }
        ensures idle { owes self.old ≡ false → OnOk result (self.new ≡ self.old) }
        ensures idle_ok { owes self.old ≡ false → IsOk result }
        ensures answers { OnOk result ((history : List (List Triple)) (fed taken : List ℕ) (marks : List Mark)
            → Answers history server.now.config fed taken marks self.old
            → Answers history server.now.config fed taken marks self.new) }
        ensures some { OnOk result (owes self.old ≡ true → 0 < length self.new.pending) }
        ensures few { length self.new.pending ≤ MOST_PENDING }
        ensures err { OnErr result (self.new ≡ starved_at self.old) }
        ensures starved { self.old.starved ≡ true → IsErr result }
    {
        let pending = self.pending().len();
        let made = self.make(server);
        if made.is_err() {
            self.starve(pending);
        }
        made
    }

    /// Whether bytes of the response are still to be made: false exactly where what was taken and what
    /// is pending are the whole response to the heads that were read. Once it is out of memory it is
    /// true.
    pub fn owes(&self) -> bool
        ensures owes { result ≡ owes self.now }
        ensures nothing { result ≡ false → (config : Config) → owed_text config self.now ≡ [] }
        ensures some { result ≡ true → self.now.starved ≡ false
            → (config : Config) → owed_text config self.now ≡ [] → ⊥ }
    {
        self.starved || self.debt.is_left()
    }

    /// The bytes of the response that are made and not taken: at most `MOST_PENDING` (81919).
    #[tactic(auto, using(crate::proofs::KeptLaws::few_view))]
    pub fn pending(&self) -> &[u8]
        ensures is_pending { result.now ≡ self.now.pending }
        ensures few { length result.now ≤ MOST_PENDING }
    {
        &self.bytes[self.given..]
    }

    /// Gives back the memory of bytes that were all taken, where nothing is owed, but for a buffer in which
    /// the next page has its place.
    fn release(&mut self)
        requires { self.old.pending ≡ [] }
        ensures { self.new ≡ self.old }
    {
        if self.debt.is_left() || self.bytes.capacity() <= LONGEST_PART {
            self.bytes.clear();
        } else {
            self.bytes = Vec::new(self.alloc);
        }
        self.given = 0;
    }

    /// Drops the first `n` of the pending bytes, which were sent; there are at least as many.
    #[tactic(auto, using(crate::proofs::ConversationLaws::take_answer))]
    pub fn take(&mut self, n: usize)
        requires { n ≤ length self.old.pending }
        ensures rest { self.new ≡ record self.old { pending = drop n self.old.pending } }
        ensures answers { (history : List (List Triple)) (config : Config) (fed taken : List ℕ) (marks : List Mark)
            → Answers history config fed taken marks self.old
            → Answers history config fed (taken ++ take n self.old.pending) marks self.new }
    {
        self.given = compact(&mut self.bytes, self.given + n);
        if self.given == self.bytes.len() {
            self.release();
        }
    }

    /// Whether the connection ends with an answer that is owed, pending or taken (RFC 9112, section
    /// 9.6): what is fed later changes nothing.
    pub fn closing(&self) -> bool
        ensures { result ≡ closing self.now }
    {
        self.reading.is_ended()
    }
}

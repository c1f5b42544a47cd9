// The reply to a request, as its bytes come.
ghost use Rattle.std.specs.Prelude.{ℕ, List, ◌≡◌, ◌≤◌, ◌↔◌, length, true, false, IfOk, OnOk, OnErr};
ghost use Rattle.tpf_base.specs.HttpReply.{Gathered, begun, after_bytes, reading_from, at_the_end};
ghost use Rattle.http_wire.specs.Replies.{Feeding, starting, fed, ended, shown, longer, reply_at};
ghost use Rattle.http_wire.specs.Places.{place_for, read_place, RunsOn, IsRead};

use crate::compact::compact;
use crate::message::{Fed, Reply};
use crate::stages::is_open;
use crate::state::{Stage, State};
use std::alloc::Global;
use std::marker::Model;
use tpf_base::{Bytes, OutOfMemory};

/// What a feed answers at a stage, where so many bytes of the piece were read.
#[tactic(auto, using(crate::proofs::RunLemmas::fault_back, crate::proofs::RunLemmas::done_at))]
fn answer(stage: Stage, used: usize) -> Fed
    ensures { (passed : ℕ) (held : List ℕ) (g : Gathered)
        → result ≡ shown (longer used (at_the_end false (place_for stage passed held g))) }
{
    match stage {
        Stage::Finished => Fed::Done { used },
        Stage::Failed(fault) => Fed::Bad(fault),
        Stage::Heads
        | Stage::Sized(_)
        | Stage::Unsized
        | Stage::Line
        | Stage::Chunk(_)
        | Stage::Return
        | Stage::Newline
        | Stage::Trailer => Fed::More,
    }
}

/// Whether two stages are the same.
fn is_at(stage: Stage, other: Stage) -> bool
    ensures { result ≡ true ↔ stage ≡ other }
{
    stage == other
}

/// Reads the bytes from a place on, up to the end of the reply or a fault, and answers how many it read.
fn run(state: &mut State, bytes: &[u8], start: usize) -> usize
    requires within { start ≤ length bytes.now }
    requires begins { state.old.begins ≤ start }
    requires few { state.old.count ≤ state.old.begins }
    ensures { (body : List ℕ) → length body ≡ state.old.count → RunsOn state.old state.new bytes.now start result body }
{
    let mut at = start;
    while at < bytes.len() && is_open(state.stage) {
        at = state.read(bytes, at).0;
    }
    at - start
}

/// Reads the reply to one request, whose bytes come in pieces, cut at any places (RFC 9112, sections
/// 4, 6 and 7). Heads with a status of 100 to 199 are passed over. It keeps the bytes as they came,
/// once, and makes the body of them at the end. Contracts see the limit of the body, the place in the
/// reply, and the bytes that led to it.
#[derive(Drop)]
pub struct ReplyFeed {
    state: State,
    received: Vec<u8>,
}

impl Model for ReplyFeed {
    ghost Value = { Feeding };

    ghost view = { λ f. record {
      limit = f.state.limit;
      place = read_place f.state.stage (after_bytes f.state.limit begun f.received.items);
      received = f.received.items;
    } };

    ghost invariant = { λ f. IsRead f.state f.received.items };
}

impl ReplyFeed {
    /// A feed for a reply whose body has at most so many bytes. It holds none, and takes no memory.
    pub fn new(alloc: Global, limit: u64) -> ReplyFeed
        ensures { result ≡ starting limit }
    {
        ReplyFeed {
            state: State::new(limit),
            received: Vec::new(alloc),
        }
    }

    /// Reads the next bytes: `Done` where the reply is whole with them, `Bad` as soon as a byte leads
    /// to a fault, and else `More`. After `Done` or `Bad` each later call answers the same, with
    /// `used` 0, and takes no memory. It fails only when it is out of memory, and the feed is then as
    /// it was.
    pub fn feed(&mut self, piece: &[u8]) -> Result<Fed, OutOfMemory>
        ensures ok { IfOk result (λ a. a ≡ shown (reading_from self.old.limit self.old.place piece.now false)) }
        ensures after { OnOk result (self.new ≡ fed self.old piece.now) }
        ensures err { OnErr result (self.new ≡ self.old) }
    {
        if !is_open(self.state.stage) {
            return Ok(answer(self.state.stage, 0));
        }
        let start = self.received.len();
        self.received.extend_from_slice(piece)?;
        let used = run(&mut self.state, self.received.as_slice(), start);
        Ok(answer(self.state.stage, used))
    }

    /// Says that no further byte comes: a reply that runs to the close is then whole (RFC 9112,
    /// section 6.3), and one that wants more is cut off, which `More` says. After `Done` or `Bad` the
    /// answer is the same, with `used` 0.
    pub fn end(&mut self) -> Fed
        ensures answer { result ≡ shown (at_the_end true self.old.place) }
        ensures after { self.new ≡ ended self.old }
    {
        if is_at(self.state.stage, Stage::Unsized) {
            self.state.stage = Stage::Finished;
            return Fed::Done { used: 0 };
        }
        answer(self.state.stage, 0)
    }

    /// The bytes of the pieces that were fed, as they came: each piece whole, up to the one with
    /// which the reply was over.
    pub fn received(&self) -> &[u8]
        ensures { result.now ≡ self.now.received }
    {
        self.received.as_slice()
    }

    /// Hands these bytes over, and takes no memory.
    pub fn into_received(self) -> Bytes
        ensures { result ≡ self.received }
    {
        Bytes::from_vec(self.received)
    }

    /// The reply, where `Done` was answered, and else nothing. Its body is made of the bytes that the
    /// feed keeps, in place.
    pub fn take(self) -> Option<Reply>
        ensures { result ≡ reply_at self.place }
    {
        if !is_at(self.state.stage, Stage::Finished) {
            return None;
        }
        let mut bytes = self.received;
        let keeps = compact(self.state.limit, &mut bytes);
        Some(Reply {
            body: Bytes::from_vec(bytes),
            keeps,
        })
    }
}

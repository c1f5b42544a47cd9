// The bytes that come in reply to a request.
ghost use Rattle.std.specs.Prelude.{ℕ, ◌≡◌, ◌+◌, ◌≤◌, ◌↔◌, ◌++◌, length, true, IfOk, OnOk, OnErr};
ghost use Rattle.tpf_base.specs.HttpReply.{is_open, begun, after_bytes, Whole};
ghost use Rattle.exchange.specs.declared.buffer.TheConstants.{ROOM};
ghost use Rattle.exchange.specs.Incoming.{Coming, none_yet, most_kept, IsBehind, IsConclusion};

use http_wire::{Fed, Reply, ReplyFault, ReplyFeed, laws};
use std::alloc::Global;
use std::marker::Model;
use tpf_base::{Bytes, OutOfMemory};

/// What the bytes of a reply come to, where no more are received.
#[derive(Drop)]
pub(crate) enum Conclusion {
    /// A whole reply.
    Whole(Reply),
    /// No whole reply, at the end of the bytes, which are kept.
    Cut(Bytes),
    /// A reply that is refused, and its bytes.
    Refused(ReplyFault, Bytes),
}

/// The bytes that came in reply to a request, as they were received, and how far they are read. The
/// feed holds them, once.
#[derive(Drop)]
pub(crate) struct Incoming {
    limit: u64,
    feed: ReplyFeed,
    spare: usize,
}

impl Model for Incoming {
    ghost use Rattle.std.specs.Prelude.{◌≡◌};
    ghost use Rattle.exchange.specs.Incoming.{Coming, IsComing};

    ghost Value = { Coming };

    ghost view = { λ c. record { limit = c.limit; received = c.feed.received; place = c.feed.place; spare = c.spare } };

    ghost invariant = { λ c. (c.feed.limit ≡ c.limit) × IsComing (record { limit = c.limit; received = c.feed.received; place = c.feed.place; spare = c.spare }) };
}

/// How many bytes of the piece stand behind the reply.
fn spare_of(fed: Fed, length: usize) -> usize
    ensures { (used : ℕ) → fed ≡ Fed.Done used → used ≤ length → used + result ≡ length }
{
    match fed {
        Fed::Done { used } => length.saturating_sub(used),
        Fed::More | Fed::Bad(_) => 0,
    }
}

/// Whether the reply goes on.
fn goes_on(fed: Fed) -> bool
    ensures { result ≡ true ↔ fed ≡ Fed.More }
{
    match fed {
        Fed::More => true,
        Fed::Done { .. } | Fed::Bad(_) => false,
    }
}

impl Incoming {
    /// No byte came yet.
    pub(crate) fn new(alloc: Global, limit: u64) -> Incoming
        ensures { result ≡ none_yet limit }
    {
        Incoming {
            limit,
            feed: ReplyFeed::new(alloc, limit),
            spare: 0,
        }
    }

    pub(crate) fn limit(&self) -> u64
        ensures { result ≡ self.now.limit }
    {
        self.limit
    }

    /// The place in the reply is that of the bytes. It does nothing.
    pub(crate) fn leads(&self)
        ensures { self.now.place ≡ after_bytes self.now.limit begun self.now.received }
    {
        let _limit = self.limit;
    }

    /// How many bytes stand behind a whole reply.
    pub(crate) fn spare(&self) -> usize
        ensures { IsBehind self.now.limit self.now.received result }
    {
        self.spare
    }

    /// How many bytes came.
    pub(crate) fn kept(&self) -> usize
        ensures length { result ≡ length self.now.received }
        ensures bound { result ≤ most_kept self.now.limit }
    {
        self.feed.received().len()
    }

    /// Reads the next bytes, and says whether the reply goes on. After a refusal all is as it was.
    pub(crate) fn read(&mut self, piece: &[u8]) -> Result<bool, OutOfMemory>
        requires goes_on { is_open self.old.place ≡ true }
        requires few { length piece.now ≤ ROOM }
        ensures received { OnOk result (self.new.received ≡ self.old.received ++ piece.now) }
        ensures limit { self.new.limit ≡ self.old.limit }
        ensures goes_on { IfOk result (λ goes_on. is_open self.new.place ≡ goes_on) }
        ensures bound { OnOk result (length self.new.received ≤ most_kept self.new.limit) }
        ensures err { OnErr result (self.new ≡ self.old) }
    {
        laws::cuts_do_not_matter();
        laws::what_is_read_is_given();
        laws::a_reply_is_bounded();
        let fed = self.feed.feed(piece)?;
        self.spare = spare_of(fed, piece.len());
        Ok(goes_on(fed))
    }

    /// What the bytes come to, where no more are received.
    pub(crate) fn conclude(self) -> Conclusion
        ensures { IsConclusion self result }
    {
        laws::cuts_do_not_matter();
        laws::what_is_read_is_given();
        let mut feed = self.feed;
        match feed.end() {
            Fed::More => Conclusion::Cut(feed.into_received()),
            Fed::Bad(fault) => Conclusion::Refused(fault, feed.into_received()),
            Fed::Done { .. } => match feed.take() {
                Some(reply) => Conclusion::Whole(reply),
                None => unreachable!(),
            },
        }
    }
}

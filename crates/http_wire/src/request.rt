// The heads of the requests of a connection, as its bytes come.
ghost use Rattle.std.specs.Prelude.{◌≡◌, ◌+◌, ◌^◌, ◌<◌, ◌≤◌, ◌++◌, [], length, take, drop, IfOk, OnOk, OnErr, IfSome, None};
ghost use Rattle.tpf_base.specs.HttpHeads.{blank_length, head_length, judged, with_length, next_request};
ghost use Rattle.tpf_base.specs.declared.limits.TheConstants.{HEAD_LIMIT};
ghost use Rattle.http_wire.specs.Requests.{Held, holding, refusing, fed, next_of, after_next, after_answer, shown, shown_verdict};
ghost use Rattle.http_wire.specs.Searches.{IsSearched};

use crate::given::drop_given;
use crate::heads::{behind, blank_length, front, head_length};
use crate::judge::judge;
use crate::message::NextHead;
use std::alloc::Global;
use std::marker::Model;
use tpf_base::{HEAD_LIMIT, OutOfMemory};

/// How many bytes of empty lines stand at the front, and how long the head behind them is.
#[tactic(auto, using(crate::proofs::FeedLemmas::blank_resumes, crate::proofs::FeedLemmas::least_of_none))]
fn search(held: &[u8], blank: usize, searched: usize) -> (usize, Option<usize>)
    requires { IsSearched held.now blank searched }
    ensures blank { result.0 ≡ blank_length held.now }
    ensures within { result.0 ≤ length held.now }
    ensures head { result.1 ≡ head_length (drop result.0 held.now) }
    ensures head_within { IfSome result.1 (λ n. result.0 + n ≤ length held.now) }
    ensures fits { IfSome result.1 (λ n. result.0 + n < 2 ^ 64) }
{
    let more = blank_length(behind(held, blank));
    let from = if more == 0 { searched } else { 0 };
    let all = blank + more;
    (all, head_length(behind(held, all), from))
}

/// Gives the heads of the requests of a connection, whose bytes come in pieces, cut at any places
/// (RFC 9112, sections 2.2 and 3). Contracts see the bytes that are not yet given as heads, and the
/// status of a refusal.
pub struct RequestFeed {
    alloc: Global,
    bytes: Vec<u8>,
    /// How many of the bytes were given as heads: at most half of all.
    given: usize,
    /// How many bytes of empty lines stand behind those.
    blank: usize,
    /// No head of fewer bytes stands behind the empty lines.
    searched: usize,
    refused: Option<u16>,
}

// Written out, so that who drops one calls this, and does not take it apart at each exit.
impl Drop for RequestFeed {
    fn drop(self) {
        let RequestFeed {
            alloc: _alloc,
            bytes: _bytes,
            given: _given,
            blank: _blank,
            searched: _searched,
            refused: _refused,
        } = self;
    }
}

impl Model for RequestFeed {
    ghost Value = { Held };

    ghost view = { λ f. record { bytes = drop f.given f.bytes.items; refused = f.refused } };

    ghost invariant = { λ f. (f.given + f.given ≤ length f.bytes.items) × IsSearched (drop f.given f.bytes.items) f.blank f.searched };
}

impl RequestFeed {
    /// A feed that holds no bytes.
    #[tactic(auto, using(crate::proofs::FeedLemmas::unsearched))]
    pub fn new(alloc: Global) -> RequestFeed
        ensures { result ≡ holding [] }
    {
        RequestFeed {
            alloc,
            bytes: Vec::new(alloc),
            given: 0,
            blank: 0,
            searched: 0,
            refused: None,
        }
    }

    /// Drops all bytes, and gives their memory back.
    #[tactic(auto, using(crate::proofs::FeedLemmas::unsearched))]
    fn clear(&mut self)
        ensures { self.new ≡ record { bytes = []; refused = self.old.refused } }
    {
        self.bytes = Vec::new(self.alloc);
        self.given = 0;
        self.blank = 0;
        self.searched = 0;
    }

    #[tactic(auto, using(crate::proofs::FeedLemmas::searched_more))]
    fn append(&mut self, piece: &[u8]) -> Result<(), OutOfMemory>
        requires { self.old.refused ≡ None }
        ensures ok { OnOk result (self.new ≡ holding (self.old.bytes ++ piece.now)) }
        ensures err { OnErr result (self.new ≡ self.old) }
    {
        self.bytes.extend_from_slice(piece)?;
        Ok(())
    }

    /// Takes the next bytes of the connection. Behind a refusal they are passed over. It fails only
    /// when it is out of memory, and the feed is then as it was.
    pub fn feed(&mut self, piece: &[u8]) -> Result<(), OutOfMemory>
        ensures ok { OnOk result (self.new ≡ fed self.old piece.now) }
        ensures err { OnErr result (self.new ≡ self.old) }
    {
        if self.refused.is_some() {
            return Ok(());
        }
        self.append(piece)
    }

    /// How many bytes of empty lines stand at the front, and how long the head behind them is.
    fn look(&self) -> (usize, Option<usize>)
        ensures blank { result.0 ≡ blank_length self.now.bytes }
        ensures within { result.0 ≤ length self.now.bytes }
        ensures head { result.1 ≡ head_length (drop result.0 self.now.bytes) }
        ensures head_within { IfSome result.1 (λ n. result.0 + n ≤ length self.now.bytes) }
        ensures fits { IfSome result.1 (λ n. result.0 + n < 2 ^ 64) }
    {
        search(behind(&self.bytes, self.given), self.blank, self.searched)
    }

    /// Notes that no head stands behind the empty lines at the front.
    fn note(&mut self, blank: usize)
        requires blank { blank ≡ blank_length self.old.bytes }
        requires within { blank ≤ length self.old.bytes }
        requires none { head_length (drop blank self.old.bytes) ≡ None }
        ensures { self.new ≡ self.old }
    {
        let searched = self.held() - blank + 1;
        self.searched = searched;
        self.blank = blank;
    }

    /// Passes over so many bytes at the front.
    fn pass(&mut self, n: usize)
        requires open { self.old.refused ≡ None }
        requires within { n ≤ length self.old.bytes }
        ensures { self.new ≡ holding (drop n self.old.bytes) }
    {
        if n == self.held() {
            self.clear();
            return;
        }
        self.given = drop_given(&mut self.bytes, self.given + n);
        self.blank = 0;
        self.searched = 0;
    }

    /// Drops the bytes and remembers the refusal.
    #[tactic(auto, using(crate::proofs::FeedLemmas::unsearched))]
    fn refuse(&mut self, status: u16) -> NextHead
        ensures state { self.new ≡ refusing status }
        ensures answer { result ≡ NextHead.Bad status }
    {
        self.clear();
        self.refused = Some(status);
        NextHead::Bad(status)
    }

    /// What becomes of the head of `n` bytes behind the empty lines at the front.
    #[tactic(auto, using(crate::proofs::FeedLemmas::head_begins))]
    fn verdict(&self, blank: usize, n: usize) -> Result<NextHead, OutOfMemory>
        requires blank { blank ≡ blank_length self.now.bytes }
        requires within { blank + n ≤ length self.now.bytes }
        ensures { IfOk result (λ a. a ≡ shown_verdict (judged (take n (drop blank self.now.bytes)))) }
    {
        let held = behind(&self.bytes, self.given);
        judge(self.alloc, front(behind(held, blank), n))
    }

    /// Gives that head, or refuses it.
    fn give(&mut self, blank: usize, n: usize) -> Result<NextHead, OutOfMemory>
        requires open { self.old.refused ≡ None }
        requires blank { blank ≡ blank_length self.old.bytes }
        requires within { blank + n ≤ length self.old.bytes }
        requires fits { blank + n < 2 ^ 64 }
        ensures ok { IfOk result (λ a. a ≡ shown (with_length (blank + n)
            (judged (take n (drop blank self.old.bytes))))) }
        ensures after { OnOk result (self.new ≡ after_answer self.old (with_length (blank + n)
            (judged (take n (drop blank self.old.bytes))))) }
        ensures err { OnErr result (self.new ≡ self.old) }
    {
        match self.verdict(blank, n)? {
            NextHead::More => Ok(NextHead::More),
            NextHead::Bad(status) => Ok(self.refuse(status)),
            NextHead::Head(head) => {
                self.pass(blank + n);
                Ok(NextHead::Head(head))
            }
        }
    }

    /// What stands next, where nothing was refused before.
    fn next_open(&mut self) -> Result<NextHead, OutOfMemory>
        requires { self.old.refused ≡ None }
        ensures ok { IfOk result (λ a. a ≡ shown (next_request self.old.bytes)) }
        ensures after { OnOk result (self.new ≡ after_answer self.old (next_request self.old.bytes)) }
        ensures few { IfOk result (λ a. a ≡ NextHead.More → length self.new.bytes < HEAD_LIMIT) }
        ensures err { OnErr result (self.new ≡ self.old) }
    {
        let (blank, found) = self.look();
        match found {
            None => {
                if self.held() >= HEAD_LIMIT {
                    return Ok(self.refuse(431));
                }
                self.note(blank);
                Ok(NextHead::More)
            }
            Some(n) => {
                if blank + n > HEAD_LIMIT {
                    return Ok(self.refuse(431));
                }
                self.give(blank, n)
            }
        }
    }

    /// What stands next: the first whole head, behind empty lines that are passed over; `More` where
    /// none stands whole and fewer bytes are held than `HEAD_LIMIT` of `tpf_base` (4194304);
    /// `Bad(431)` where a head passes its limits, and `Bad(400)` where what ends like a head is none
    /// (RFC 9112, sections 2.2, 3 and 3.2). A head that is given is held no more. After `Bad` nothing
    /// is held, and each later call answers the same. It fails only when it is out of memory, and the
    /// feed is then as it was.
    pub fn next(&mut self) -> Result<NextHead, OutOfMemory>
        ensures ok { IfOk result (λ a. a ≡ shown (next_of self.old)) }
        ensures after { OnOk result (self.new ≡ after_next self.old) }
        ensures few { IfOk result (λ a. a ≡ NextHead.More → length self.new.bytes < HEAD_LIMIT) }
        ensures err { OnErr result (self.new ≡ self.old) }
    {
        match self.refused {
            Some(status) => Ok(NextHead::Bad(status)),
            None => self.next_open(),
        }
    }

    /// The number of bytes that are not yet given as heads.
    pub fn held(&self) -> usize
        ensures { result ≡ length self.now.bytes }
    {
        self.bytes.len() - self.given
    }
}

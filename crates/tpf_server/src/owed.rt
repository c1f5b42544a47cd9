// What is owed on a connection: the rest of an answer that was begun, and the answers behind it.
ghost use Rattle.std.specs.Prelude.{◌≡◌, ◌-◌, ◌≤◌, [], true, None, length, IfOk, OnOk, if◌then◌else◌};
ghost use Rattle.list_laws.specs.Begins.{Begins};
ghost use Rattle.page_responses.specs.Given.{IsGiven};
ghost use Rattle.page_responses.specs.Rests.{IsWithin, rest_text};
ghost use Rattle.tpf_server.specs.declared.limits.TheConstants.{MOST_PENDING};
ghost use Rattle.tpf_server.specs.Asked.{IsAsked};
ghost use Rattle.tpf_server.specs.Opened.{Opens};
ghost use Rattle.tpf_server.specs.Owed.{FillsUp, Fits, debt_left, debt_text, queued_text};
ghost use Rattle.tpf_server.specs.Read.{IsQueued, ReadsHead, ReadsHeads};
ghost use Rattle.tpf_server.specs.Reloads.{ReadsOn};

use crate::Server;
use crate::asked::{Asking, Queued, asked_by, asks_reload, refusal_of, reload_answer};
use crate::outcome::Reloaded;
use crate::reading::{HeadRead, Reading};
use http_wire::{NextHead, RequestFeed, RequestHead};
use hydra_controls::Config;
use page_responses::{Opened, Rest, open_selected, open_status, open_version, write_answer_head};
use std::alloc::Global;
use std::collections::VecDeque;
use tpf_base::{ENOUGH_PENDING, OutOfMemory};

/// What is owed on a connection.
pub struct Debt {
    pub rest: Rest,
    pub waiting: VecDeque<Queued>,
}

// Written out, so that who drops one calls this, and does not take it apart at each exit.
impl Drop for Debt {
    fn drop(self) {
        let Debt {
            rest: _rest,
            waiting: _waiting,
        } = self;
    }
}

/// The body, or nothing where the head alone is asked for.
fn body_or_nothing(without_body: bool, body: Rest) -> Rest
    ensures { result ≡ (if without_body then Rest.Nothing else body) }
{
    if without_body {
        drop(body);
        return Rest::Nothing;
    }
    body
}

/// The answer to what is asked for.
#[tactic(auto, using(crate::proofs::OpenLaws::opens_refused, crate::proofs::OpenLaws::opens_version, crate::proofs::OpenLaws::opens_number))]
fn open_answer(alloc: Global, config: &Config, asking: &Asking) -> Result<Opened, OutOfMemory>
    requires { IsAsked asking.now }
    ensures { IfOk result (Opens config.now asking.now) }
{
    match asking {
        Asking::Refused(status) => Ok(open_status(*status)),
        Asking::Reloaded(number) => open_version(alloc, *number),
        Asking::Page {
            slots,
            rows,
            page,
            snapshot,
        } => open_selected(alloc, config, snapshot, slots, rows.as_slice(), *page),
    }
}

/// Appends the head of an answer, and tells what its body is.
#[tactic(auto, using(crate::proofs::DebtLaws::begun, crate::proofs::DebtLaws::begun_within, list_laws::proofs::Begins::same_begins))]
fn begin(
    alloc: Global,
    config: &Config,
    queued: &Queued,
    out: &mut Vec<u8>,
) -> Result<Rest, OutOfMemory>
    requires { IsAsked queued.now.asking }
    ensures ok { IfOk result
        (λ rest. IsGiven (queued_text config.now queued.now) (rest_text rest) out.old.items out.new.items) }
    ensures range { IfOk result IsWithin }
    ensures front { Begins out.old.items out.new.items }
{
    let answer = open_answer(alloc, config, &queued.asking)?;
    let written = write_answer_head(
        alloc,
        answer.status,
        answer.media,
        answer.length,
        queued.closes,
        out,
    );
    match written {
        Ok(()) => Ok(body_or_nothing(queued.without_body, answer.body)),
        Err(fault) => {
            drop(answer);
            Err(fault)
        }
    }
}

impl Debt {
    pub fn new(alloc: Global) -> Debt
        ensures rest { result.rest ≡ Rest.Nothing }
        ensures waiting { result.waiting.items ≡ [] }
    {
        Debt {
            rest: Rest::Nothing,
            waiting: VecDeque::new(alloc),
        }
    }

    /// Gives back the memory of the queue where no answer waits, so that many requests at once leave nothing behind.
    pub fn give_back(&mut self, alloc: Global)
        ensures rest { self.new.rest ≡ self.old.rest }
        ensures waiting { self.new.waiting.items ≡ self.old.waiting.items }
    {
        if self.waiting.is_empty() {
            self.waiting = VecDeque::new(alloc);
        }
    }

    /// Whether anything is owed.
    pub fn is_left(&self) -> bool
        ensures { result ≡ debt_left self.now.rest self.now.waiting.items }
    {
        self.rest.is_left() || !self.waiting.is_empty()
    }

    /// Puts the answer to a head behind the others, unless it asks for a reload.
    fn queue(
        &mut self,
        alloc: Global,
        server: &Server,
        head: &RequestHead,
    ) -> Result<HeadRead, OutOfMemory>
        ensures rest { self.new.rest ≡ self.old.rest }
        ensures ok { IfOk result (IsQueued server.now head.now self.old.waiting.items self.new.waiting.items) }
    {
        if asks_reload(server, head) {
            return Ok(HeadRead::Reload(head.closes));
        }
        let answer = asked_by(alloc, server, head)?;
        self.waiting.push_back(answer)?;
        Ok(HeadRead::Answered(head.closes))
    }

    /// Reads the head that stands next, if it stands whole, and puts the answer to it behind the
    /// others, unless it asks for a reload.
    fn read_head(
        &mut self,
        alloc: Global,
        server: &Server,
        requests: &mut RequestFeed,
    ) -> Result<HeadRead, OutOfMemory>
        requires { requests.old.refused ≡ None }
        ensures rest { self.new.rest ≡ self.old.rest }
        ensures ok { IfOk result (λ read.
            ReadsHead server.now requests.old self.old.waiting.items self.new.waiting.items read requests.new) }
    {
        match requests.next()? {
            NextHead::More => Ok(HeadRead::Nothing),
            NextHead::Bad(status) => {
                self.waiting.push_back(refusal_of(status))?;
                Ok(HeadRead::Answered(true))
            }
            NextHead::Head(head) => self.queue(alloc, server, &head),
        }
    }

    /// Puts the answers to the heads that stand whole behind the others, up to the first with which
    /// the connection ends or that asks for a reload, and tells how the reading stands.
    pub fn read_heads(
        &mut self,
        alloc: Global,
        server: &Server,
        requests: &mut RequestFeed,
    ) -> Result<Reading, OutOfMemory>
        requires { requests.old.refused ≡ None }
        ensures rest { self.new.rest ≡ self.old.rest }
        ensures ok { IfOk result (λ reading. ReadsHeads server.now requests.old.bytes
            self.old.waiting.items self.new.waiting.items reading requests.new) }
    {
        loop {
            match self.read_head(alloc, server, requests)? {
                HeadRead::Nothing => return Ok(Reading::Reads),
                HeadRead::Reload(closes) => return Ok(Reading::Waits(closes)),
                HeadRead::Answered(true) => return Ok(Reading::Ended),
                HeadRead::Answered(false) => {}
            }
        }
    }

    /// Puts the answer to a reload request behind the others, and then those to the heads behind it,
    /// unless the connection ends with it.
    pub fn read_on(
        &mut self,
        alloc: Global,
        server: &Server,
        outcome: Reloaded,
        closes: bool,
        requests: &mut RequestFeed,
    ) -> Result<Reading, OutOfMemory>
        requires { requests.old.refused ≡ None }
        ensures rest { self.new.rest ≡ self.old.rest }
        ensures ok { IfOk result (λ reading. ReadsOn server.now outcome closes requests.old.bytes
            self.old.waiting.items self.new.waiting.items reading requests.new) }
    {
        self.waiting.push_back(reload_answer(outcome, closes))?;
        if closes {
            return Ok(Reading::Ended);
        }
        self.read_heads(alloc, server, requests)
    }

    /// Appends the next part.
    fn give(&mut self, alloc: Global, config: &Config, out: &mut Vec<u8>) -> Result<(), OutOfMemory>
        requires fits { Fits self.old.rest self.old.waiting.items }
        requires left { debt_left self.old.rest self.old.waiting.items ≡ true }
        ensures ok { OnOk result (IsGiven (debt_text config.now self.old.rest self.old.waiting.items)
            (debt_text config.now self.new.rest self.new.waiting.items) out.old.items out.new.items) }
        ensures fits { OnOk result (Fits self.new.rest self.new.waiting.items) }
        ensures front { Begins out.old.items out.new.items }
    {
        if self.rest.is_left() {
            return self.rest.give(out);
        }
        match self.waiting.pop_front() {
            Some(queued) => {
                let begun = begin(alloc, config, &queued, out);
                // Dropped here, so that no exit below has it.
                drop(queued);
                self.rest = begun?;
                Ok(())
            }
            None => Ok(()),
        }
    }

    /// Appends parts until `ENOUGH_PENDING` bytes stand behind the `given` ones, or nothing is owed.
    fn fill_on(
        &mut self,
        alloc: Global,
        config: &Config,
        given: usize,
        out: &mut Vec<u8>,
    ) -> Result<(), OutOfMemory>
        requires fits { Fits self.old.rest self.old.waiting.items }
        requires given { given ≤ length out.old.items }
        ensures ok { OnOk result (FillsUp config.now given self.old self.new out.old.items out.new.items) }
        ensures front { Begins out.old.items out.new.items }
    {
        while out.len() - given < ENOUGH_PENDING && self.is_left() {
            self.give(alloc, config, out)?;
        }
        self.rest.settle();
        Ok(())
    }

    /// Appends parts until `ENOUGH_PENDING` bytes stand behind the `given` ones, or nothing is owed; so
    /// at most `MOST_PENDING` stand there, where no more stood there before. After `OutOfMemory` `out` is
    /// as before.
    pub fn fill(
        &mut self,
        alloc: Global,
        config: &Config,
        given: usize,
        out: &mut Vec<u8>,
    ) -> Result<(), OutOfMemory>
        requires fits { Fits self.old.rest self.old.waiting.items }
        requires given { given ≤ length out.old.items }
        ensures ok { OnOk result (FillsUp config.now given self.old self.new out.old.items out.new.items) }
        ensures front { Begins out.old.items out.new.items }
        ensures few { length out.old.items - given ≤ MOST_PENDING → length out.new.items - given ≤ MOST_PENDING }
    {
        let before = out.len();
        let filled = self.fill_on(alloc, config, given, out);
        if filled.is_err() {
            out.truncate(before);
        }
        filled
    }
}

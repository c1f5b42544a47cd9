// One exchange of a pool: it begins, is polled, and goes on, gives its reply or fails.
ghost use Rattle.std.specs.Prelude.{◌≡◌, ◌≢◌, ◌<◌, ◌≤◌, [], length, IfOk, OnOk, OnErr, true, false, IfErr};
ghost use Rattle.tpf_base.specs.Links.{SameAllowed};
ghost use Rattle.exchange.specs.Exchanges.{left_link, IsLinked};
ghost use Rattle.exchange.specs.declared.exchange.Standing.TheVariants.{Underway};
ghost use Rattle.request_pool.specs.Pools.{in_flight, with_spare};
ghost use Rattle.request_pool.specs.Owned.{SuitsWire};
ghost use Rattle.request_pool.specs.Polls.{Settles, ClosesLeft, FailsTo, EndsTo, FlightTo, GoesBehind, IsLost, IsHandedOut, LosesReply};
ghost use Rattle.request_pool.specs.Runs.{Begins, Starts, PollsNext, BeginsNone};

use crate::asks::{Flight, Spare, Waiting};
use crate::fault::{Polled, PoolFault};
use crate::links::{shut, take_link};
use crate::pool::Pool;
use exchange::{Exchange, ExchangeFault, ReceiveBuffer};
use http_wire::Reply;
use template_fill::WebAddress;
use tpf_base::{Bytes, Dial, OutOfMemory};

impl Pool {
    /// Starts the first ask that waits, and polls it.
    pub(crate) fn start<W: Dial>(
        &mut self,
        wire: &mut W,
        buffer: &mut ReceiveBuffer,
    ) -> Result<Polled, PoolFault>
        requires suits { SuitsWire self.old (W.state wire.old) }
        requires room { length (in_flight self.old) < self.old.links }
        requires some { self.old.waiting ≢ [] }
        ensures starts { Starts result self.old self.new (W.state wire.old) (W.state wire.new) }
        ensures allowed { SameAllowed (W.allows wire.old) (W.allows wire.new) }
    {
        if self.started >= self.budget {
            return Err(PoolFault::Budget);
        }
        match self.begin() {
            Ok(flight) => self.poll_flight(wire, buffer, flight),
            Err(link) => {
                shut(wire, link);
                Err(PoolFault::OutOfMemory)
            }
        }
    }

    /// An exchange for the first ask that waits, on a link that was left for its authority where it
    /// did not fail before. Out of memory, the ask is gone, and the link is to be closed.
    fn begin(&mut self) -> Result<Flight, Option<u64>>
        requires room { length (in_flight self.old) < self.old.links }
        requires some { self.old.waiting ≢ [] }
        requires budget { self.old.started < self.old.budget }
        ensures ok { IfOk result (λ f. Begins self.old self.new f) }
        ensures err { IfErr result (λ link. BeginsNone self.old self.new link) }
    {
        match self.waiting.pop_front() {
            None => unreachable!(),
            Some(
                Waiting {
                    ticket,
                    address,
                    failed,
                },
            ) => {
                let link = take_link(&mut self.spare, &address, failed);
                match Exchange::start(self.alloc, address, self.limit, link) {
                    Ok(exchange) => {
                        self.started += 1;
                        Ok(Flight {
                            ticket,
                            failed,
                            exchange,
                        })
                    }
                    Err(_) => Err(link),
                }
            }
        }
    }

    /// Polls the next exchange of this round.
    pub(crate) fn poll_next<W: Dial>(
        &mut self,
        wire: &mut W,
        buffer: &mut ReceiveBuffer,
    ) -> Result<Polled, PoolFault>
        requires suits { SuitsWire self.old (W.state wire.old) }
        requires some { self.old.due ≢ [] }
        ensures polls { PollsNext result self.old self.new (W.state wire.old) (W.state wire.new) }
        ensures allowed { SameAllowed (W.allows wire.old) (W.allows wire.new) }
    {
        match self.due.pop_front() {
            None => unreachable!(),
            Some(flight) => self.poll_flight(wire, buffer, flight),
        }
    }

    /// Polls an exchange that is not among those in flight, and puts it behind those that were
    /// polled where it goes on.
    fn poll_flight<W: Dial>(
        &mut self,
        wire: &mut W,
        buffer: &mut ReceiveBuffer,
        flight: Flight,
    ) -> Result<Polled, PoolFault>
        requires underway { flight.exchange.standing ≡ Underway }
        requires linked { IsLinked flight.exchange.link (W.state wire.old) }
        requires room { length (in_flight self.old) < self.old.links }
        ensures to { FlightTo result flight self.old self.new (W.state wire.old) (W.state wire.new) }
        ensures allowed { SameAllowed (W.allows wire.old) (W.allows wire.new) }
    {
        let mut flight = flight;
        match flight.exchange.poll(wire, buffer) {
            None => self.go_on(wire, flight),
            Some(Ok(reply)) => self.come(wire, flight, reply),
            Some(Err(fault)) => self.end(flight, fault),
        }
    }

    /// Puts an exchange behind those that were polled. Out of memory, its link is closed.
    fn go_on<W: Dial>(&mut self, wire: &mut W, flight: Flight) -> Result<Polled, PoolFault>
        requires linked { IsLinked flight.exchange.link (W.state wire.old) }
        requires room { length (in_flight self.old) < self.old.links }
        ensures ok { IfOk result (λ polled.
            GoesBehind flight polled self.old self.new (W.state wire.old) (W.state wire.new)) }
        ensures err { IfErr result (λ fault.
            IsLost flight fault self.old self.new (W.state wire.old) (W.state wire.new)) }
        ensures allowed { SameAllowed (W.allows wire.old) (W.allows wire.new) }
    {
        let link = flight.exchange.link();
        match self.polled.push_back(flight) {
            Ok(()) => Ok(Polled::Pending),
            Err(_) => {
                shut(wire, link);
                Err(PoolFault::OutOfMemory)
            }
        }
    }

    /// Hands out a reply; a link that its exchange left is kept or closed.
    fn come<W: Dial>(
        &mut self,
        wire: &mut W,
        flight: Flight,
        reply: Reply,
    ) -> Result<Polled, PoolFault>
        requires linked { IsLinked (left_link flight.exchange) (W.state wire.old) }
        ensures ok { IfOk result (λ polled.
            IsHandedOut flight reply polled self.old self.new (W.state wire.old) (W.state wire.new)) }
        ensures err { IfErr result (λ fault.
            LosesReply flight fault self.old self.new (W.state wire.old) (W.state wire.new)) }
        ensures allowed { SameAllowed (W.allows wire.old) (W.allows wire.new) }
    {
        let ticket = flight.ticket;
        let left = flight.exchange.leave();
        let address = flight.exchange.into_address();
        match self.settle(wire, left, &address) {
            Ok(()) => Ok(Polled::Came {
                ticket,
                address,
                reply,
            }),
            Err(_) => Err(PoolFault::OutOfMemory),
        }
    }

    /// Keeps a link that was left, or closes it where no place is free. Out of memory, it is closed.
    fn settle<W: Dial>(
        &mut self,
        wire: &mut W,
        left: Option<u64>,
        address: &WebAddress,
    ) -> Result<(), OutOfMemory>
        requires linked { IsLinked left (W.state wire.old) }
        ensures ok { OnOk result (Settles left address.now self.old self.new (W.state wire.old) (W.state wire.new)) }
        ensures err { OnErr result ((self.new ≡ self.old) × ClosesLeft left (W.state wire.old) (W.state wire.new)) }
        ensures allowed { SameAllowed (W.allows wire.old) (W.allows wire.new) }
    {
        let Some(link) = left else {
            return Ok(());
        };
        if self.keeps_most() {
            wire.close(link);
            return Ok(());
        }
        match self.keep(link, address) {
            Ok(()) => Ok(()),
            Err(_) => {
                wire.close(link);
                Err(OutOfMemory)
            }
        }
    }

    /// Whether as many links are kept as may be.
    fn keeps_most(&self) -> bool
        ensures full { result ≡ true → self.now.links ≤ length self.now.spare }
        ensures room { result ≡ false → length self.now.spare < self.now.links }
    {
        self.spare.len() >= self.links as usize
    }

    /// Keeps a link that was left, for other asks with the authority of this address. Out of memory, all
    /// is as it was.
    fn keep(&mut self, link: u64, address: &WebAddress) -> Result<(), OutOfMemory>
        ensures ok { OnOk result (self.new ≡ with_spare link address.now self.old) }
        ensures err { OnErr result (self.new ≡ self.old) }
    {
        let authority = Bytes::copy(self.alloc, address.authority().as_bytes())?;
        self.spare.push(Spare { link, authority })?;
        Ok(())
    }

    /// What the fault of an exchange that is over comes to.
    fn end(&mut self, flight: Flight, fault: ExchangeFault) -> Result<Polled, PoolFault>
        ensures { EndsTo fault result flight self.old self.new }
    {
        match fault {
            ExchangeFault::Failed => self.fail(flight, PoolFault::Exchange),
            ExchangeFault::Cut { received } => self.fail(flight, PoolFault::Cut { received }),
            ExchangeFault::Bad { fault, received } => Err(PoolFault::Reply { fault, received }),
            ExchangeFault::OutOfMemory => Err(PoolFault::OutOfMemory),
        }
    }

    /// Counts a failure of an ask, which waits before all others, unless it failed too often: then
    /// the answer is the fault.
    pub(crate) fn fail(&mut self, flight: Flight, fault: PoolFault) -> Result<Polled, PoolFault>
        ensures fails { FailsTo fault result flight self.old self.new }
        ensures failed { IfOk result (λ polled. polled ≡ Polled.Failed) }
    {
        if flight.failed >= self.retries {
            return Err(fault);
        }
        drop(fault);
        let again = Waiting {
            ticket: flight.ticket,
            address: flight.exchange.into_address(),
            failed: flight.failed + 1,
        };
        match self.waiting.push_front(again) {
            Ok(()) => Ok(Polled::Failed),
            Err(_) => Err(PoolFault::OutOfMemory),
        }
    }
}

// One request and its reply.
ghost use Rattle.std.specs.Prelude.{◌≡◌, ◌≤◌, ◌==◌, ◌&&◌, [], length, true, false, Some, IfOk, IfErr, Err, if◌then◌else◌};
ghost use Rattle.tpf_base.specs.HttpReply.{is_open, begun, after_bytes};
ghost use Rattle.tpf_base.specs.Links.{SameAllowed};
ghost use Rattle.tpf_base.specs.Calls.{Closes};
ghost use Rattle.exchange.specs.Exchanges.{starting, left_link, IsLinked, request_of};
ghost use Rattle.exchange.specs.Incoming.{most_kept};
ghost use Rattle.exchange.specs.Polls.{Touches, Answers, HandsOver};
ghost use Rattle.exchange.specs.Parts.{Leads, TouchesLink, IsUndialled, Concludes};

use crate::buffer::ReceiveBuffer;
use crate::fault::ExchangeFault;
use crate::incoming::{Conclusion, Incoming};
use crate::receiving::{Received, receive};
use http_wire::{Reply, laws, write_request};
use std::alloc::Global;
use std::marker::Model;
use std::mem;
use template_fill::WebAddress;
use tpf_base::{Dial, Fault, Halt, OutOfMemory, send_rest};

/// A request has at most so many bytes beside its address, so it is made in one place.
const BESIDE: usize = 64;

/// Where an exchange stands.
#[derive(Clone, Copy)]
pub(crate) enum Standing {
    /// It is not over yet.
    Underway,
    /// A reply came, and the link is open and may be used again.
    Left,
    /// It is over, and its link, if it got one, is closed.
    Over,
}

/// A request for an address and the reply to it, on one link, which is polled until it is over.
///
/// Contracts see its address, the limit of the reply's body, its link, the prefix of its request that
/// was sent, the bytes that were received in reply, and where it stands. It holds no history of its
/// link: what was sent and received there before is no part of it.
#[derive(Drop)]
pub struct Exchange {
    alloc: Global,
    address: WebAddress,
    request: Vec<u8>,
    sent: usize,
    incoming: Incoming,
    link: Option<u64>,
    standing: Standing,
}

impl Model for Exchange {
    ghost use Rattle.std.specs.Prelude.{take, length, ◌≡◌, ◌≤◌, true};
    ghost use Rattle.tpf_base.specs.HttpReply.{is_open};
    ghost use Rattle.exchange.specs.Exchanges.{Exchanging, request_of};
    ghost use Rattle.exchange.specs.declared.exchange.Standing.TheVariants.{Underway};

    ghost Value = { Exchanging };

    ghost view = { λ e. record {
      address = e.address;
      limit = e.incoming.limit;
      link = e.link;
      sent = take e.sent e.request.items;
      received = e.incoming.received;
      standing = e.standing;
    } };

    ghost invariant = { λ e. record {
      is_request : e.request.items ≡ request_of e.address;
      within : e.sent ≤ length e.request.items;
      goes_on : e.standing ≡ Underway → is_open e.incoming.place ≡ true;
    } };
}

impl Exchange {
    /// An exchange for an address whose reply may have a body of at most so many bytes. It uses the
    /// given link, which another exchange with the same authority left, or else dials one at its first
    /// poll. Nothing is sent yet. The address moves in, and `into_address` gives it back. It fails only
    /// when it is out of memory; the address is then gone.
    #[tactic(auto, unfolding(crate::specs::Exchanges::request_of))]
    pub fn start(
        alloc: Global,
        address: WebAddress,
        limit: u64,
        link: Option<u64>,
    ) -> Result<Exchange, OutOfMemory>
        ensures { IfOk result (λ e. e ≡ starting address limit link) }
    {
        let most = address.text().len().saturating_add(BESIDE);
        let mut request = Vec::with_capacity(alloc, most)?;
        write_request(address.authority(), address.target(), &mut request)?;
        Ok(Exchange {
            alloc,
            address,
            request,
            sent: 0,
            incoming: Incoming::new(alloc, limit),
            link,
            standing: Standing::Underway,
        })
    }

    /// Its link, once it has one.
    pub fn link(&self) -> Option<u64>
        ensures { result ≡ self.now.link }
    {
        self.link
    }

    /// How many bytes of the reply are held as they were received: at most nine for each byte of the
    /// limit, and 1187840 more, which are the limits of heads and of the lines behind the last chunk
    /// (`HEADS_LIMIT` of `tpf_base` each), of the lines of chunks (`PADDING_LIMIT`), and one receive
    /// (`ROOM`).
    pub fn kept(&self) -> u64
        ensures length { result ≡ length self.now.received }
        ensures bound { result ≤ most_kept self.now.limit }
    {
        self.incoming.kept() as u64
    }

    /// The link, still open, exactly where a reply came that keeps it and no byte behind the reply
    /// was received; else none.
    pub fn leave(&self) -> Option<u64>
        ensures { result ≡ left_link self.now }
    {
        match self.standing {
            Standing::Left => self.link,
            Standing::Underway | Standing::Over => None,
        }
    }

    /// Its address, for another exchange.
    pub fn into_address(self) -> WebAddress
        ensures { result ≡ self.address }
    {
        self.address
    }

    /// Goes on until a call moves no byte: dials, unless it has a link, to the host and the port of
    /// its address, sends what is left of its request, and receives the reply.
    ///
    /// `None` where its link stalled; what was sent so far is a prefix of the request. The reply where
    /// the request was sent whole and what was received in reply is that reply, whole; the link then
    /// stays open where `leave` gives it. `Failed` only where the wire's count of faults rose in this
    /// poll; `Cut` where the link ended before the reply was whole; `Bad` as soon as the bytes received
    /// have that fault. What was received goes with these three answers. Where it is over and `leave`
    /// gives nothing the link is closed. Each poll has the same wire, and the buffer may be another.
    pub fn poll<W: Dial>(
        &mut self,
        wire: &mut W,
        buffer: &mut ReceiveBuffer,
    ) -> Option<Result<Reply, ExchangeFault>>
        requires underway { self.old.standing ≡ Standing.Underway }
        requires link { IsLinked self.old.link (W.state wire.old) }
        ensures touches { Touches self.old self.new (W.state wire.old) (W.state wire.new) }
        ensures answers { Answers self.old self.new (W.state wire.old) (W.state wire.new) result }
        ensures hands_over { HandsOver self.new.received result }
        ensures allowed { SameAllowed (W.allows wire.old) (W.allows wire.new) }
    {
        self.incoming.leads();
        laws::what_is_read_is_given();
        match self.own_link(wire) {
            Ok(link) => self.send(wire, buffer, link),
            Err(fault) => {
                self.standing = Standing::Over;
                Some(Err(fault))
            }
        }
    }

    /// Its link, which is dialled where it has none.
    fn own_link<W: Dial>(&mut self, wire: &mut W) -> Result<u64, ExchangeFault>
        requires link { IsLinked self.old.link (W.state wire.old) }
        ensures leads { IfOk result (λ link. Leads link self.old self.new (W.state wire.old) (W.state wire.new)
            × (self.new ≡ record self.old { link = Some link })) }
        ensures refused { IfErr result (λ fault. IsUndialled fault self.old (W.state wire.old) (W.state wire.new)
            × (self.new ≡ self.old)) }
        ensures allowed { SameAllowed (W.allows wire.old) (W.allows wire.new) }
    {
        if let Some(link) = self.link {
            return Ok(link);
        }
        match wire.dial(self.address.host(), self.address.port()) {
            Ok(link) => {
                self.link = Some(link);
                Ok(link)
            }
            Err(Fault::Failed) => Err(ExchangeFault::Failed),
            Err(Fault::OutOfMemory) => Err(ExchangeFault::OutOfMemory),
        }
    }

    /// Sends what is left of the request, and then receives.
    fn send<W: Dial>(
        &mut self,
        wire: &mut W,
        buffer: &mut ReceiveBuffer,
        link: u64,
    ) -> Option<Result<Reply, ExchangeFault>>
        requires underway { self.old.standing ≡ Standing.Underway }
        requires link { self.old.link ≡ Some link }
        requires is_open { ((W.state wire.old).links link).is_open ≡ true }
        ensures touches { TouchesLink link self.old self.new (W.state wire.old) (W.state wire.new) }
        ensures answers { Answers self.old self.new (W.state wire.old) (W.state wire.new) result }
        ensures hands_over { HandsOver self.new.received result }
        ensures allowed { SameAllowed (W.allows wire.old) (W.allows wire.new) }
    {
        self.incoming.leads();
        laws::what_is_read_is_given();
        match send_rest(wire, link, self.request.as_slice(), &mut self.sent) {
            Halt::Done => self.receive_reply(wire, buffer, link),
            Halt::NotYet => None,
            Halt::Failed => self.break_off(wire, link, ExchangeFault::Failed),
            Halt::OutOfMemory => self.break_off(wire, link, ExchangeFault::OutOfMemory),
        }
    }

    /// Receives the reply.
    fn receive_reply<W: Dial>(
        &mut self,
        wire: &mut W,
        buffer: &mut ReceiveBuffer,
        link: u64,
    ) -> Option<Result<Reply, ExchangeFault>>
        requires underway { self.old.standing ≡ Standing.Underway }
        requires link { self.old.link ≡ Some link }
        requires sent { self.old.sent ≡ request_of self.old.address }
        requires is_open { ((W.state wire.old).links link).is_open ≡ true }
        ensures touches { TouchesLink link self.old self.new (W.state wire.old) (W.state wire.new) }
        ensures answers { Answers self.old self.new (W.state wire.old) (W.state wire.new) result }
        ensures hands_over { HandsOver self.new.received result }
        ensures allowed { SameAllowed (W.allows wire.old) (W.allows wire.new) }
    {
        let received = receive(wire, link, buffer.bytes.as_mut_slice(), &mut self.incoming);
        self.incoming.leads();
        laws::what_is_read_is_given();
        match received {
            Received::Read => {
                self.standing = Standing::Over;
                self.conclude(wire, link, false)
            }
            Received::End => {
                self.standing = Standing::Over;
                self.conclude(wire, link, true)
            }
            Received::NotYet => None,
            Received::Failed => self.break_off(wire, link, ExchangeFault::Failed),
            Received::OutOfMemory => self.break_off(wire, link, ExchangeFault::OutOfMemory),
        }
    }

    /// Closes the link, and is over with the fault.
    fn break_off<W: Dial>(
        &mut self,
        wire: &mut W,
        link: u64,
        fault: ExchangeFault,
    ) -> Option<Result<Reply, ExchangeFault>>
        requires is_open { ((W.state wire.old).links link).is_open ≡ true }
        ensures result { result ≡ Some (Err fault) }
        ensures over { self.new ≡ record self.old { standing = Standing.Over } }
        ensures closes { Closes link (W.state wire.old) (W.state wire.new) }
        ensures allowed { SameAllowed (W.allows wire.old) (W.allows wire.new) }
    {
        self.standing = Standing::Over;
        wire.close(link);
        Some(Err(fault))
    }

    /// Leaves the link open, or closes it.
    fn settle<W: Dial>(&mut self, wire: &mut W, link: u64, stays: bool)
        requires is_open { ((W.state wire.old).links link).is_open ≡ true }
        ensures standing { self.new ≡ record self.old { standing = (if stays then Standing.Left else Standing.Over) } }
        ensures left { stays ≡ true → W.state wire.new ≡ W.state wire.old }
        ensures closes { stays ≡ false → Closes link (W.state wire.old) (W.state wire.new) }
        ensures allowed { SameAllowed (W.allows wire.old) (W.allows wire.new) }
    {
        if stays {
            self.standing = Standing::Left;
        } else {
            self.standing = Standing::Over;
            wire.close(link);
        }
    }

    /// What was received comes to a reply, or to none. The link is closed unless it may be used
    /// again.
    fn conclude<W: Dial>(
        &mut self,
        wire: &mut W,
        link: u64,
        ended: bool,
    ) -> Option<Result<Reply, ExchangeFault>>
        requires is_open { ((W.state wire.old).links link).is_open ≡ true }
        requires ended { is_open (after_bytes self.old.limit begun self.old.received) ≡ ended }
        ensures address { self.new.address ≡ self.old.address }
        ensures limit { self.new.limit ≡ self.old.limit }
        ensures link { self.new.link ≡ self.old.link }
        ensures sent { self.new.sent ≡ self.old.sent }
        ensures received { self.new.received ≡ [] }
        ensures concludes { Concludes link ended self.old self.new (W.state wire.old) (W.state wire.new) result }
        ensures allowed { SameAllowed (W.allows wire.old) (W.allows wire.new) }
    {
        let limit = self.incoming.limit();
        self.incoming.leads();
        let spare = self.incoming.spare();
        self.standing = Standing::Over;
        let incoming = mem::replace(&mut self.incoming, Incoming::new(self.alloc, limit));
        match incoming.conclude() {
            Conclusion::Whole(reply) => {
                self.settle(wire, link, may_stay(reply.keeps, spare));
                Some(Ok(reply))
            }
            Conclusion::Cut(received) => {
                self.settle(wire, link, false);
                Some(Err(ExchangeFault::Cut { received }))
            }
            Conclusion::Refused(fault, received) => {
                self.settle(wire, link, false);
                Some(Err(ExchangeFault::Bad { fault, received }))
            }
        }
    }
}

/// Whether a link may be used again behind a reply, behind which so many bytes were received.
fn may_stay(keeps: bool, spare: usize) -> bool
    ensures { result ≡ (keeps && (spare == 0)) }
{
    keeps && spare == 0
}

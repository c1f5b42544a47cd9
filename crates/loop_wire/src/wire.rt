// A wire in one process.
ghost use Rattle.std.specs.Prelude.{◌≡◌, ◌<◌, length, min, get_or, Some, Ok, Err, true, false, is_err};
ghost use Rattle.tpf_base.specs.Failures.{is_next_due, is_next_dial_due, room};
ghost use Rattle.loop_wire.specs.Held.{told, no_link};
ghost use Rattle.loop_wire.specs.Standing.{owed_to};
ghost use Rattle.loop_wire.specs.Looped.{Looped, new_wire, state_in, held_of, AreServed, CountsDue};
ghost use Rattle.rand_pcg.specs.Pcg.{multiplier_64};
ghost use Rattle.rand_pcg.specs.Lcg.{started, increment_of};

use crate::behind::is_there;
use crate::counts::Waits;
use crate::cuts::{cut, is_woke_after, moved_after, place, stalls};
use crate::link::LoopLink;
use crate::links::{close, give, next_ripe, receive, send, settle, wake};
use crate::{Behind, One, RespondsAt, Servers, Several, StandsAt};
use rand_pcg::Pcg32;
use std::alloc::Global;
use std::marker::Model;
use tpf_base::{Dial, Failing, Failures, Fault, Moved, Ready, Wire};

/// The stream of the generator: any one serves.
const STREAM: u64 = 54;

/// A wire in one process: each link that is dialled is answered by a connection of the server that
/// stands at its host and port. `One` server stands at every host and port; of `Several` each stands at
/// its own, and a dial to any other fails.
///
/// It tells all of each link. What is owed is the response to what was sent; a reload request is
/// answered as one that failed, since this wire has no other data. A call moves 1 to `MOST_CUT` (4096)
/// bytes, about one in four stalls (it would block), and a wait answers some ripe link (one that is
/// ready): sizes, stalls and order come from the seed.
///
/// The calls of `send`, `recv`, `dial` and `wait` count, also one that ends in out of memory, and
/// fail where its `Failing` says so, whichever server is called; a dial counts among the dials too. A
/// wait fails too where no link is ripe, or where the wait before it succeeded and no byte moved since,
/// and a dial where no server stands: the caller provoked that. Each wait that fails is a fault of the
/// door, which is never opened.
///
/// Where a connection runs out of memory, each further call on its link that is not failed answers
/// `OutOfMemory`, and nothing that is told of it changes from then on.
#[derive(Drop)]
pub struct LoopWire<C: RespondsAt, B: Behind<C> = One> {
    servers: B::Servers,
    links: Vec<LoopLink<C>>,
    failures: Failures,
    generator: Pcg32,
    moved: u64,
    provoked: u64,
    waits: Waits,
    /// Whether the last wait succeeded and no byte moved since.
    woke: bool,
}

impl<C: RespondsAt, B: Behind<C>> Model for LoopWire<C, B> {
    ghost Value = { Looped B.Servers };

    ghost view = { λ w. record {
      server = w.servers;
      links = held_of w.links.items;
      counts = w.failures;
      generator = w.generator;
      moved = w.moved;
      provoked = w.provoked;
      waits = w.waits;
      woke = w.woke;
    } };

    ghost invariant = { λ w.
        AreServed C.kind C.Suits C.Server.serving C.response_at (B.server_of w.servers) w.links.items
        × CountsDue w.failures.failing w.failures.dials w.failures.faults w.provoked };
}

impl<C: RespondsAt> LoopWire<C, One> {
    /// A wire to this server that has given no link yet. It takes no memory.
    pub fn new(alloc: Global, server: C::Server, seed: u64, failing: Failing) -> LoopWire<C>
        ensures { result ≡ new_wire server (started 64 multiplier_64 seed (increment_of 64 54)) failing }
    {
        LoopWire::begun(alloc, server, seed, failing)
    }
}

impl<C: StandsAt> LoopWire<C, Several> {
    /// A wire to these servers that has given no link yet. Each answers as it is now, at the host and the
    /// port at which it stands; where two stand at one, the first does. It takes no memory.
    pub fn to_servers(
        alloc: Global,
        servers: Vec<C::Server>,
        seed: u64,
        failing: Failing,
    ) -> LoopWire<C, Several>
        ensures { result ≡ new_wire servers.items (started 64 multiplier_64 seed (increment_of 64 54)) failing }
    {
        LoopWire::begun(alloc, Servers::new(servers), seed, failing)
    }
}

impl<C: RespondsAt, B: Behind<C>> LoopWire<C, B> {
    /// A wire to what stands behind it that has given no link yet. It takes no memory.
    fn begun(alloc: Global, servers: B::Servers, seed: u64, failing: Failing) -> LoopWire<C, B>
        ensures { result ≡ new_wire servers (started 64 multiplier_64 seed (increment_of 64 54)) failing }
    {
        LoopWire {
            servers,
            links: Vec::new(alloc),
            failures: Failures::new(failing),
            generator: Pcg32::new(seed, STREAM),
            moved: 0,
            provoked: 0,
            waits: Waits::new(),
            woke: false,
        }
    }

    /// Where nothing but each n-th dial is due to fail, no other calls failed but those that the caller
    /// provoked. The call does nothing; it tells a proof of it.
    pub fn fails_as_due(&self)
        ensures { CountsDue self.now.counts.failing self.now.counts.dials self.now.counts.faults self.now.provoked }
    {
        let _failures = &self.failures;
    }

    /// How many links were given.
    pub fn links(&self) -> usize
        ensures { result ≡ length self.now.links }
    {
        self.links.len()
    }

    /// The bytes sent on the link with this number.
    pub fn sent_on(&self, i: usize) -> &[u8]
        requires { i < length self.now.links }
        ensures { result.now ≡ (get_or self.now.links i no_link).sent }
    {
        self.links[i].held.sent()
    }
}

impl<C: RespondsAt, B: Behind<C>> Wire for LoopWire<C, B> {
    ghost use Rattle.loop_wire.specs.Laws.{all_told, none_open, front_received, front_owed, is_calm};

    ghost state = { λ wire. state_in B.everywhere (owed_to C.response_at C.Server.serving B.server_of wire.server) wire };

    ghost allows = { λ wire host port sent owed.
        owed ≡ owed_to C.response_at C.Server.serving B.server_of wire.server (Some (host, port)) sent };

    ghost told = { λ wire k. all_told (owed_to C.response_at C.Server.serving B.server_of wire.server) wire.links k };

    ghost given_alone = { λ wire. none_open (owed_to C.response_at C.Server.serving B.server_of wire.server) wire.links };

    ghost received_is_owed = { λ wire k.
        front_received (owed_to C.response_at C.Server.serving B.server_of wire.server) wire.links k };

    ghost owed_is_allowed = { λ wire k.
        front_owed (owed_to C.response_at C.Server.serving B.server_of wire.server) wire.links k };

    ghost is_lively = { λ wire. is_calm B.everywhere (owed_to C.response_at C.Server.serving B.server_of wire.server)
        wire.links wire.counts wire.provoked wire.waits wire.woke };

    fn send(&mut self, link: u64, piece: &[u8]) -> Moved {
        let k = link as usize;
        if self.failures.is_next_due(self.moved) {
            self.failures.fail();
            settle(&mut self.links, k);
            return Moved::Failed;
        }
        let stalling = stalls(&mut self.generator, self.links[k].held.is_woken());
        let most = cut(&mut self.generator).min(piece.len());
        let n = self.failures.room(self.moved, most);
        let answer = send::<C, B>(&mut self.links, k, &self.servers, stalling, &piece[..n]);
        self.moved = moved_after(answer, self.moved);
        self.woke = is_woke_after(answer, self.woke);
        answer
    }

    fn recv(&mut self, link: u64, to: &mut [u8]) -> Moved {
        let k = link as usize;
        if self.failures.is_next_due(self.moved) {
            self.failures.fail();
            settle(&mut self.links, k);
            return Moved::Failed;
        }
        let stalling = stalls(&mut self.generator, self.links[k].held.is_woken());
        let most = self.failures.room(self.moved, cut(&mut self.generator));
        let answer = receive::<C, B>(&mut self.links, k, &self.servers, stalling, most, to);
        self.moved = moved_after(answer, self.moved);
        self.woke = is_woke_after(answer, self.woke);
        answer
    }

    fn close(&mut self, link: u64) {
        close(&mut self.links, link as usize);
    }

    fn wait(&mut self) -> Result<Ready, Fault> {
        self.waits.count();
        if self.failures.is_next_due(self.moved) {
            self.failures.fail();
            self.waits.fail();
            return Err(Fault::Failed);
        }
        let start = place(&mut self.generator, self.links.len());
        let Some(k) = next_ripe(&self.links, start, self.woke) else {
            self.failures.fail();
            self.waits.fail();
            self.provoked = self.provoked.saturating_add(1);
            return Err(Fault::Failed);
        };
        wake(&mut self.links, k);
        self.woke = true;
        Ok(Ready::Link(k as u64))
    }

    fn look(&mut self)
        ensures { self.new ≡ self.old }
    {}

    fn idle(&self) -> u64 {
        if self.woke { 1 } else { 0 }
    }
}

impl<C: RespondsAt, B: Behind<C>> Dial for LoopWire<C, B> {
    fn dial(&mut self, host: &str, port: u16) -> Result<u64, Fault> {
        if self.failures.is_next_dial_due(self.moved) {
            self.failures.fail();
            return Err(Fault::Failed);
        }
        if !is_there::<C, B>(&self.servers, host, port) {
            self.failures.fail();
            self.provoked = self.provoked.saturating_add(1);
            return Err(Fault::Failed);
        }
        let number = self.links.len() as u64;
        if give(&mut self.links, host, port).is_err() {
            return Err(Fault::OutOfMemory);
        }
        self.woke = false;
        Ok(number)
    }
}

// One open link to a server that gives back what it gets.
ghost use Rattle.std.specs.Prelude.{◌≡◌, true};
ghost use Rattle.loop_wire.specs.Looped.{state_of};

use echo_server::{Echo, EchoServer};
use loop_wire::LoopWire;
use std::alloc::{AllocError, Global};
use tpf_base::{Dial, Failing, Fault, Moved, Wire};

/// One link, and what its calls answered so far.
#[derive(Drop)]
pub struct Line {
    wire: LoopWire<Echo>,
    link: u64,
    /// How many bytes were sent and have not come back.
    owed: usize,
    /// How many calls answered that nothing moves yet.
    pub stalls: u32,
    /// How many receives moved fewer bytes than were owed and fitted.
    pub cuts: u32,
    ghost is_open: { ((state_of (λ sent. sent) wire).links link).is_open ≡ true },
}

impl Line {
    /// A wire of this seed that fails no call, with one link.
    pub fn new(alloc: Global, seed: u64) -> Result<Line, Fault> {
        let mut wire = LoopWire::new(alloc, EchoServer::new(7), seed, Failing::Never);
        let link = wire.dial("example.org", 80)?;
        Ok(Line {
            wire,
            link,
            owed: 0,
            stalls: 0,
            cuts: 0,
        })
    }

    /// How many bytes an answer says that moved; it counts the stalls.
    fn moved(&mut self, answer: Moved) -> usize {
        match answer {
            Moved::Moved(n) => n,
            Moved::NotYet => {
                self.stalls = self.stalls.saturating_add(1);
                0
            }
            _ => 0,
        }
    }

    /// How many bytes one send moves.
    fn send(&mut self, piece: &[u8]) -> usize {
        if piece.is_empty() {
            return 0;
        }
        let answer = self.wire.send(self.link, piece);
        let n = self.moved(answer);
        self.owed = self.owed.saturating_add(n);
        n
    }

    /// How many bytes one receive moves.
    fn recv(&mut self, to: &mut [u8]) -> usize {
        if to.is_empty() {
            return 0;
        }
        self.wire.look();
        let most = self.owed.min(to.len());
        let answer = self.wire.recv(self.link, to);
        let n = self.moved(answer);
        if 0 < n && n < most {
            self.cuts = self.cuts.saturating_add(1);
        }
        self.owed = self.owed.saturating_sub(n);
        n
    }

    /// How many bytes of this piece at most 100 sends move.
    pub fn send_all(&mut self, piece: &[u8]) -> usize {
        let mut sent = 0usize;
        for _ in 0..100 {
            let n = self.send(&piece[sent.min(piece.len())..]);
            sent = sent.saturating_add(n);
        }
        sent
    }

    /// What 100 receives bring.
    pub fn recv_all(&mut self, alloc: Global) -> Result<Vec<u8>, AllocError> {
        let mut got = Vec::new(alloc);
        let mut buffer = [0u8; 1000];
        for _ in 0..100 {
            let n = self.recv(&mut buffer);
            got.extend_from_slice(&buffer[..n.min(1000)])?;
        }
        Ok(got)
    }
}

// A wire of scripts of which no link is closed, so that tests can call on each of its links.
ghost use Rattle.std.specs.Prelude.{ℕ, ◌≡◌, ◌≤◌, length, true};
ghost use Rattle.script_wire.specs.Held.{state_of};
ghost use Rattle.tpf_base.specs.Links.{listens};
ghost use Rattle.base_tests.specs.Played.{AreOpen};

use script_wire::{Script, ScriptWire};
use std::alloc::Global;
use tpf_base::{Accept, Dial, Failing, Fault, Moved, Ready, Wire};

#[derive(Drop)]
pub struct Played {
    wire: ScriptWire,
    door: bool,
    ghost are_open: { AreOpen (state_of wire) },
    ghost door_open: { door ≡ true → listens (state_of wire) ≡ true },
}

impl Played {
    #[tactic(auto, using(crate::proofs::Open::open_first))]
    pub fn new(alloc: Global, scripts: Vec<Script>, failing: Failing) -> Played {
        Played {
            wire: ScriptWire::new(alloc, scripts, failing),
            door: false,
        }
    }

    /// The bytes sent on a link, and none where it was not given.
    fn sent_on(&self, i: usize) -> &[u8] {
        if i < self.wire.links() {
            self.wire.sent_on(i)
        } else {
            &[]
        }
    }

    #[tactic(auto, using(crate::proofs::Open::open_given, crate::proofs::Open::open_none))]
    pub fn dial(&mut self, host: &str, port: u16) -> Result<u64, Fault> {
        self.wire.dial(host, port)
    }

    #[tactic(auto, using(crate::proofs::Open::open_none))]
    fn listen(&mut self, host: &str, port: u16) -> Result<(), Fault> {
        let opened = self.wire.listen(host, port);
        if opened.is_ok() {
            self.door = true;
        }
        opened
    }

    /// `Failed` where the door is not open.
    #[tactic(auto, using(crate::proofs::Open::open_given, crate::proofs::Open::open_none))]
    fn accept(&mut self) -> Result<Option<u64>, Fault> {
        if !self.door {
            return Err(Fault::Failed);
        }
        self.wire.accept()
    }

    #[tactic(auto, using(crate::proofs::Open::open_woken, crate::proofs::Open::open_none))]
    fn wait(&mut self) -> Result<Ready, Fault> {
        self.wire.wait()
    }

    fn look(&mut self) {
        self.wire.look()
    }

    /// `End`, which no send answers, where the link was not given or the piece is empty.
    #[tactic(auto, using(crate::proofs::Open::open_on))]
    fn send(&mut self, link: u64, piece: &[u8]) -> Moved {
        if link >= self.wire.links() as u64 || piece.is_empty() {
            return Moved::End;
        }
        self.wire.send(link, piece)
    }

    /// `Failed` where the link was not given or the buffer is empty.
    #[tactic(auto, using(crate::proofs::Open::open_on))]
    pub fn recv(&mut self, link: u64, to: &mut [u8]) -> Moved
        ensures { (n : ℕ) → result ≡ Moved.Moved n → n ≤ length to.new }
    {
        if link >= self.wire.links() as u64 || to.is_empty() {
            return Moved::Failed;
        }
        self.wire.recv(link, to)
    }

    /// Whether one receive with room for so many bytes, at most 8, gives what the word says.
    fn hears_word(&mut self, link: u64, room: usize, word: &str) -> bool {
        let mut buffer = [0u8; 8];
        let answer = self.recv(link, &mut buffer[..room.min(8)]);
        match answer {
            Moved::Moved(n) => word.as_bytes() == &buffer[..n],
            Moved::End => word == ".",
            Moved::NotYet => word == "-",
            Moved::Failed => word == "F",
            Moved::OutOfMemory => word == "M",
        }
    }

    /// Whether receives give what the words say, one each.
    fn hears(&mut self, link: u64, room: usize, words: &str) -> bool {
        for word in words.split(' ') {
            if !self.hears_word(link, room, word) {
                return false;
            }
        }
        true
    }

    /// Makes a call, and says whether its answer is the wanted one.
    fn is_so(&mut self, call: Call) -> bool {
        match call {
            Call::Dial(wanted) => self.dial("host", 80) == wanted,
            Call::Listen(wanted) => self.listen("host", 80) == wanted,
            Call::Accept(wanted) => self.accept() == wanted,
            Call::Wait(wanted) => self.wait() == wanted,
            Call::Look => {
                self.look();
                true
            }
            Call::Idle(wanted) => self.wire.idle() == wanted,
            Call::Links(wanted) => self.wire.links() == wanted,
            Call::Send(link, text, wanted) => self.send(link, text.as_bytes()) == wanted,
            Call::Receive(link, room, words) => self.hears(link, room, words),
            Call::Sent(link, text) => self.sent_on(link) == text.as_bytes(),
        }
    }

    /// Makes calls one after another up to the first one whose answer is not the wanted one, and gives its number.
    pub fn first_unlike(&mut self, calls: &[Call]) -> Option<usize> {
        for i in 0..calls.len() {
            if !self.is_so(calls[i]) {
                return Some(i);
            }
        }
        None
    }
}

/// A call on a wire, and what it has to answer.
#[derive(Clone, Copy)]
pub enum Call {
    /// The number of the link.
    Dial(Result<u64, Fault>),
    Listen(Result<(), Fault>),
    /// The number of the link, or nothing.
    Accept(Result<Option<u64>, Fault>),
    Wait(Result<Ready, Fault>),
    Look,
    Idle(u64),
    /// How many links were given.
    Links(usize),
    /// On a link, this text: how many bytes of it were sent.
    Send(u64, &'static str, Moved),
    /// On a link, receives with room for so many bytes, one for each word: the bytes, `.` for the end, `-` for a stall,
    /// and `F` for a fault.
    Receive(u64, usize, &'static str),
    /// The bytes that were sent on a link.
    Sent(usize, &'static str),
}

// A door for a wire that has none.

use tpf_base::{Accept, Dial, Fault, Moved, Ready, Wire};

/// A wire that is dialled, with a door (the listener) that is never opened: each try to open it is counted and answered
/// by want of memory.
#[derive(Drop)]
pub struct WithDoor<W: Dial + Drop> {
    pub wire: W,
    calls: u64,
}

impl<W: Dial + Drop> WithDoor<W> {
    /// The wire with a door that nobody tried to open.
    pub fn new(wire: W) -> WithDoor<W> {
        WithDoor { wire, calls: 0 }
    }
}

impl<W: Dial + Drop> Wire for WithDoor<W> {
    ghost use Rattle.run_case_answers.specs.Doors.{with_calls};

    ghost state = { λ w. with_calls w.calls (W.state w.wire) };

    ghost allows = { λ w. W.allows w.wire };

    ghost told = { λ w k. W.told w.wire k };

    ghost given_alone = { λ w. W.given_alone w.wire };

    ghost received_is_owed = { λ w k. W.received_is_owed w.wire k };

    ghost owed_is_allowed = { λ w k. W.owed_is_allowed w.wire k };

    ghost is_lively = { λ w. W.is_lively w.wire };

    fn send(&mut self, link: u64, piece: &[u8]) -> Moved {
        self.wire.send(link, piece)
    }

    fn recv(&mut self, link: u64, to: &mut [u8]) -> Moved {
        self.wire.recv(link, to)
    }

    fn close(&mut self, link: u64) {
        self.wire.close(link);
    }

    fn wait(&mut self) -> Result<Ready, Fault> {
        self.wire.wait()
    }

    fn look(&mut self) {
        self.wire.look();
    }

    fn idle(&self) -> u64 {
        self.wire.idle()
    }
}

impl<W: Dial + Drop> Dial for WithDoor<W> {
    fn dial(&mut self, host: &str, port: u16) -> Result<u64, Fault> {
        self.wire.dial(host, port)
    }
}

impl<W: Dial + Drop> Accept for WithDoor<W> {
    fn listen(&mut self, _host: &str, _port: u16) -> Result<(), Fault> {
        self.calls = self.calls.saturating_add(1);
        Err(Fault::OutOfMemory)
    }

    fn accept(&mut self) -> Result<Option<u64>, Fault> {
        Err(Fault::OutOfMemory)
    }
}

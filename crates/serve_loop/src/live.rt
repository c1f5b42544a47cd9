// What the loop keeps, and what it answers.
ghost use Rattle.std.specs.Prelude.{◌≡◌};
ghost use Rattle.serve_loop.specs.Parts.{is_in};

/// The most connections that are live at once.
pub const MOST_LIVE: usize = 256;

/// The most bytes that are received on a link in one turn.
pub const MOST_RECEIVED: usize = 2048;

/// The most bytes that are sent on a link in one turn. Where as many are pending, no further ones are
/// made in it.
pub const MOST_SENT: usize = 16384;

/// How far apart the numbers of the links of a row lie at most that a turn of a round steps, behind a turn that
/// moved or ended something. So a row has 16 links at most then.
pub const SPREAD: u64 = 15;

/// A part of the live connections, by the numbers of their links: those from `first` to `last`, and those from
/// `newest` on.
#[derive(Clone, Copy)]
pub struct Part {
    /// The number of the first link of a row of links.
    pub first: u64,
    /// The number of the last one.
    pub last: u64,
    /// The number of the first of the newest links.
    pub newest: u64,
}

impl Part {
    /// Whether the connection of a link is one of the part.
    pub fn has(self, link: u64) -> bool
        ensures { result ≡ is_in self link }
    {
        self.first <= link && link <= self.last || self.newest <= link
    }
}

/// A connection and the number of the link (the TCP connection) on which it lives.
#[derive(Drop)]
pub struct Live<C> {
    /// The number of the link.
    pub link: u64,
    /// The connection.
    pub connection: C,
}

/// What the step of one connection did.
#[derive(Clone, Copy)]
pub enum Stepped {
    /// Bytes moved.
    Moved,
    /// The link stalled.
    Still,
    /// The connection ended, in order or with its link.
    Ended,
    /// The connection ended out of memory.
    Starved,
}

/// What a turn did.
#[derive(Clone, Copy)]
pub struct Turned {
    /// Whether a byte moved on a link that stays, or a link was accepted.
    pub moved: bool,
    /// How many connections ended, each with its link closed.
    pub ended: u64,
    /// How many of them ended out of memory.
    pub starved: u64,
}

/// What a service did.
#[derive(Clone, Copy, Debug, PartialEq, Eq)]
pub struct Served {
    /// How many connections ended in its turns.
    pub connections: u64,
    /// How many of them ended out of memory.
    pub starved: u64,
}

/// Why a turn or a service gave up.
#[derive(Clone, Copy, Debug, PartialEq, Eq)]
pub enum ServeFault {
    /// An accept at the door (the listener) failed, or a wait did. The wire's count of faults rose.
    Wire,
    /// Out of memory in an accept, in a wait, or for the place of a new connection.
    OutOfMemory,
}

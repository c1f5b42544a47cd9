// What the system is asked to tell, and what it told.
ghost use Rattle.std.specs.Prelude.{◌≡◌, true, false, is_some, IfSome, IfNone};
ghost use Rattle.wire_real.specs.Accounts.{SameAccounts, Woken};
ghost use Rattle.wire_real.specs.Sockets.{accounts, door_at};

use crate::door::Door;
use crate::socket::Socket;
use mio::event::Event;
use mio::{Events, Poll, Registry, Token};
use std::alloc::Global;
use std::collections::{HashMap, VecDeque};
use std::io::ErrorKind;
use std::net::Net;
use std::time::Duration;
use tpf_base::Ready;

/// How many events are taken from the system at once.
const EVENTS: usize = 256;

/// The token of the door. The token of a link is its number, which is below it.
pub const DOOR: Token = Token(usize::MAX);

/// The links and the door that the system tells of, and those of which it told.
pub struct Watch {
    poll: Poll,
    events: Events,
    // The open links of which the system told since a wait answered them, each once.
    told: VecDeque<u64>,
}

// Written out, so that who drops one calls this, and does not take it apart at each exit.
impl Drop for Watch {
    fn drop(self) {
        let Watch {
            poll: _poll,
            events: _events,
            told: _told,
        } = self;
    }
}

/// Takes in what the system says of a link. Whether it is open, and no wait answered it since the system told
/// of it before.
fn tell_link<R: Net>(
    rt: &R,
    registry: &Registry,
    sockets: &mut HashMap<u64, Socket>,
    link: u64,
    event: &Event,
) -> bool
    ensures { SameAccounts (accounts sockets.old) (accounts sockets.new) }
{
    let Some(socket) = sockets.get_mut(&link) else {
        return false;
    };
    socket.tell(rt, registry, event.token(), event);
    socket.note()
}

/// Takes in what the system says of the door.
fn tell_door(door: &mut Option<Door>)
    ensures { door_at door.new ≡ door_at door.old }
{
    if let Some(door) = door {
        door.tell();
    }
}

/// Marks a link as answered by a wait, where it is open and ready.
fn wake_link(sockets: &mut HashMap<u64, Socket>, link: u64, given: u64) -> bool
    ensures woken { result ≡ true → Woken (Ready.Link link) given false (accounts sockets.old) (accounts sockets.new) }
    ensures still { result ≡ false → SameAccounts (accounts sockets.old) (accounts sockets.new) }
{
    if link >= given {
        return false;
    }
    match sockets.get_mut(&link) {
        Some(socket) => socket.wake(),
        None => false,
    }
}

/// Takes in that a wait answers the door, where one is open, was told, and a connection may wait there.
fn wake_door(door: &mut Option<Door>) -> bool
    ensures open { result ≡ true → is_some (door_at door.old) ≡ true }
    ensures door { door_at door.new ≡ door_at door.old }
{
    if let Some(door) = door {
        return door.wake();
    }
    false
}

/// Takes in what the system says of a link or the door. The link's number where it is to be kept as told.
fn tell<R: Net>(
    rt: &R,
    registry: &Registry,
    event: &Event,
    sockets: &mut HashMap<u64, Socket>,
    door: &mut Option<Door>,
) -> Option<u64>
    ensures same { SameAccounts (accounts sockets.old) (accounts sockets.new) }
    ensures door { door_at door.new ≡ door_at door.old }
{
    match event.token() {
        Token(usize::MAX) => {
            tell_door(door);
            None
        }
        Token(place) => {
            let link = place as u64;
            if tell_link(rt, registry, sockets, link, event) {
                Some(link)
            } else {
                None
            }
        }
    }
}

impl Watch {
    /// A watch over nothing.
    pub fn new<R: Net>(rt: &R, alloc: Global) -> Result<Watch, ErrorKind> {
        let Ok(events) = Events::with_capacity(alloc, EVENTS) else {
            return Err(ErrorKind::OutOfMemory);
        };
        let Ok(told) = VecDeque::with_capacity(alloc, EVENTS) else {
            return Err(ErrorKind::OutOfMemory);
        };
        match Poll::new(rt) {
            Ok(poll) => Ok(Watch { poll, events, told }),
            Err(error) => Err(error.kind()),
        }
    }

    /// Where a socket is named that the system is to watch.
    pub fn registry(&self) -> &Registry {
        self.poll.registry()
    }

    /// Forgets that the system told of a link.
    pub fn forget(&mut self, link: u64) {
        self.told.retain(|told| *told != link);
    }

    /// Wakes the door, or the first link that was told and is ready now. What was told and is not ready
    /// any more is passed over.
    pub fn next_ready(
        &mut self,
        sockets: &mut HashMap<u64, Socket>,
        door: &mut Option<Door>,
        given: u64,
    ) -> Option<Ready>
        ensures woken { IfSome result (λ ready. Woken ready given (is_some (door_at door.old)) (accounts sockets.old)
            (accounts sockets.new)) }
        ensures none { IfNone result (SameAccounts (accounts sockets.old) (accounts sockets.new)) }
        ensures door { door_at door.new ≡ door_at door.old }
    {
        if wake_door(door) {
            return Some(Ready::Door);
        }
        while let Some(link) = self.told.pop_front() {
            if wake_link(sockets, link, given) {
                return Some(Ready::Link(link));
            }
        }
        None
    }

    /// Waits for the system to tell of links or the door, at most so long, by one call of it, and takes in
    /// what it tells. Whether it told of any.
    pub fn ask<R: Net>(
        &mut self,
        rt: &R,
        limit: Option<Duration>,
        sockets: &mut HashMap<u64, Socket>,
        door: &mut Option<Door>,
    ) -> Result<bool, ErrorKind>
        ensures same { SameAccounts (accounts sockets.old) (accounts sockets.new) }
        ensures door { door_at door.new ≡ door_at door.old }
    {
        if let Err(error) = self.poll.poll(&mut self.events, limit) {
            return Err(error.kind());
        }
        let registry = self.poll.registry();
        let mut some = false;
        for event in self.events.iter() {
            some = true;
            if let Some(link) = tell(rt, registry, event, sockets, door) {
                if self.told.push_back(link).is_err() {
                    return Err(ErrorKind::OutOfMemory);
                }
            }
        }
        Ok(some)
    }
}

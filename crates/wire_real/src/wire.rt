// Links over sockets.
ghost use Rattle.std.specs.Prelude.{ℕ, ◌≡◌, ◌≢◌, ◌<◌, length, is_some, Some, None, IfSome, IfNone, IfOk, OnErr};
ghost use Rattle.tpf_base.specs.declared.wire.Moved.TheVariants as answers;
ghost use Rattle.wire_real.specs.declared.account.Direction.{Direction};
ghost use Rattle.wire_real.specs.Accounts.{no_account, no_counts, MovesWithin, SameAccounts, GivesNext, Moves, Woken};
ghost use Rattle.wire_real.specs.Sockets.{accounts, door_at};

use crate::account::Counts;
use crate::door::Door;
use crate::socket::{Socket, keep_alive, register};
use crate::watch::{DOOR, Watch};
use mio::Token;
use mio::net::TcpStream;
use std::collections::HashMap;
use std::io::ErrorKind;
use std::net::Net;
use std::time::{Clock, Duration};
use tpf_base::{Accept, Dial, Fault, Moved, Ready, Wire};

/// How many seconds a wait lasts at most while there is no door.
const PATIENCE: u64 = 30;

/// After how many seconds a wait answers a door at which files, buffers or memory were short.
const RETRY: u64 = 1;

/// Connections (links) over TCP sockets. It tells counts alone, is neither steady nor lively, and keeps
/// nothing of a closed link, whose count of stalls then stands at 2^64 - 1.
///
/// A host is named by an IP address, or by a name that the system resolves. `dial` returns before
/// the link is connected, though it waits for the system to resolve a name: one that does not resolve
/// makes `dial` fail, and a connection that is refused or reset makes the next send or receive on its link
/// fail. Where a name has several addresses the next one is tried before that. No other call but `wait`
/// waits.
///
/// `listen` takes the first address of the host that is this machine's, those of version 4 before all
/// others, and fails where that address is taken or may not be had.
///
/// `accept` passes over a connection that was lost before it was accepted. Where files, buffers or memory
/// are short it answers that none waits, and counts a stall: who waits goes on waiting, each later accept
/// tries again, and a wait answers the door after a second. A connection that can't be watched is dropped
/// alone. The system is asked to tell of peers that went without a word (`SO_KEEPALIVE`).
///
/// Each send goes out at once (`TCP_NODELAY`). What the system said of each link is kept: a send or
/// a receive on a link that is not ready answers `NotYet` without asking the system, `wait` and `look` ask
/// it once for all links, and `wait` answers those of which it told one after another.
///
/// `close` says to the other end that no more bytes come, and drops what it sent, at most `PIECES` times
/// `PIECE` (262144) bytes, so that it gets what was sent to it last.
///
/// While there is no door, which is the listener, `wait` fails after 30 seconds in which nothing became
/// ready, and at once where no link is open. With a door it lasts as long as it takes.
///
/// An error of the system that says out of memory is answered `OutOfMemory`, and every other one
/// `Failed`.
#[derive(Drop)]
pub struct NetWire<'a, R: Net + Clock + AllocGlobal> {
    rt: &'a R,
    watch: Option<Watch>,
    door: Option<Door>,
    // The open links by their numbers.
    sockets: HashMap<u64, Socket>,
    counts: Counts,
    // Whether a wait asked the system since the last look.
    is_fresh: bool,
}

/// Sends on a link, where it is open.
fn send_on(sockets: &mut HashMap<u64, Socket>, link: u64, piece: &[u8]) -> Moved
    requires { 0 < length piece.now }
    ensures moves { Moves Direction.Sending link result (accounts sockets.old) (accounts sockets.new) }
    ensures within { MovesWithin (length piece.now) result }
    ensures no_end { result ≢ answers.End }
{
    match sockets.get_mut(&link) {
        Some(socket) => socket.send(piece),
        None => Moved::Failed,
    }
}

/// Receives on a link, where it is open.
fn receive_on(sockets: &mut HashMap<u64, Socket>, link: u64, to: &mut [u8]) -> Moved
    requires { 0 < length to.old }
    ensures moves { Moves Direction.Receiving link result (accounts sockets.old) (accounts sockets.new) }
    ensures within { MovesWithin (length to.new) result }
{
    match sockets.get_mut(&link) {
        Some(socket) => socket.receive(to),
        None => Moved::Failed,
    }
}

/// The stream of the next connection at the door, if one waits.
fn next_stream(door: &mut Option<Door>) -> Result<Option<TcpStream>, ErrorKind>
    ensures { door_at door.new ≡ door_at door.old }
{
    match door {
        Some(door) => door.accept(),
        None => Err(ErrorKind::NotConnected),
    }
}

/// Takes in that a connection was dropped, since there was no file, buffer or memory to keep it.
fn fall_short(door: &mut Option<Door>)
    ensures { door_at door.new ≡ door_at door.old }
{
    if let Some(door) = door {
        door.fall_short();
    }
}

/// Whether the last accept found no file, buffer or memory.
fn is_short(door: &Option<Door>) -> bool {
    match door {
        Some(door) => door.is_short(),
        None => false,
    }
}

/// Has a wait answer the door, where the last accept found no file, buffer or memory.
fn try_again(door: &mut Option<Door>)
    ensures { door_at door.new ≡ door_at door.old }
{
    if let Some(door) = door {
        if door.is_short() {
            door.tell();
        }
    }
}

impl<'a, R: Net + Clock + AllocGlobal> NetWire<'a, R> {
    /// A wire that gave no link yet, and has no door. It asks nothing of the system, and takes no
    /// memory.
    pub fn new(rt: &'a R) -> NetWire<'a, R>
        ensures counts { result.counts ≡ no_counts }
        ensures door { door_at result.door ≡ None }
        ensures links { (k : ℕ) → accounts result.sockets k ≡ None }
    {
        NetWire {
            rt,
            watch: None,
            door: None,
            sockets: HashMap::new(rt.alloc()),
            counts: Counts::new(),
            is_fresh: false,
        }
    }

    /// Has the system watch links, from the first dial or listen on.
    fn open_watch(&mut self) -> Result<(), ErrorKind>
        ensures sockets { self.new.sockets ≡ self.old.sockets }
        ensures counts { self.new.counts ≡ self.old.counts }
        ensures door { self.new.door ≡ self.old.door }
    {
        if self.watch.is_none() {
            self.watch = Some(Watch::new(self.rt, self.rt.alloc())?);
        }
        Ok(())
    }

    /// Begins to connect the next link.
    fn begin(&mut self, host: &str, port: u16) -> Result<Socket, ErrorKind>
        ensures begun { IfOk result (λ socket. socket.account ≡ no_account) }
        ensures sockets { self.new.sockets ≡ self.old.sockets }
        ensures counts { self.new.counts ≡ self.old.counts }
        ensures door { self.new.door ≡ self.old.door }
    {
        self.open_watch()?;
        let Some(watch) = &self.watch else {
            return Err(ErrorKind::NotConnected);
        };
        let token = Token(self.counts.given as usize);
        Socket::begin(
            self.rt,
            self.rt.alloc(),
            watch.registry(),
            token,
            host,
            port,
        )
    }

    /// Accepts the next connection at the door, if one waits.
    fn accept_socket(&mut self) -> Result<Option<Socket>, ErrorKind>
        ensures given { IfOk result (λ accepted. IfSome accepted (λ socket. socket.account ≡ no_account)) }
        ensures sockets { self.new.sockets ≡ self.old.sockets }
        ensures counts { self.new.counts ≡ self.old.counts }
        ensures door { door_at self.new.door ≡ door_at self.old.door }
    {
        let Some(watch) = &self.watch else {
            return Err(ErrorKind::NotConnected);
        };
        let Some(mut stream) = next_stream(&mut self.door)? else {
            return Ok(None);
        };
        let token = Token(self.counts.given as usize);
        if register(watch.registry(), &mut stream, token).is_err() {
            fall_short(&mut self.door);
            return Ok(None);
        }
        keep_alive(&stream);
        Ok(Some(Socket::accepted(stream)))
    }

    /// Opens the door.
    fn open_door(&mut self, host: &str, port: u16) -> Result<Door, ErrorKind>
        ensures at { IfOk result (λ door. door_at (Some door) ≡ Some (host.now, port)) }
        ensures sockets { self.new.sockets ≡ self.old.sockets }
        ensures counts { self.new.counts ≡ self.old.counts }
        ensures door { self.new.door ≡ self.old.door }
    {
        self.open_watch()?;
        let Some(watch) = &self.watch else {
            return Err(ErrorKind::NotConnected);
        };
        Door::open(self.rt, self.rt.alloc(), watch.registry(), DOOR, host, port)
    }

    /// Gives a socket the next number.
    fn give(&mut self, socket: Socket) -> Result<u64, ErrorKind>
        requires { socket.account ≡ no_account }
        ensures given { IfOk result (GivesNext self.old.counts self.new.counts (accounts self.old.sockets)
            (accounts self.new.sockets)) }
        ensures none { OnErr result (SameAccounts (accounts self.old.sockets) (accounts self.new.sockets)) }
        ensures same { OnErr result (self.new.counts ≡ self.old.counts) }
        ensures door { self.new.door ≡ self.old.door }
    {
        let number = self.counts.given;
        let Some(given) = number.checked_add(1) else {
            return Err(ErrorKind::Other);
        };
        if self.sockets.insert(number, socket).is_err() {
            return Err(ErrorKind::OutOfMemory);
        }
        self.counts.given = given;
        self.counts.idle = 0;
        Ok(number)
    }

    /// Gives a link to the next connection at the door, if one waits. One for which there is no memory is
    /// dropped.
    fn accept_next(&mut self) -> Result<Option<u64>, ErrorKind>
        ensures given { IfOk result (λ accepted. IfSome accepted
            (GivesNext self.old.counts self.new.counts (accounts self.old.sockets) (accounts self.new.sockets))) }
        ensures none { IfOk result (λ accepted. IfNone accepted
            (SameAccounts (accounts self.old.sockets) (accounts self.new.sockets) ×
            (self.new.counts ≡ self.old.counts))) }
        ensures err { OnErr result (SameAccounts (accounts self.old.sockets) (accounts self.new.sockets) ×
            (self.new.counts ≡ self.old.counts)) }
        ensures door { door_at self.new.door ≡ door_at self.old.door }
    {
        let Some(socket) = self.accept_socket()? else {
            return Ok(None);
        };
        match self.give(socket) {
            Ok(number) => Ok(Some(number)),
            Err(ErrorKind::OutOfMemory) => {
                fall_short(&mut self.door);
                Ok(None)
            }
            Err(kind) => Err(kind),
        }
    }

    /// Gives a link that the system is connecting.
    fn dial_next(&mut self, host: &str, port: u16) -> Result<u64, ErrorKind>
        ensures given { IfOk result (GivesNext self.old.counts self.new.counts (accounts self.old.sockets)
            (accounts self.new.sockets)) }
        ensures err { OnErr result (SameAccounts (accounts self.old.sockets) (accounts self.new.sockets) ×
            (self.new.counts ≡ self.old.counts)) }
        ensures door { self.new.door ≡ self.old.door }
    {
        let socket = self.begin(host, port)?;
        self.give(socket)
    }

    /// When a wait began, where its time is limited: while there is no door.
    fn begin_wait(&self) -> Result<Duration, ErrorKind> {
        if self.door.is_some() {
            return Ok(Duration::ZERO);
        }
        match self.rt.monotonic() {
            Ok(now) => Ok(now),
            Err(error) => Err(error.kind()),
        }
    }

    /// How long the system may be waited for, where there is a limit.
    fn time_left(&self, began: Duration) -> Result<Option<Duration>, ErrorKind> {
        if is_short(&self.door) {
            return Ok(Some(Duration::from_secs(RETRY)));
        }
        if self.door.is_some() {
            return Ok(None);
        }
        if self.sockets.is_empty() {
            return Err(ErrorKind::NotConnected);
        }
        let passed = match self.rt.monotonic() {
            Ok(now) => now.saturating_sub(began),
            Err(error) => return Err(error.kind()),
        };
        match Duration::from_secs(PATIENCE).checked_sub(passed) {
            Some(left) if !left.is_zero() => Ok(Some(left)),
            _ => Err(ErrorKind::TimedOut),
        }
    }

    /// Has the system tell of links and the door, at most after so long, and takes in what it tells. Whether
    /// it told of any.
    fn ask(&mut self, limit: Option<Duration>) -> Result<bool, ErrorKind>
        ensures same { SameAccounts (accounts self.old.sockets) (accounts self.new.sockets) }
        ensures counts { self.new.counts ≡ self.old.counts }
        ensures door { door_at self.new.door ≡ door_at self.old.door }
    {
        match &mut self.watch {
            Some(watch) => watch.ask(self.rt, limit, &mut self.sockets, &mut self.door),
            None => Err(ErrorKind::NotConnected),
        }
    }

    /// Waits for the system to tell of links or the door. A door at which files, buffers or memory were
    /// short is tried again after a while.
    fn wait_once(&mut self, began: Duration) -> Result<(), ErrorKind>
        ensures same { SameAccounts (accounts self.old.sockets) (accounts self.new.sockets) }
        ensures counts { self.new.counts ≡ self.old.counts }
        ensures door { door_at self.new.door ≡ door_at self.old.door }
    {
        let limit = self.time_left(began)?;
        self.is_fresh = true;
        if !self.ask(limit)? {
            try_again(&mut self.door);
        }
        Ok(())
    }

    /// Wakes the first link that was told and is ready, or the door.
    fn next_ready(&mut self) -> Option<Ready>
        ensures woken { IfSome result (λ ready. Woken ready self.old.counts.given (is_some (door_at self.old.door))
            (accounts self.old.sockets) (accounts self.new.sockets)) }
        ensures none { IfNone result (SameAccounts (accounts self.old.sockets) (accounts self.new.sockets)) }
        ensures counts { self.new.counts ≡ self.old.counts }
        ensures door { door_at self.new.door ≡ door_at self.old.door }
    {
        match &mut self.watch {
            Some(watch) => {
                watch.next_ready(&mut self.sockets, &mut self.door, self.counts.given)
            }
            None => None,
        }
    }

    /// Waits until a link or the door is ready.
    fn wait_ready(&mut self) -> Result<Ready, ErrorKind>
        ensures woken { IfOk result (λ ready. Woken ready self.old.counts.given (is_some (door_at self.old.door))
            (accounts self.old.sockets) (accounts self.new.sockets)) }
        ensures none { OnErr result (SameAccounts (accounts self.old.sockets) (accounts self.new.sockets)) }
        ensures counts { self.new.counts ≡ self.old.counts }
        ensures door { door_at self.new.door ≡ door_at self.old.door }
    {
        let began = self.begin_wait()?;
        'asks: for _ in 0..u64::MAX {
            if let Some(ready) = self.next_ready() {
                return Ok(ready);
            }
            self.wait_once(began)?;
        }
        Err(ErrorKind::TimedOut)
    }

    /// Forgets that the system told of a link.
    fn forget(&mut self, link: u64)
        ensures sockets { self.new.sockets ≡ self.old.sockets }
        ensures counts { self.new.counts ≡ self.old.counts }
        ensures door { self.new.door ≡ self.old.door }
    {
        if let Some(watch) = &mut self.watch {
            watch.forget(link);
        }
    }
}

impl<'a, R: Net + Clock + AllocGlobal> Wire for NetWire<'a, R> {
    ghost use Rattle.wire_real.specs.Accounts.{wire_of};
    ghost use Rattle.wire_real.specs.Sockets.{accounts, door_at};
    ghost use Rattle.wire_real.specs.Laws.{counts_told, gives_first, receives_none, owes_none, never_lively};

    ghost state = { λ w. wire_of w.counts (door_at w.door) (accounts w.sockets) };

    ghost allows = { λ w host port sent owed. ⊥ };

    ghost told = { λ w. counts_told w.counts.given (accounts w.sockets) };

    ghost given_alone = { λ w. gives_first w.counts.given (accounts w.sockets) };

    ghost received_is_owed = { λ w. receives_none w.counts.given (accounts w.sockets) };

    ghost owed_is_allowed = { λ w. owes_none w.counts.given (accounts w.sockets) };

    ghost is_lively = { λ w. never_lively w.counts.idle };

    fn send(&mut self, link: u64, piece: &[u8]) -> Moved {
        let answer = send_on(&mut self.sockets, link, piece);
        self.counts = self.counts.after(answer);
        answer
    }

    fn recv(&mut self, link: u64, to: &mut [u8]) -> Moved {
        let answer = receive_on(&mut self.sockets, link, to);
        self.counts = self.counts.after(answer);
        answer
    }

    fn close(&mut self, link: u64) {
        if let Some(socket) = self.sockets.remove(&link) {
            if socket.is_told() {
                self.forget(link);
            }
            socket.finish();
        }
    }

    fn wait(&mut self) -> Result<Ready, Fault> {
        self.counts.waits = self.counts.waits.saturating_add(1);
        match self.wait_ready() {
            Ok(ready) => {
                self.counts.idle = self.counts.idle.saturating_add(1);
                Ok(ready)
            }
            Err(kind) => Err(self.counts.fail_at_door(kind)),
        }
    }

    /// Where a wait asked the system since the last look, what it told then is all that is taken in.
    fn look(&mut self) {
        if self.is_fresh {
            self.is_fresh = false;
        } else {
            let _ = self.ask(Some(Duration::ZERO));
        }
    }

    fn idle(&self) -> u64 {
        self.counts.idle
    }
}

impl<'a, R: Net + Clock + AllocGlobal> Dial for NetWire<'a, R> {
    fn dial(&mut self, host: &str, port: u16) -> Result<u64, Fault> {
        self.counts.dials = self.counts.dials.saturating_add(1);
        match self.dial_next(host, port) {
            Ok(number) => Ok(number),
            Err(kind) => Err(self.counts.fail(kind)),
        }
    }
}

impl<'a, R: Net + Clock + AllocGlobal> Accept for NetWire<'a, R> {
    fn listen(&mut self, host: &str, port: u16) -> Result<(), Fault> {
        self.counts.listens = self.counts.listens.saturating_add(1);
        match self.open_door(host, port) {
            Ok(door) => {
                if self.door.is_none() {
                    self.counts.door_stalls = 0;
                }
                self.door = Some(door);
                Ok(())
            }
            Err(kind) => Err(self.counts.fail_at_door(kind)),
        }
    }

    fn accept(&mut self) -> Result<Option<u64>, Fault> {
        match self.accept_next() {
            Ok(Some(number)) => Ok(Some(number)),
            Ok(None) => {
                self.counts.door_stalls = self.counts.door_stalls.saturating_add(1);
                Ok(None)
            }
            Err(kind) => Err(self.counts.fail_at_door(kind)),
        }
    }
}

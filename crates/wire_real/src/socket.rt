// An open link: a socket, and what the system said of it.
ghost use Rattle.std.specs.Prelude.{◌≡◌, ◌≢◌, ◌<◌, ◌≤◌, length, IfOk, true, false};
ghost use Rattle.tpf_base.specs.declared.wire.Moved.TheVariants as answers;
ghost use Rattle.wire_real.specs.Accounts.{account_after, no_account, MovesWithin};

use crate::account::{Account, Direction};
use crate::addresses::addresses_of;
use crate::reading::read_some;
use libc::net::{SO_KEEPALIVE, SOL_SOCKET, setsockopt};
use mio::event::Event;
use mio::net::TcpStream;
use mio::{Interest, Registry, Token};
use std::alloc::Global;
use std::io;
use std::io::{ErrorKind, Write};
use std::net::{Net, Shutdown, SocketAddr};
use std::os::fd::AsRawFd;
use tpf_base::Moved;

/// How many bytes are read and dropped at a time before a socket is closed.
const PIECE: usize = 8192;

/// How often at most.
const PIECES: u32 = 32;

/// What the system said of one direction of a socket.
#[derive(Clone, Copy)]
struct Readiness {
    /// A call may move bytes. Where this does not hold a call would stall, until an event says more.
    may_move: bool,
    /// The other end has closed this direction, so that no call stalls any more.
    is_over: bool,
    /// The last call in this direction stalled.
    is_awaited: bool,
}

impl Readiness {
    fn new(may_move: bool) -> Readiness {
        Readiness {
            may_move,
            is_over: false,
            is_awaited: false,
        }
    }

    /// A call moved bytes. Where it moved fewer than it could have, the next one would stall.
    fn after_move(&mut self, all: bool) {
        self.is_awaited = false;
        self.may_move = all || self.is_over;
    }

    /// A call stalled: the next one waits for an event.
    fn after_stall(&mut self) {
        self.is_awaited = true;
        self.may_move = false;
    }

    /// An event said so.
    fn after_event(&mut self, may_move: bool, is_over: bool) {
        self.may_move = self.may_move || may_move || is_over;
        self.is_over = self.is_over || is_over;
    }
}

/// How far a socket is connected.
#[derive(Drop)]
enum Connection {
    /// The system is connecting it. These addresses of the host are tried next, the last one first.
    Trying(Vec<SocketAddr>),
    Standing,
    /// No address of the host could be connected.
    Refused,
}

/// An open link.
pub struct Socket {
    stream: TcpStream,
    connection: Connection,
    sending: Readiness,
    receiving: Readiness,
    // Whether an end was received, so that nothing more comes.
    is_over: bool,
    // Whether the system told of it since a wait answered it.
    is_told: bool,
    pub account: Account,
}

// Written out, so that who drops one calls this, and does not take it apart at each exit.
impl Drop for Socket {
    fn drop(self) {
        let Socket {
            stream: _stream,
            connection: _connection,
            sending: _sending,
            receiving: _receiving,
            is_over: _is_over,
            is_told: _is_told,
            account: _account,
        } = self;
    }
}

/// What a call answers that failed so.
fn answer_to(kind: ErrorKind) -> Moved
    ensures { MovesWithin 0 result × (result ≢ answers.End) }
{
    match kind {
        ErrorKind::WouldBlock => Moved::NotYet,
        ErrorKind::OutOfMemory => Moved::OutOfMemory,
        _ => Moved::Failed,
    }
}

/// Writes to a stream. A write that a signal interrupted is tried again.
fn write_some(stream: &TcpStream, piece: &[u8]) -> io::Result<usize>
    ensures { IfOk result (λ n. n ≤ length piece.now) }
{
    let mut to = stream;
    'tries: for _ in 0..u64::MAX {
        match to.write(piece) {
            Err(error) if error.kind() == ErrorKind::Interrupted => {}
            answer => return answer,
        }
    }
    Err(io::Error::from(ErrorKind::Interrupted))
}

/// Has the system tell of a stream under a token, and send its bytes at once.
pub fn register(registry: &Registry, stream: &mut TcpStream, token: Token) -> io::Result<()> {
    registry.register(stream, token, Interest::READABLE | Interest::WRITABLE)?;
    // Without it the bytes arrive later, and no less surely.
    let _ = stream.set_nodelay(true);
    Ok(())
}

/// Has the system ask a peer that is silent for long whether it is still there (`SO_KEEPALIVE`), so that
/// the link of one that went without a word fails at last. When, its settings say: on Linux after two
/// hours.
pub fn keep_alive(stream: &TcpStream) {
    let mut on = [0u8; 16];
    on[..4].copy_from_slice(&1i32.to_ne_bytes());
    // Without it the link is held until it is closed here.
    let _ = unsafe { setsockopt(stream.as_raw_fd(), SOL_SOCKET, SO_KEEPALIVE, &on, 4) };
}

fn connect<R: Net>(
    rt: &R,
    registry: &Registry,
    token: Token,
    address: SocketAddr,
) -> io::Result<TcpStream> {
    let mut stream = TcpStream::connect(rt, address)?;
    register(registry, &mut stream, token)?;
    Ok(stream)
}

/// Begins to connect to the last of the addresses to which the system lets it, and takes that one
/// and those behind it off the list.
fn connect_last<R: Net>(
    rt: &R,
    registry: &Registry,
    token: Token,
    addresses: &mut Vec<SocketAddr>,
) -> Result<TcpStream, ErrorKind> {
    let mut kind = ErrorKind::NotFound;
    while let Some(address) = addresses.pop() {
        match connect(rt, registry, token, address) {
            Ok(stream) => return Ok(stream),
            Err(error) => kind = error.kind(),
        }
    }
    Err(kind)
}

impl Connection {
    /// Whether the connection of a stream stands, where that is known by now. One that failed is
    /// begun anew at the next address.
    fn settle<R: Net>(
        &mut self,
        rt: &R,
        registry: &Registry,
        token: Token,
        stream: &mut TcpStream,
    ) {
        let Connection::Trying(others) = self else {
            return;
        };
        match stream.take_error() {
            Ok(None) => {
                if stream.peer_addr().is_ok() {
                    *self = Connection::Standing;
                }
            }
            _ => match connect_last(rt, registry, token, others) {
                Ok(next) => *stream = next,
                Err(_) => *self = Connection::Refused,
            },
        }
    }
}

impl Socket {
    /// Has the system begin to connect a socket to a host at a port.
    pub fn begin<R: Net>(
        rt: &R,
        alloc: Global,
        registry: &Registry,
        token: Token,
        host: &str,
        port: u16,
    ) -> Result<Socket, ErrorKind>
        ensures { IfOk result (λ socket. socket.account ≡ no_account) }
    {
        let mut addresses = addresses_of(rt, alloc, host, port)?;
        addresses.reverse();
        let stream = connect_last(rt, registry, token, &mut addresses)?;
        Ok(Socket::dialled(stream, addresses))
    }

    /// A socket that the system is connecting. The addresses are tried where that fails, the last
    /// one first.
    fn dialled(stream: TcpStream, others: Vec<SocketAddr>) -> Socket
        ensures { result.account ≡ no_account }
    {
        Socket {
            stream,
            connection: Connection::Trying(others),
            sending: Readiness::new(false),
            receiving: Readiness::new(false),
            is_over: false,
            is_told: false,
            account: Account::new(),
        }
    }

    /// A socket that is connected.
    pub fn accepted(stream: TcpStream) -> Socket
        ensures { result.account ≡ no_account }
    {
        Socket {
            stream,
            connection: Connection::Standing,
            sending: Readiness::new(true),
            receiving: Readiness::new(true),
            is_over: false,
            is_told: false,
            account: Account::new(),
        }
    }

    /// Sends a part of the piece's front.
    pub fn send(&mut self, piece: &[u8]) -> Moved
        requires { 0 < length piece.now }
        ensures account { self.new.account ≡ account_after Direction.Sending result self.old.account }
        ensures later { self.old.account.stalls ≤ self.new.account.stalls }
        ensures within { MovesWithin (length piece.now) result }
        ensures no_end { result ≢ answers.End }
    {
        let answer = self.try_send(piece);
        self.account = self.account.after(Direction::Sending, answer);
        answer
    }

    fn try_send(&mut self, piece: &[u8]) -> Moved
        requires { 0 < length piece.now }
        ensures account { self.new.account ≡ self.old.account }
        ensures within { MovesWithin (length piece.now) result }
        ensures no_end { result ≢ answers.End }
    {
        if self.is_refused() {
            return Moved::Failed;
        }
        if !self.sending.may_move {
            self.sending.after_stall();
            return Moved::NotYet;
        }
        match write_some(&self.stream, piece) {
            Ok(0) => Moved::Failed,
            Ok(n) => {
                self.sending.after_move(n == piece.len());
                Moved::Moved(n)
            }
            Err(error) => {
                let kind = error.kind();
                if kind == ErrorKind::WouldBlock {
                    self.sending.after_stall();
                }
                answer_to(kind)
            }
        }
    }

    /// Receives the next bytes into the buffer's front.
    pub fn receive(&mut self, to: &mut [u8]) -> Moved
        requires { 0 < length to.old }
        ensures account { self.new.account ≡ account_after Direction.Receiving result self.old.account }
        ensures later { self.old.account.stalls ≤ self.new.account.stalls }
        ensures within { MovesWithin (length to.old) result }
        ensures length { length to.new ≡ length to.old }
    {
        let answer = self.try_receive(to);
        self.account = self.account.after(Direction::Receiving, answer);
        answer
    }

    fn try_receive(&mut self, to: &mut [u8]) -> Moved
        requires { 0 < length to.old }
        ensures account { self.new.account ≡ self.old.account }
        ensures within { MovesWithin (length to.old) result }
        ensures length { length to.new ≡ length to.old }
    {
        if self.is_refused() {
            return Moved::Failed;
        }
        if !self.receiving.may_move {
            self.receiving.after_stall();
            return Moved::NotYet;
        }
        let room = to.len();
        let mut stream = &self.stream;
        match read_some(&mut stream, to) {
            Ok(0) => {
                self.is_over = true;
                Moved::End
            }
            Ok(n) => {
                self.receiving.after_move(n == room);
                Moved::Moved(n)
            }
            Err(error) => {
                let kind = error.kind();
                if kind == ErrorKind::WouldBlock {
                    self.receiving.after_stall();
                }
                answer_to(kind)
            }
        }
    }

    /// Says to the other end that no more bytes come, and drops what it has sent, at most `PIECES` times
    /// `PIECE` bytes, without waiting for more. The system resets a connection that is closed over bytes that nobody
    /// read, and the other end may then lose what was sent to it last.
    pub fn finish(self) {
        if self.is_over || self.stream.shutdown(Shutdown::Write).is_err() {
            return;
        }
        let mut dropped = [0u8; PIECE];
        for _ in 0..PIECES {
            let mut stream = &self.stream;
            match read_some(&mut stream, &mut dropped) {
                Ok(PIECE) => {}
                _ => return,
            }
        }
    }

    /// Takes in what the system says of the socket.
    pub fn tell<R: Net>(&mut self, rt: &R, registry: &Registry, token: Token, event: &Event)
        ensures { self.new.account ≡ self.old.account }
    {
        self.connection
            .settle(rt, registry, token, &mut self.stream);
        match &self.connection {
            Connection::Trying(_) => {}
            Connection::Refused => {
                self.receiving.after_event(true, true);
                self.sending.after_event(true, true);
            }
            Connection::Standing => {
                let failed = event.is_error();
                self.receiving
                    .after_event(event.is_readable(), failed || event.is_read_closed());
                self.sending
                    .after_event(event.is_writable(), failed || event.is_write_closed());
            }
        }
    }

    /// Takes in that the system told of it. Whether a wait answered it since it did so before.
    pub fn note(&mut self) -> bool
        ensures { self.new.account ≡ self.old.account }
    {
        let is_first = !self.is_told;
        self.is_told = true;
        is_first
    }

    /// Whether the system told of it since a wait answered it.
    pub fn is_told(&self) -> bool {
        self.is_told
    }

    /// Marks the link as answered by a wait, where it is ready.
    pub fn wake(&mut self) -> bool
        ensures woken { result ≡ true → self.new.account ≡ record self.old.account { woken = true } }
        ensures still { result ≡ false → self.new.account ≡ self.old.account }
    {
        let ready = self.is_ready();
        self.is_told = false;
        if ready {
            self.account.woken = true;
        }
        ready
    }

    fn is_refused(&self) -> bool {
        matches!(&self.connection, Connection::Refused)
    }

    /// Whether a call that stalled may move now, or bytes may move on a link on which no call
    /// stalled.
    fn is_ready(&self) -> bool {
        let sends = self.sending;
        let receives = self.receiving;
        if !sends.is_awaited && !receives.is_awaited {
            return sends.may_move || receives.may_move;
        }
        sends.is_awaited && sends.may_move || receives.is_awaited && receives.may_move
    }
}

// The door: the listener.
ghost use Rattle.std.specs.Prelude.{◌≡◌, Some, IfOk};
ghost use Rattle.wire_real.specs.Sockets.{door_at};

use crate::addresses::addresses_of;
use mio::net::{TcpListener, TcpStream};
use mio::{Interest, Registry, Token};
use std::alloc::Global;
use std::io;
use std::io::ErrorKind;
use std::net::{Net, SocketAddr};
use tpf_base::Text;

/// The listener, and what the system said of it.
pub struct Door {
    listener: TcpListener,
    // What it was asked to listen at.
    host: Text,
    port: u16,
    // Whether a connection may wait there. Where this does not hold none does, until an event says
    // more.
    may_come: bool,
    // Whether the system told of it since a wait answered it.
    is_told: bool,
    // Whether the last accept found no file, buffer or memory for a connection.
    is_short: bool,
}

// Written out, so that who drops one calls this, and does not take it apart at each exit.
impl Drop for Door {
    fn drop(self) {
        let Door {
            listener: _listener,
            host: _host,
            port: _port,
            may_come: _may_come,
            is_told: _is_told,
            is_short: _is_short,
        } = self;
    }
}

/// How many connections an accept passes over at most that were lost before it.
const LOST: u32 = 256;

// Errors of Linux for which there is no kind.
const ENFILE: i32 = 23;

const EMFILE: i32 = 24;

const ENONET: i32 = 64;

const EPROTO: i32 = 71;

const ENOPROTOOPT: i32 = 92;

const EAFNOSUPPORT: i32 = 97;

const ENOBUFS: i32 = 105;

const EHOSTDOWN: i32 = 112;

/// Why an accept gave no connection.
#[derive(Clone, Copy)]
enum Refusal {
    /// None waits.
    NoneWaits,
    /// One was lost before it was accepted. The next one may be there.
    OneWasLost,
    /// Files, buffers or memory are short. Whoever waits goes on waiting.
    Short,
    /// The listener failed.
    Failed,
}

/// What an accept says that failed so. Accept passes on errors of the network that are of the new
/// connection alone (Linux's accept(2), "Error handling").
fn refusal_of(error: io::Error) -> Refusal {
    match error.raw_os_error() {
        Some(EMFILE | ENFILE | ENOBUFS) => Refusal::Short,
        Some(ENONET | EPROTO | ENOPROTOOPT | EHOSTDOWN) => Refusal::OneWasLost,
        _ => match error.kind() {
            ErrorKind::WouldBlock => Refusal::NoneWaits,
            ErrorKind::OutOfMemory => Refusal::Short,
            ErrorKind::ConnectionAborted
            | ErrorKind::ConnectionReset
            | ErrorKind::Interrupted
            | ErrorKind::HostUnreachable
            | ErrorKind::NetworkUnreachable
            | ErrorKind::NetworkDown
            | ErrorKind::PermissionDenied
            | ErrorKind::TimedOut
            | ErrorKind::Unsupported => Refusal::OneWasLost,
            _ => Refusal::Failed,
        },
    }
}

/// Whether an address at which the system would not listen so is none of this machine's.
fn is_elsewhere(error: io::Error) -> bool {
    error.kind() == ErrorKind::AddrNotAvailable || error.raw_os_error() == Some(EAFNOSUPPORT)
}

fn bind<R: Net>(
    rt: &R,
    registry: &Registry,
    token: Token,
    address: SocketAddr,
) -> io::Result<TcpListener> {
    let mut listener = TcpListener::bind(rt, address)?;
    registry.register(&mut listener, token, Interest::READABLE)?;
    Ok(listener)
}

/// Listens at the first of the addresses of one kind that is this machine's, if there is one.
fn bind_first<R: Net>(
    rt: &R,
    registry: &Registry,
    token: Token,
    addresses: &[SocketAddr],
    is_v4: bool,
) -> io::Result<Option<TcpListener>> {
    for address in addresses {
        if address.is_ipv4() == is_v4 {
            match bind(rt, registry, token, *address) {
                Ok(listener) => return Ok(Some(listener)),
                Err(error) if is_elsewhere(error) => {}
                Err(error) => return Err(error),
            }
        }
    }
    Ok(None)
}

/// Listens at the first address that is this machine's, those of version 4 before all others.
fn bind_any<R: Net>(
    rt: &R,
    registry: &Registry,
    token: Token,
    addresses: &[SocketAddr],
) -> io::Result<TcpListener> {
    if let Some(listener) = bind_first(rt, registry, token, addresses, true)? {
        return Ok(listener);
    }
    match bind_first(rt, registry, token, addresses, false)? {
        Some(listener) => Ok(listener),
        None => Err(io::Error::from(ErrorKind::AddrNotAvailable)),
    }
}

impl Door {
    /// Listens at a host and a port: at the first of its addresses that is this machine's, those of
    /// version 4 before all others, since every client tries those. Where that address is taken or may
    /// not be had it fails, whatever other addresses the host has: clients would come to another program.
    pub fn open<R: Net>(
        rt: &R,
        alloc: Global,
        registry: &Registry,
        token: Token,
        host: &str,
        port: u16,
    ) -> Result<Door, ErrorKind>
        ensures { IfOk result (λ door. door_at (Some door) ≡ Some (host.now, port)) }
    {
        let Ok(asked) = Text::copy(alloc, host) else {
            return Err(ErrorKind::OutOfMemory);
        };
        let addresses = addresses_of(rt, alloc, host, port)?;
        match bind_any(rt, registry, token, &addresses) {
            Ok(listener) => Ok(Door {
                listener,
                host: asked,
                port,
                may_come: false,
                is_told: false,
                is_short: false,
            }),
            Err(error) => Err(error.kind()),
        }
    }

    /// Takes in that the system says that a connection waits there.
    pub fn tell(&mut self)
        ensures { door_at (Some self.new) ≡ door_at (Some self.old) }
    {
        self.may_come = true;
        self.is_told = true;
    }

    /// Whether the last accept found no file, buffer or memory, so that a connection may wait of which no
    /// event will tell.
    pub fn is_short(&self) -> bool {
        self.is_short
    }

    /// Takes in that a connection was dropped, since there was no file, buffer or memory to keep it.
    pub fn fall_short(&mut self)
        ensures { door_at (Some self.new) ≡ door_at (Some self.old) }
    {
        self.is_short = true;
    }

    /// Takes in that a wait answers the door, where it was told and a connection may wait there.
    pub fn wake(&mut self) -> bool
        ensures { door_at (Some self.new) ≡ door_at (Some self.old) }
    {
        let is_told = self.is_told && self.may_come;
        self.is_told = false;
        is_told
    }

    /// The stream of the next connection, if one waits and there are files, buffers and memory for it.
    /// One that was lost before it was accepted is passed over.
    pub fn accept(&mut self) -> Result<Option<TcpStream>, ErrorKind>
        ensures { door_at (Some self.new) ≡ door_at (Some self.old) }
    {
        self.is_short = false;
        if !self.may_come {
            return Ok(None);
        }
        for _ in 0..LOST {
            match self.listener.accept() {
                Ok((stream, _)) => return Ok(Some(stream)),
                Err(error) => match refusal_of(error) {
                    Refusal::OneWasLost => {}
                    Refusal::NoneWaits => {
                        self.may_come = false;
                        return Ok(None);
                    }
                    Refusal::Short => break,
                    Refusal::Failed => return Err(error.kind()),
                },
            }
        }
        self.is_short = true;
        Ok(None)
    }
}

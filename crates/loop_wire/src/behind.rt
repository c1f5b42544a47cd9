// What stands behind a wire.
ghost use Rattle.std.specs.Prelude.{ℕ, ◌≡◌, Bool, true, List, Option, Some, None, MatchOption, is_some};
ghost use Rattle.loop_wire.specs.Standing.{first_at};

use crate::{RespondsAt, StandsAt};
use std::marker::Model;

/// What stands behind a wire whose links run connections of this kind: which server answers a link, by
/// the host and the port for which it was dialled.
pub trait Behind<C: RespondsAt> {
    /// The servers.
    type Servers;

    /// The server that answers a link to a host and port; none for a link that was not dialled.
    ghost server_of: { Self.Servers → Option (List ℕ × ℕ) → Option C.Server };

    /// Whether some server stands at every host and port.
    ghost everywhere: { Bool };

    /// The server that stands at this host and port.
    fn server_at<'a>(servers: &'a Self::Servers, host: &str, port: u16) -> Option<&'a C::Server>
        ensures { MatchOption result (server_of servers.now (Some (host.now, port)) ≡ None)
            (λ server. server_of servers.now (Some (host.now, port)) ≡ Some server.now) };

    /// Where one stands at every host and port, each has one.
    ghost stands_everywhere: { everywhere ≡ true → (servers : Self.Servers) (host : List ℕ) (port : ℕ)
        → is_some (server_of servers (Some (host, port))) ≡ true };
}

/// One server stands behind the wire, at every host and port.
pub struct One;

impl<C: RespondsAt> Behind<C> for One {
    ghost use Rattle.std.proofs.Common.{refl};

    type Servers = C::Server;

    ghost server_of = { λ server peer. Some server };

    ghost everywhere = { true };

    fn server_at<'a>(server: &'a C::Server, _host: &str, _port: u16) -> Option<&'a C::Server> {
        Some(server)
    }

    ghost stands_everywhere = { λ all server host port. refl };
}

/// Several servers stand behind the wire, each at hosts and ports of its own: the first that stands at
/// the host and the port for which a link was dialled answers it.
pub struct Several;

/// Servers, which contracts see as a list.
#[derive(Drop)]
pub struct Servers<S> {
    servers: Vec<S>,
}

impl<S> Model for Servers<S> {
    ghost Value = { List S };

    ghost view = { λ s. s.servers.items };
}

impl<S> Servers<S> {
    /// These servers, in this order. It takes no memory.
    pub fn new(servers: Vec<S>) -> Servers<S>
        ensures { result ≡ servers.items }
    {
        Servers { servers }
    }

    fn as_slice(&self) -> &[S]
        ensures { result.now ≡ self.now }
    {
        self.servers.as_slice()
    }
}

/// The first of these servers that stands at this host and port.
fn first_at<'a, C: StandsAt>(
    servers: &'a [C::Server],
    host: &str,
    port: u16,
) -> Option<&'a C::Server>
    ensures { MatchOption result (first_at C.stands servers.now host.now port ≡ None)
        (λ server. first_at C.stands servers.now host.now port ≡ Some server.now) }
{
    for server in servers {
        if C::stands_at(server, host, port) {
            return Some(server);
        }
    }
    None
}

impl<C: StandsAt> Behind<C> for Several {
    ghost use Rattle.std.specs.Prelude.{false};
    ghost use Rattle.loop_wire.specs.Standing.{first_there};
    ghost use Rattle.loop_wire.specs.Laws.{nowhere};

    type Servers = Servers<C::Server>;

    ghost server_of = { first_there C.stands };

    ghost everywhere = { false };

    fn server_at<'a>(
        servers: &'a Servers<C::Server>,
        host: &str,
        port: u16,
    ) -> Option<&'a C::Server> {
        first_at::<C>(servers.as_slice(), host, port)
    }

    ghost stands_everywhere = { λ all servers host port. nowhere all };
}

/// Whether a server stands at this host and port.
pub(crate) fn is_there<C: RespondsAt, B: Behind<C>>(
    servers: &B::Servers,
    host: &str,
    port: u16,
) -> bool
    ensures { result ≡ is_some (B.server_of servers.now (Some (host.now, port))) }
{
    B::server_at(servers, host, port).is_some()
}

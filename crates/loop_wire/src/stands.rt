// Where a server stands.
ghost use Rattle.std.specs.Prelude.{ℕ, ◌≡◌, Bool, List};

use crate::RespondsAt;

/// A connection whose server stands at hosts and ports of its own, so that several may stand behind
/// one wire.
pub trait StandsAt: RespondsAt {
    /// Whether a server stands at a host and a port.
    ghost stands: { Self.Server → List ℕ → ℕ → Bool };

    /// Whether this server stands at this host and port.
    fn stands_at(server: &Self::Server, host: &str, port: u16) -> bool
        ensures { result ≡ stands server.now host.now port };
}

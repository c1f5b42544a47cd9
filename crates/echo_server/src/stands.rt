// Where an echo server stands.
use crate::{Echo, EchoServer};
use loop_wire::StandsAt;

impl StandsAt for Echo {
    ghost use Rattle.std.specs.Prelude.{◌==◌};

    // At every host, at the port with its number.
    ghost stands = { λ server host port. server.number == port };

    fn stands_at(server: &EchoServer, _host: &str, port: u16) -> bool {
        server.number() == port as u64
    }
}

// Where a server of fragments stands.
use crate::{FragmentConnection, FragmentServer};
use loop_wire::StandsAt;

impl StandsAt for FragmentConnection {
    ghost use Rattle.fragment_server.specs.Standing.{stands_there};

    ghost stands = { stands_there };

    fn stands_at(server: &FragmentServer, host: &str, port: u16) -> bool {
        let base = server.server().config().base();
        base.host() == host && base.port() == port
    }
}

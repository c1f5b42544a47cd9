// Wires in one process to several servers answer as their servers do.
ghost use Rattle.fragment_server.specs.Standing.{WiresToServersAreHonest};

/// Over a wire in one process to several servers, whose bases have different hosts or ports, each server
/// answers at the host and the port of its base, over each history of as many data sets as the number of
/// the version that it serves, of which the last is the one that is served; however often the wire was
/// called. The call does nothing; it tells a proof of it.
pub fn wires_to_servers_are_honest()
    ensures { WiresToServersAreHonest }
{}

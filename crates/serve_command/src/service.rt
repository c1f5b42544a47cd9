// The service of a file over a wire.
ghost use Rattle.std.specs.Prelude.{◌≡◌, true, false, is_some, IfOk, IfErr};
ghost use Rattle.tpf_base.specs.Addresses.{authority_of};
ghost use Rattle.tpf_base.specs.Causes.{Rose};
ghost use Rattle.tpf_base.specs.Links.{listens};
ghost use Rattle.template_fill.specs.Configurations.{IsConfig};
ghost use Rattle.data_files.specs.Data.{IsOfFile};
ghost use Rattle.data_files.specs.Kept.{KeepsShelf, AsksOnly, KeepsSink};
ghost use Rattle.data_servers.specs.Servers.{serving};
ghost use Rattle.data_servers.specs.Supplies.{FailedReading};
ghost use Rattle.serve_command.specs.Services.{config_of, door_of, MayFollow, FailedReload, ServesLinks, ServesServer, ServesFile, IsOfData, answer_of};

use crate::ServiceFault;
use crate::config::config_of;
use crate::door::begin;
use connections::{NoSupply, Supply};
use data_servers::{FileSupply, server_of_file};
use fragment_server::{FragmentConnection, FragmentServer};
use serve_loop::{ServeFault, Served, serve as serve_connections};
use std::alloc::Global;
use std::sync::Wait;
use template_fill::WebAddress;
use tpf_base::{Accept, OutOfMemory, Shelf, Sink, Text};
use triple_table::Choice;

/// What is served, and where.
#[derive(Drop)]
pub struct Service<'a> {
    /// The name of the file of data.
    pub name: &'a str,
    /// Which graphs of the file are served.
    pub choice: &'a Choice,
    /// Where the fragments stand: an address without a query part.
    pub base: WebAddress,
    /// The most triples of a page: 1 to `LARGEST_PAGE` (1000).
    pub page_size: u64,
    /// The path on which a request has the file read again, if there is one: a written path that is not
    /// the base's.
    pub reload: Option<Text>,
    /// Whether the rows of a request are read: its page then holds only the triples that fit one of them.
    pub rows: bool,
    /// After how many connections that ended the service ends, if it does.
    pub stop_after: Option<u64>,
}

/// The file of a service, which may be read again, and when the service ends.
#[derive(Drop)]
struct Source<'a> {
    name: &'a str,
    choice: &'a Choice,
    base: &'a WebAddress,
    reloads: bool,
    stop_after: Option<u64>,
}

/// What a service of connections answers: out of memory where a connection was closed for that.
fn answer_of(served: Result<Served, ServeFault>) -> Result<u64, ServiceFault>
    ensures { result ≡ answer_of served }
{
    match served {
        Ok(served) => {
            if served.starved == 0 {
                Ok(served.connections)
            } else {
                Err(ServiceFault::OutOfMemory)
            }
        }
        Err(ServeFault::Wire) => Err(ServiceFault::Wire),
        Err(ServeFault::OutOfMemory) => Err(ServiceFault::OutOfMemory),
    }
}

/// Serves the links that come to the door.
fn serve_links<R: Wait, S: Supply<FragmentServer>, W: Accept>(
    rt: &R,
    alloc: Global,
    server: &mut FragmentServer,
    supply: &mut S,
    wire: &mut W,
    stop_after: Option<u64>,
) -> Result<u64, ServiceFault>
    requires listens { listens (W.state wire.old) ≡ true }
    requires first { (serving server.old).version ≡ 1 }
    ensures serves { ServesLinks (S.may supply.old) (Rose (S.state supply.old).faults (S.state supply.new).faults)
        (serving server.old) stop_after (W.state wire.old) (W.state wire.new) result }
    ensures keeps { S.Keeps supply.old supply.new }
{
    answer_of(serve_connections::<R, FragmentConnection, S, W>(
        rt, alloc, server, supply, wire, stop_after,
    ))
}

/// Serves the links that come to the door, from data that nobody has read again.
fn serve_once<R: Wait, W: Accept>(
    rt: &R,
    alloc: Global,
    server: &mut FragmentServer,
    wire: &mut W,
    stop_after: Option<u64>,
) -> Result<u64, ServiceFault>
    requires listens { listens (W.state wire.old) ≡ true }
    requires first { (serving server.old).version ≡ 1 }
    ensures serves { ServesLinks (λ triples. ⊥) (Unit {0})
        (serving server.old) stop_after (W.state wire.old) (W.state wire.new) result }
{
    let mut supply = NoSupply::new();
    serve_links(rt, alloc, server, &mut supply, wire, stop_after)
}

/// The base of a server, as an address of its own.
fn copied_base(alloc: Global, server: &FragmentServer) -> Result<WebAddress, OutOfMemory>
    ensures { IfOk result (λ base. base ≡ (serving server.now).config.base) }
{
    server.server().config().base().copy(alloc)
}

/// Serves the links that come to the door, and reads the file again for each request that asks for it.
fn serve_again<R: Wait, F: Shelf, W: Accept>(
    rt: &R,
    alloc: Global,
    source: &Source<'_>,
    server: &mut FragmentServer,
    shelf: &mut F,
    wire: &mut W,
) -> Result<u64, ServiceFault>
    requires listens { listens (W.state wire.old) ≡ true }
    requires first { (serving server.old).version ≡ 1 }
    requires base { source.now.base.now ≡ (serving server.old).config.base }
    ensures serves { ServesLinks
        (IsOfFile (F.state shelf.old).told
        source.now.name.now source.now.choice.now (authority_of (serving server.old).config.base))
        (FailedReading (F.state shelf.old) (F.state shelf.new)
        source.now.name.now source.now.choice.now (authority_of (serving server.old).config.base))
        (serving server.old) source.now.stop_after (W.state wire.old) (W.state wire.new) result }
    ensures keeps { KeepsShelf (F.state shelf.old) (F.state shelf.new) }
    ensures asks { AsksOnly source.now.name.now (F.state shelf.old) (F.state shelf.new) }
{
    let mut supply = FileSupply::new(alloc, shelf, source.name, source.choice, source.base);
    serve_links(rt, alloc, server, &mut supply, wire, source.stop_after)
}

/// Serves the links that come to the door: of a file that is read again where there is a path for it.
fn serve_source<R: Wait, F: Shelf, W: Accept>(
    rt: &R,
    alloc: Global,
    source: &Source<'_>,
    server: &mut FragmentServer,
    shelf: &mut F,
    wire: &mut W,
) -> Result<u64, ServiceFault>
    requires door { (W.state wire.old).door.place ≡ door_of source.now.base.now }
    requires first { (serving server.old).version ≡ 1 }
    requires base { source.now.base.now ≡ (serving server.old).config.base }
    requires reloads { source.now.reloads ≡ is_some (serving server.old).config.reload }
    ensures serves { ServesLinks
        (MayFollow (F.state shelf.old).told source.now.name.now source.now.choice.now (serving server.old).config)
        (FailedReload (F.state shelf.old) (F.state shelf.new)
        source.now.name.now source.now.choice.now (serving server.old).config)
        (serving server.old) source.now.stop_after (W.state wire.old) (W.state wire.new) result }
    ensures keeps { KeepsShelf (F.state shelf.old) (F.state shelf.new) }
    ensures asks { AsksOnly source.now.name.now (F.state shelf.old) (F.state shelf.new) }
    ensures unread { source.now.reloads ≡ false → shelf.new ≡ shelf.old }
{
    if source.reloads {
        return serve_again(rt, alloc, source, server, shelf, wire);
    }
    serve_once(rt, alloc, server, wire, source.stop_after)
}

/// Opens the door of a server, says so, and serves the links that come to it.
fn serve_server<R: Wait, F: Shelf, W: Accept, K: Sink>(
    rt: &R,
    alloc: Global,
    source: &Source<'_>,
    server: &mut FragmentServer,
    shelf: &mut F,
    wire: &mut W,
    out: &mut K,
) -> Result<u64, ServiceFault>
    requires first { (serving server.old).version ≡ 1 }
    requires base { source.now.base.now ≡ (serving server.old).config.base }
    requires reloads { source.now.reloads ≡ is_some (serving server.old).config.reload }
    ensures serves { ServesServer (F.state shelf.old) (F.state shelf.new) (W.state wire.old) (W.state wire.new)
        (K.state out.old) (K.state out.new) source.now.name.now source.now.choice.now
        (serving server.old) source.now.stop_after result }
    ensures keeps { KeepsShelf (F.state shelf.old) (F.state shelf.new) }
    ensures asks { AsksOnly source.now.name.now (F.state shelf.old) (F.state shelf.new) }
    ensures unread { source.now.reloads ≡ false → shelf.new ≡ shelf.old }
    ensures output { KeepsSink (K.state out.old) (K.state out.new) }
{
    if let Err(fault) = begin(server, wire, out) {
        return Err(fault);
    }
    serve_source(rt, alloc, source, server, shelf, wire)
}

/// Serves the data of a file at the host and the port of a base: reads the file, opens the door (the
/// listener), writes `ready` and LF, and serves the links (the connections) that come to it until so
/// many have ended. Gives their number, fewer than `MOST_LIVE` (256) more than `stop_after` says, or at most
/// so many where that is 0; the count stands still at its last value.
///
/// Where rows are read, each request that names some is answered by the fragment that they restrict, and else
/// they are passed over.
///
/// Where a path is given, a request on it has the file read again, and the data are served as the next
/// version. A read that fails then leaves the data and their version. Without one the file is read once.
///
/// `Data` where the file is not served: nothing was written then, the output did not fail, and the wire
/// is as before. `Wire` where the door could not be opened, or an accept or a wait failed; `Sink` where
/// the output failed; `OutOfMemory` also where a connection was closed for that. At each exit the links
/// that were given are closed. Where the number is given, the door is still open.
pub fn serve<R: Wait, F: Shelf, W: Accept, K: Sink>(
    rt: &R,
    alloc: Global,
    service: Service<'_>,
    shelf: &mut F,
    wire: &mut W,
    out: &mut K,
) -> Result<u64, ServiceFault>
    requires { IsConfig (config_of service) }
    ensures serves { ServesFile (F.state shelf.old) (F.state shelf.new) (W.state wire.old) (W.state wire.new)
        (K.state out.old) (K.state out.new) service.entry.name.now service.entry.choice.now
        (config_of service.entry) service.entry.stop_after result }
    ensures wire_unused { IfErr result (λ fault. IsOfData fault → wire.new ≡ wire.old) }
    ensures out_unused { IfErr result (λ fault. IsOfData fault → out.new ≡ out.old) }
{
    let Service {
        name,
        choice,
        base,
        page_size,
        reload,
        rows,
        stop_after,
    } = service;
    let reloads = reload.is_some();
    let config = config_of(base, page_size, reload, rows);
    let mut server = match server_of_file(alloc, shelf, name, choice, config) {
        Ok(server) => server,
        Err(fault) => return Err(ServiceFault::Data(fault)),
    };
    let Ok(base) = copied_base(alloc, &server) else {
        return Err(ServiceFault::OutOfMemory);
    };
    let source = Source {
        name,
        choice,
        base: &base,
        reloads,
        stop_after,
    };
    serve_server(rt, alloc, &source, &mut server, shelf, wire, out)
}

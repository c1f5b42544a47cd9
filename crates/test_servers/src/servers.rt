// Servers of N-Quads text.
ghost use Rattle.std.specs.Prelude.{All, IfOk};
ghost use Rattle.rdf_terms.specs.Triples.{IsRdfQuad};
ghost use Rattle.tpf_base.specs.Addresses.{IsAuthority};

use hydra_controls::Config;
use nquads_text::read_all;
use rdf_terms::{LONGEST_TERM, MOST_TRIPLES, Quad};
use std::alloc::Global;
use template_fill::WebAddress;
use tpf_server::Server;
use triple_table::{Choice, Table};

/// The address of the fragments where no other is told.
pub const BASE: &str = "http://localhost/data";

/// What a server lacks that can't be made: it is none, or memory ran out.
#[derive(Clone, Copy, Debug, PartialEq, Eq)]
pub enum ServerFault {
    /// The quads of its text.
    Quads,
    /// The table of its triples.
    Table,
    /// Its address.
    Address,
    /// Its configuration.
    Config,
    /// The server of these.
    Server,
}

/// The authority under which blank nodes have Skolem IRIs, at whatever address the fragments stand.
pub fn host() -> &'static str
    ensures { IsAuthority result.now }
{
    "localhost"
}

/// The quads of N-Quads text.
pub fn quads_of(alloc: Global, text: &str) -> Result<Vec<Quad>, ServerFault>
    ensures { IfOk result (λ quads. All IsRdfQuad quads.items) }
{
    match read_all(alloc, text.as_bytes(), LONGEST_TERM) {
        Ok(quads) => Ok(quads),
        Err(_) => Err(ServerFault::Quads),
    }
}

/// The table of the triples of all graphs of N-Quads text.
pub fn table_of(alloc: Global, text: &str) -> Result<Table, ServerFault> {
    let quads = quads_of(alloc, text)?;
    match Table::build(
        alloc,
        quads.as_slice(),
        &Choice::Union,
        host(),
        MOST_TRIPLES,
    ) {
        Ok(table) => Ok(table),
        Err(_) => Err(ServerFault::Table),
    }
}

/// The configuration of fragments at this address, with so many triples a page.
pub fn config_at(alloc: Global, base: &str, page_size: u64) -> Result<Config, ServerFault> {
    let Ok(base) = WebAddress::read(alloc, base) else {
        return Err(ServerFault::Address);
    };
    Config::new(base, page_size).ok_or(ServerFault::Config)
}

/// A server of N-Quads text at [`BASE`], with so many triples a page.
pub fn server_of(alloc: Global, text: &str, page_size: u64) -> Result<Server, ServerFault> {
    let config = config_at(alloc, BASE, page_size)?;
    let table = table_of(alloc, text)?;
    match Server::new(alloc, table, config) {
        Ok(server) => Ok(server),
        Err(_) => Err(ServerFault::Server),
    }
}

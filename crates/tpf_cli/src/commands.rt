// The commands.
ghost use Rattle.std.specs.Prelude.{◌≡◌, ◌≤◌, ◌<◌, length, None};
ghost use Rattle.rdf_terms.specs.declared.limits.TheConstants.{MOST_ROWS};
ghost use Rattle.template_fill.specs.Configurations.{HasReloadPath};
ghost use Rattle.template_fill.specs.declared.limits.TheConstants.{LARGEST_PAGE};
ghost use Rattle.generated_data.specs.declared.limits.TheConstants.{MOST_PERSONS};
ghost use Rattle.data_files.specs.Kept.{KeepsSink};
ghost use Rattle.query_command.specs.Groups.{FileAsked, ServerAsked};
ghost use Rattle.federated_query.specs.Servers.{AreApart};
ghost use Rattle.query_command.specs.Servers.{ServersAsked};
ghost use Rattle.serve_command.specs.Services.{ServesFile};
ghost use Rattle.tpf_cli.specs.Ranges.{IsClient, IsTyped};
ghost use Rattle.tpf_cli.specs.Runs.{WritesNumbers, CountsFile, asked_of, config_in, options_of, unwritten, wire_inside};

use crate::top::Inside;
use answer_faults::{AnswerFault, Counts};
use command_endings::write_sizes;
use command_words::{ClientWords, FederateWords, LocalWords, QueryWords, ServeWords};
use fragment_server::FragmentConnection;
use loop_wire::LoopWire;
use query_command::{LocalQuery, local, query, query_generated, query_servers};
use serve_command::{Service, ServiceFault, serve};
use std::alloc::Global;
use std::mem;
use std::sync::Wait;
use tpf_base::{Accept, Dial, Fault, Shelf, Sink};
use tpf_client::{BlockSize, ClientFault, Options, Report};

/// The rows of a block by its words.
fn block_of(rows: u32) -> BlockSize
    requires low { 1 ≤ rows }
    requires high { rows ≤ MOST_ROWS }
    ensures { result ≡ rows }
{
    match BlockSize::new(rows) {
        Some(size) => size,
        None => unreachable!(),
    }
}

/// The bounds of a client by its words.
fn options_of(client: ClientWords) -> Options
    requires { IsClient client }
    ensures { result ≡ options_of client }
{
    Options {
        window: client.window,
        block: block_of(client.block),
        links: client.links,
        retries: client.retries,
        budget: client.budget,
        max_body: client.max_body,
    }
}

/// What a run leaves inside, by the wire that it made if it made one.
fn inside_of(made: Option<LoopWire<FragmentConnection>>) -> Inside
    ensures { wire_inside result ≡ made }
{
    match made {
        Some(wire) => Inside::Loop(wire),
        None => Inside::Unused,
    }
}

/// Asks a file, by a query with groups or without, and leaves the wire that was made for it.
pub fn ask_file<R: Wait, F: Shelf, K: Sink>(
    rt: &R,
    alloc: Global,
    words: &LocalWords<'_>,
    shelf: &mut F,
    out: &mut K,
    inside: &mut Inside,
) -> Result<Report, AnswerFault>
    requires low { 1 ≤ words.now.page }
    requires high { words.now.page ≤ LARGEST_PAGE }
    requires client { IsClient words.now.client }
    ensures { FileAsked (F.state shelf.old) (F.state shelf.new) (K.state out.old) (K.state out.new)
        (wire_inside inside.new) (asked_of words.now) result }
{
    let asked = LocalQuery {
        name: words.name,
        query: words.query,
        choice: &words.choice,
        page_size: words.page,
        options: options_of(words.client),
        seed: words.seed,
        fail_every: words.fail_every,
    };
    let mut made = None;
    let answer = local(rt, alloc, &asked, shelf, out, &mut made);
    drop(mem::replace(inside, inside_of(made)));
    answer
}

/// Asks a server, by a query with groups or without.
pub fn ask_server<R: Wait, F: Shelf, W: Dial, K: Sink>(
    rt: &R,
    alloc: Global,
    asked: &QueryWords<'_>,
    shelf: &mut F,
    wire: &mut W,
    out: &mut K,
) -> Result<Report, AnswerFault>
    requires typed { IsTyped asked.now.url }
    requires client { IsClient asked.now.client }
    ensures { ServerAsked (F.state shelf.old) (F.state shelf.new)
        (W.allows wire.old) (W.state wire.old) (W.state wire.new) (K.state out.old) (K.state out.new)
        asked.now.query.now asked.now.url (options_of asked.now.client) result }
{
    let options = options_of(asked.client);
    query(
        rt,
        alloc,
        asked.query,
        &asked.url,
        &options,
        shelf,
        wire,
        out,
    )
}

/// Asks several servers together, by a query without groups.
pub fn ask_servers<R: Wait, F: Shelf, W: Dial, K: Sink>(
    rt: &R,
    alloc: Global,
    asked: &FederateWords<'_>,
    shelf: &mut F,
    wire: &mut W,
    out: &mut K,
) -> Result<Report, AnswerFault>
    requires some { 0 < length asked.now.urls.items }
    requires apart { AreApart asked.now.urls.items }
    requires client { IsClient asked.now.client }
    ensures { ServersAsked (F.state shelf.old) (F.state shelf.new)
        (W.allows wire.old) (W.state wire.old) (W.state wire.new) (K.state out.old) (K.state out.new)
        asked.now.query.now asked.now.urls.items (options_of asked.now.client) result }
{
    let options = options_of(asked.client);
    let (query, urls) = (asked.query, asked.urls.as_slice());
    query_servers(rt, alloc, query, urls, &options, shelf, wire, out)
}

/// Serves a file.
pub fn serve_file<R: Wait, F: Shelf, W: Accept, K: Sink>(
    rt: &R,
    alloc: Global,
    words: ServeWords<'_>,
    shelf: &mut F,
    wire: &mut W,
    out: &mut K,
) -> Result<u64, ServiceFault>
    requires low { 1 ≤ words.page }
    requires high { words.page ≤ LARGEST_PAGE }
    requires no_query { words.base.query ≡ None }
    requires reload { HasReloadPath words.base words.reload }
    ensures { ServesFile (F.state shelf.old) (F.state shelf.new)
        (W.state wire.old) (W.state wire.new) (K.state out.old) (K.state out.new)
        words.entry.name.now words.entry.choice (config_in words.entry) words.entry.stop_after result }
{
    let ServeWords {
        name,
        base,
        choice,
        page,
        stop_after,
        reload,
        rows,
    } = words;
    let service = Service {
        name,
        choice: &choice,
        base,
        page_size: page,
        reload,
        rows,
        stop_after,
    };
    service.base.is_valid();
    serve(rt, alloc, service, shelf, wire, out)
}

/// Why numbers were not written whole.
fn unwritten(fault: Fault) -> AnswerFault
    ensures { result ≡ unwritten fault }
{
    match fault {
        Fault::Failed => AnswerFault::Client(ClientFault::Sink),
        Fault::OutOfMemory => AnswerFault::Client(ClientFault::OutOfMemory),
    }
}

/// Writes the numbers of the triples and of the rows, where there are any.
fn write_numbers<K: Sink>(
    alloc: Global,
    out: &mut K,
    came: Result<Counts, AnswerFault>,
) -> Result<(), AnswerFault>
    ensures line { WritesNumbers (K.state out.old) (K.state out.new) came result }
    ensures output { KeepsSink (K.state out.old) (K.state out.new) }
{
    let counts = match came {
        Ok(counts) => counts,
        Err(fault) => return Err(fault),
    };
    match write_sizes(alloc, out, counts) {
        Ok(()) => Ok(()),
        Err(fault) => Err(unwritten(fault)),
    }
}

/// Asks a query of the data of so many persons, writes the numbers of the triples and of the rows, and leaves
/// the wire that was made for it.
pub fn ask_generated<R: Wait, F: Shelf, K: Sink>(
    rt: &R,
    alloc: Global,
    persons: u32,
    name: &str,
    shelf: &mut F,
    out: &mut K,
    inside: &mut Inside,
) -> Result<(), AnswerFault>
    requires { persons ≤ MOST_PERSONS }
    ensures { CountsFile (F.state shelf.old) (F.state shelf.new) (K.state out.old) (K.state out.new)
        (wire_inside inside.new) persons name.now result }
{
    let mut left = None;
    let came = query_generated(rt, alloc, persons, name, shelf, &mut left);
    drop(mem::replace(inside, inside_of(left)));
    write_numbers(alloc, out, came)
}

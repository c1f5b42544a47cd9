// The server of generated data.
ghost use Rattle.std.specs.Prelude.{◌≡◌, ◌≤◌, All, IfOk};
ghost use Rattle.rdf_terms.specs.Canon.{canon};
ghost use Rattle.rdf_terms.specs.Triples.{IsRdfQuad};
ghost use Rattle.tpf_base.specs.Addresses.{IsAuthority, authority_of};
ghost use Rattle.tpf_base.specs.Memory.{sink_bytes};
ghost use Rattle.triple_table.specs.declared.choice.Choice.TheVariants as choices;
ghost use Rattle.triple_table.specs.Chosen.{chosen};
ghost use Rattle.triple_table.specs.Served.{IsServed};
ghost use Rattle.triple_table.specs.Stored.{triples_in};
ghost use Rattle.fragment_server.specs.Fragments.{serving_of};
ghost use Rattle.generated_data.specs.declared.limits.TheConstants.{MOST_PERSONS};
ghost use Rattle.generated_data.specs.Generated.{generated};
ghost use Rattle.data_servers.specs.Starts.{StartsGenerated};

use fragment_server::FragmentServer;
use generated_data::write_generated;
use hydra_controls::Config;
use nquads_text::{TextFault, laws, read_all};
use rdf_terms::{LONGEST_TERM, MOST_TRIPLES, Quad};
use std::alloc::Global;
use tpf_base::{Failing, Fault, MemSink, OutOfMemory};
use tpf_server::Server;
use triple_table::{BuildFault, Choice, Table};

/// The text of the data of so many persons, in a sink that never fails.
fn generated_text(alloc: Global, persons: u32) -> Result<MemSink, OutOfMemory>
    ensures { IfOk result (λ text. sink_bytes text ≡ canon (generated persons)) }
{
    let mut text = MemSink::new(alloc, Failing::Never);
    match write_generated(alloc, persons, &mut text) {
        Ok(()) => Ok(text),
        Err(Fault::OutOfMemory) => Err(OutOfMemory),
        Err(Fault::Failed) => unreachable!(),
    }
}

/// The quads that are read of the text of the data of so many persons.
fn generated_quads(alloc: Global, persons: u32) -> Result<Vec<Quad>, OutOfMemory>
    requires { persons ≤ MOST_PERSONS }
    ensures quads { IfOk result (λ v. v.items ≡ generated persons) }
    ensures classes { IfOk result (λ v. All IsRdfQuad v.items) }
{
    let text = generated_text(alloc, persons)?;
    laws::canonical_text_reads_back();
    match read_all(alloc, text.taken(), LONGEST_TERM) {
        Ok(quads) => Ok(quads),
        Err(TextFault::OutOfMemory) => Err(OutOfMemory),
        Err(TextFault::Bad { .. }) => unreachable!(),
    }
}

/// The table of the data of so many persons, under an authority.
fn generated_table(alloc: Global, persons: u32, authority: &str) -> Result<Table, OutOfMemory>
    requires few { persons ≤ MOST_PERSONS }
    requires authority { IsAuthority authority.now }
    ensures { IfOk result (λ table.
        IsServed authority.now (chosen choices.DefaultGraph (generated persons)) (triples_in table)) }
{
    let quads = generated_quads(alloc, persons)?;
    match Table::build(
        alloc,
        &quads,
        &Choice::DefaultGraph,
        authority,
        MOST_TRIPLES,
    ) {
        Ok(table) => Ok(table),
        Err(BuildFault::OutOfMemory) => Err(OutOfMemory),
        Err(BuildFault::GenidClash(_)) => unreachable!(),
        Err(BuildFault::TooMany) => unreachable!(),
    }
}

/// The same under the authority of the base.
fn table_of(alloc: Global, persons: u32, config: &Config) -> Result<Table, OutOfMemory>
    requires { persons ≤ MOST_PERSONS }
    ensures { IfOk result (λ table.
        IsServed (authority_of config.now.base) (chosen choices.DefaultGraph (generated persons)) (triples_in table)) }
{
    config.is_valid();
    generated_table(alloc, persons, config.base().authority())
}

/// The server of the generated data of so many persons, at most `MOST_PERSONS` (1000000), as version 1, whose
/// fragments stand where the configuration says. The text of the data is made and read as that of a file would be.
///
/// Fails only where memory runs out: the sink of the text never fails, and the text has no fault, no blank
/// node, and few enough triples.
pub fn server_of_generated(
    alloc: Global,
    persons: u32,
    config: Config,
) -> Result<FragmentServer, OutOfMemory>
    requires { persons ≤ MOST_PERSONS }
    ensures { IfOk result (λ server. StartsGenerated persons config (serving_of server.server)) }
{
    let table = table_of(alloc, persons, &config)?;
    let server = Server::new(alloc, table, config)?;
    Ok(FragmentServer::new(server))
}

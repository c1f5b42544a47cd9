// The server of a file.
ghost use Rattle.std.specs.Prelude.{◌≡◌, Err, IfOk, IfErr};
ghost use Rattle.tpf_base.specs.Addresses.{authority_of};
ghost use Rattle.triple_table.specs.Stored.{triples_in};
ghost use Rattle.data_files.specs.Data.{IsOfFile};
ghost use Rattle.data_files.specs.Kept.{ReadsNamed};
ghost use Rattle.data_files.specs.Causes.{DataCause, DataDecides, Gives};
ghost use Rattle.data_servers.specs.Servers.{Starts, GivesServer, serving};

use data_files::{DataFault, read_table};
use fragment_server::FragmentServer;
use hydra_controls::Config;
use std::alloc::Global;
use tpf_base::Shelf;
use tpf_server::Server;
use triple_table::{Choice, Table};

/// The table of a file, under the authority of the base.
fn table_of<F: Shelf>(
    alloc: Global,
    shelf: &mut F,
    name: &str,
    choice: &Choice,
    config: &Config,
) -> Result<Table, DataFault>
    ensures ok { IfOk result (λ table.
        IsOfFile (F.state shelf.old).told name.now choice.now (authority_of config.now.base) (triples_in table)) }
    ensures err { IfErr result
        (DataCause (F.state shelf.old) (F.state shelf.new) name.now choice.now (authority_of config.now.base)) }
    ensures exact { DataDecides (F.state shelf.old) (F.state shelf.new)
        name.now choice.now (authority_of config.now.base) (λ outcome. Gives outcome result) }
    ensures reads { ReadsNamed name.now (F.state shelf.old) (F.state shelf.new) (result ≡ Err DataFault.File) }
{
    config.is_valid();
    read_table(alloc, shelf, name, choice, config.base().authority())
}

/// The server of the data of a file as version 1, whose fragments stand where the configuration says.
/// A blank node with label L is the Skolem IRI `http://AUTHORITY/.well-known/genid/L`, under the
/// authority of the base.
///
/// `TooLong`, `Bad`, `GenidClash` and `TooMany` come exactly where the file holds such bytes, `File`
/// only where the shelf's count of faults rose, and `OutOfMemory` where memory ran out. What the shelf
/// tells stays as it was. The file is found once, and files found before are left as they were. Over a
/// faultless shelf that holds the name `File` never comes, as long as numbers are left.
pub fn server_of_file<F: Shelf>(
    alloc: Global,
    shelf: &mut F,
    name: &str,
    choice: &Choice,
    config: Config,
) -> Result<FragmentServer, DataFault>
    ensures starts { IfOk result (λ server.
        Starts (F.state shelf.old).told name.now choice.now config (serving server)) }
    ensures err { IfErr result
        (DataCause (F.state shelf.old) (F.state shelf.new) name.now choice.now (authority_of config.base)) }
    ensures exact { DataDecides (F.state shelf.old) (F.state shelf.new)
        name.now choice.now (authority_of config.base) (λ outcome. GivesServer outcome result) }
    ensures reads { ReadsNamed name.now (F.state shelf.old) (F.state shelf.new) (result ≡ Err DataFault.File) }
{
    let table = match table_of(alloc, shelf, name, choice, &config) {
        Ok(table) => table,
        Err(fault) => return Err(fault),
    };
    match Server::new(alloc, table, config) {
        Ok(server) => Ok(FragmentServer::new(server)),
        Err(_) => Err(DataFault::OutOfMemory),
    }
}

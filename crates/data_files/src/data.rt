// The data of a file.
ghost use Rattle.std.specs.Prelude.{ℕ, ◌≡◌, ◌≢◌, List, All, Err, IfOk, IfErr, OnOk};
ghost use Rattle.tpf_base.specs.Addresses.{IsAuthority};
ghost use Rattle.rdf_terms.specs.Triples.{IsRdfQuad};
ghost use Rattle.triple_table.specs.Chosen.{chosen};
ghost use Rattle.triple_table.specs.Served.{Clashes, IsServed};
ghost use Rattle.triple_table.specs.Stored.{triples_in};
ghost use Rattle.data_files.specs.Data.{OfContents, HoldsData, AreFew, IsOfFile};
ghost use Rattle.data_files.specs.Kept.{ReadsNamed};
ghost use Rattle.data_files.specs.Causes.{DataCause, ServeCause, DataDecides, Gives, unread};

use crate::DataFault;
use nquads_text::{TextFault, read_all};
use rdf_terms::{LONGEST_TERM, MOST_TRIPLES, Quad};
use std::alloc::Global;
use tpf_base::{FileFault, Shelf, read_file};
use triple_table::{BuildFault, Choice, Table};

/// The most bytes of a file of data.
pub const MOST_BYTES: usize = 1073741824;

fn unread(fault: FileFault) -> DataFault
    ensures { result ≡ unread fault }
{
    match fault {
        FileFault::Failed => DataFault::File,
        FileFault::TooLong => DataFault::TooLong,
        FileFault::OutOfMemory => DataFault::OutOfMemory,
    }
}

/// The quads of a file.
fn read_quads<F: Shelf>(alloc: Global, shelf: &mut F, name: &str) -> Result<Vec<Quad>, DataFault>
    ensures ok { IfOk result (λ v. OfContents (F.state shelf.old).told (λ files. HoldsData files name.now v.items)) }
    ensures classes { IfOk result (λ v. All IsRdfQuad v.items) }
    ensures err { (choice : Choice) (authority : List ℕ) →
        IfErr result (DataCause (F.state shelf.old) (F.state shelf.new) name.now choice authority) }
    ensures reads { ReadsNamed name.now (F.state shelf.old) (F.state shelf.new) (result ≡ Err DataFault.File) }
{
    let bytes = match read_file(alloc, shelf, name, MOST_BYTES) {
        Ok(bytes) => bytes,
        Err(fault) => return Err(unread(fault)),
    };
    match read_all(alloc, &bytes, LONGEST_TERM) {
        Ok(quads) => Ok(quads),
        Err(TextFault::Bad { line, why }) => Err(DataFault::Bad { line, why }),
        Err(TextFault::OutOfMemory) => Err(DataFault::OutOfMemory),
    }
}

/// The table of the triples that are served of quads.
fn serve_quads(
    alloc: Global,
    quads: &[Quad],
    choice: &Choice,
    authority: &str,
) -> Result<Table, DataFault>
    requires authority { IsAuthority authority.now }
    requires classes { All IsRdfQuad quads.now }
    ensures served { IfOk result (λ table. IsServed authority.now (chosen choice.now quads.now) (triples_in table)) }
    ensures few { IfOk result (λ table. AreFew (triples_in table)) }
    ensures free { OnOk result ((label : List ℕ) → ¬ (Clashes authority.now (chosen choice.now quads.now) label)) }
    ensures err { IfErr result (ServeCause quads.now choice.now authority.now) }
    ensures no_file { result ≢ Err DataFault.File }
{
    match Table::build(alloc, quads, choice, authority, MOST_TRIPLES) {
        Ok(table) => Ok(table),
        Err(BuildFault::GenidClash(label)) => Err(DataFault::GenidClash(label)),
        Err(BuildFault::TooMany) => Err(DataFault::TooMany),
        Err(BuildFault::OutOfMemory) => Err(DataFault::OutOfMemory),
    }
}

/// Reads the data of a file and gives the table of the triples that are served of them: those of the
/// chosen graphs, where the blank node with label L is the Skolem IRI
/// `http://AUTHORITY/.well-known/genid/L` (RDF 1.1 Concepts, 3.5). The authority is that of a web
/// address.
///
/// `TooLong`, `Bad`, `GenidClash` and `TooMany` come exactly where the file holds such bytes, `File`
/// only where the shelf's count of faults rose, and `OutOfMemory` where memory ran out. What the shelf
/// tells stays as it was. The file is found once, and files found before are left as they were. Over a
/// faultless shelf that holds the name `File` never comes, as long as numbers are left.
pub fn read_table<F: Shelf>(
    alloc: Global,
    shelf: &mut F,
    name: &str,
    choice: &Choice,
    authority: &str,
) -> Result<Table, DataFault>
    requires { IsAuthority authority.now }
    ensures ok { IfOk result (λ table.
        IsOfFile (F.state shelf.old).told name.now choice.now authority.now (triples_in table)) }
    ensures err { IfErr result (DataCause (F.state shelf.old) (F.state shelf.new) name.now choice.now authority.now) }
    ensures exact { DataDecides (F.state shelf.old) (F.state shelf.new) name.now choice.now authority.now
        (λ outcome. Gives outcome result) }
    ensures reads { ReadsNamed name.now (F.state shelf.old) (F.state shelf.new) (result ≡ Err DataFault.File) }
{
    let quads = match read_quads(alloc, shelf, name) {
        Ok(quads) => quads,
        Err(fault) => return Err(fault),
    };
    serve_quads(alloc, &quads, choice, authority)
}

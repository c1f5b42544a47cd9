// The data of a file, read again.
ghost use Rattle.std.specs.Prelude.{◌≡◌, ◌≤◌, ◌↔◌, List, Err, IfOk, IfErr, OnErr, IsErrOf};
ghost use Rattle.tpf_base.specs.Addresses.{authority_of};
ghost use Rattle.tpf_base.specs.Causes.{HasCause, counted};
ghost use Rattle.tpf_base.specs.Outside.{AsksOnce};
ghost use Rattle.rdf_terms.specs.declared.term.Triple.{Triple};
ghost use Rattle.connections.specs.Versions.{with_first};
ghost use Rattle.triple_table.specs.Stored.{triples_in};
ghost use Rattle.data_files.specs.Data.{IsOfFile};
ghost use Rattle.data_files.specs.Kept.{ReadsNamed};
ghost use Rattle.data_files.specs.Causes.{DataCause};
ghost use Rattle.data_servers.specs.Supplies.{FailedReading, KeepsFile, file_view, supply_fault, untold};

use connections::Supply;
use data_files::{DataFault, read_table};
use fragment_server::FragmentServer;
use std::alloc::Global;
use template_fill::WebAddress;
use tpf_base::{Fault, Shelf};
use triple_table::{Choice, Table};

/// A supply that reads a file again for each table. It tells no list of what it has left.
///
/// Where the shelf tells what the file holds, no other data set than the one that is served of it is
/// given. Its counts of faults and of calls are its own, and stand still at their last value: that of
/// faults rises only where the shelf's rose in the same call, or where the file holds no data that are
/// served.
#[derive(Drop)]
pub struct FileSupply<'a, F: Shelf> {
    alloc: Global,
    shelf: &'a mut F,
    name: &'a str,
    choice: &'a Choice,
    base: &'a WebAddress,
    faults: u64,
    calls: u64,
}

impl<'a, F: Shelf> FileSupply<'a, F> {
    /// A supply of the file with this name, of the graphs that are chosen, under the authority of a base.
    /// It has read nothing yet, and takes no memory.
    pub fn new(
        alloc: Global,
        shelf: &'a mut F,
        name: &'a str,
        choice: &'a Choice,
        base: &'a WebAddress,
    ) -> FileSupply<'a, F>
        ensures shelf { result.shelf.now ≡ shelf.old }
        ensures same_shelf { result.shelf.ghost_name ≡ shelf.entry.ghost_name }
        ensures name { result.name.now ≡ name.now }
        ensures choice { result.choice.now ≡ choice.now }
        ensures base { result.base.now ≡ base.now }
        ensures faults { result.faults ≡ 0 }
        ensures calls { result.calls ≡ 0 }
    {
        FileSupply {
            alloc,
            shelf,
            name,
            choice,
            base,
            faults: 0,
            calls: 0,
        }
    }

    /// The table of the file, read now. The call is counted.
    fn read(&mut self) -> Result<Table, DataFault>
        ensures given { IfOk result (λ table. IsOfFile (F.state self.old.shelf.now).told
            self.old.name.now self.old.choice.now (authority_of self.old.base.now) (triples_in table)) }
        ensures err { IfErr result (DataCause (F.state self.old.shelf.now) (F.state self.new.shelf.now)
            self.old.name.now self.old.choice.now (authority_of self.old.base.now)) }
        ensures reads { ReadsNamed self.old.name.now
            (F.state self.old.shelf.now) (F.state self.new.shelf.now) (result ≡ Err DataFault.File) }
        ensures name { self.new.name.now ≡ self.old.name.now }
        ensures choice { self.new.choice.now ≡ self.old.choice.now }
        ensures base { self.new.base.now ≡ self.old.base.now }
        ensures same_shelf { self.new.shelf.ghost_name ≡ self.old.shelf.ghost_name }
        ensures faults { self.new.faults ≡ self.old.faults }
        ensures calls { self.new.calls ≡ counted self.old.calls }
    {
        self.calls = self.calls.saturating_add(1);
        self.base.is_valid();
        let authority = self.base.authority();
        read_table(self.alloc, self.shelf, self.name, self.choice, authority)
    }

    /// Counts the fault, unless it is `OutOfMemory`.
    fn refuse(&mut self, fault: Fault) -> Fault
        ensures fault { result ≡ fault }
        ensures failed { fault ≡ Fault.Failed → self.new.faults ≡ counted self.old.faults }
        ensures memory { fault ≡ Fault.OutOfMemory → self.new.faults ≡ self.old.faults }
        ensures later { self.old.faults ≤ self.new.faults }
        ensures shelf { self.new.shelf.now ≡ self.old.shelf.now }
        ensures same_shelf { self.new.shelf.ghost_name ≡ self.old.shelf.ghost_name }
        ensures name { self.new.name.now ≡ self.old.name.now }
        ensures choice { self.new.choice.now ≡ self.old.choice.now }
        ensures base { self.new.base.now ≡ self.old.base.now }
        ensures calls { self.new.calls ≡ self.old.calls }
    {
        match fault {
            Fault::Failed => self.faults = self.faults.saturating_add(1),
            Fault::OutOfMemory => {}
        }
        fault
    }
}

fn supply_fault(fault: &DataFault) -> Fault
    ensures { result ≡ supply_fault fault.now }
{
    match fault {
        DataFault::OutOfMemory => Fault::OutOfMemory,
        _ => Fault::Failed,
    }
}

impl<'a, F: Shelf> Supply<FragmentServer> for FileSupply<'a, F> {
    ghost use Rattle.std.proofs.Common.{◌≡◌, ◌∙◌, refl};
    ghost use Rattle.tpf_base.specs.Addresses.{authority_of};
    ghost use Rattle.data_files.specs.Data.{IsOfFile};
    ghost use Rattle.data_servers.specs.Supplies.{KeepsFile, file_view, untold};
    ghost use Rattle.data_servers.specs.Laws.{keeps_none, keeps_both};

    ghost state = { λ supply. record { left = untold; faults = supply.faults; calls = supply.calls } };

    ghost may = { λ supply triples. IsOfFile (F.state supply.shelf.now).told
        supply.name.now supply.choice.now (authority_of supply.base.now) triples };

    // It stays one of the same file, from the shelf that was lent to it, and fails where a read does.
    ghost Keeps = { λ old new. KeepsFile
        (file_view (F.state old.shelf.now) old.name.now old.choice.now old.base.now old.faults)
        (file_view (F.state new.shelf.now) new.name.now new.choice.now new.base.now new.faults)
        × (new.shelf.ghost_name ≡ old.shelf.ghost_name) };

    ghost keeps_itself = { λ a. (keeps_none _, refl) };

    ghost keeps_then = { λ a b c first second. (keeps_both _ _ _ first.0 second.0, second.1 ∙ first.1) };

    /// The table of the file, read now. `Failed` where the file could not be read, or holds no data that
    /// are served: the supply's count of faults rose. `OutOfMemory` where memory ran out: the count
    /// stays. In each case the file was found once at most, and it is still a supply of the same file.
    fn next(&mut self) -> Result<Table, Fault>
        ensures given { IfOk result (λ table. IsOfFile (F.state self.old.shelf.now).told
            self.old.name.now self.old.choice.now (authority_of self.old.base.now) (triples_in table)) }
        ensures first { IfOk result (λ table. untold ≡ with_first (triples_in table) untold) }
        ensures err { OnErr result (untold ≡ untold) }
        ensures same { (triples : List Triple) →
            IsOfFile (F.state self.new.shelf.now).told
            self.new.name.now self.new.choice.now (authority_of self.new.base.now) triples
            ↔ IsOfFile (F.state self.old.shelf.now).told
            self.old.name.now self.old.choice.now (authority_of self.old.base.now) triples }
        ensures keeps { KeepsFile
            (file_view (F.state self.old.shelf.now)
            self.old.name.now self.old.choice.now self.old.base.now self.old.faults)
            (file_view (F.state self.new.shelf.now)
            self.new.name.now self.new.choice.now self.new.base.now self.new.faults)
            × (self.new.shelf.ghost_name ≡ self.old.shelf.ghost_name) }
        ensures cause { HasCause self.old.faults self.new.faults result }
        ensures counts { self.new.calls ≡ counted self.old.calls }
        ensures failed { IsErrOf result Fault.Failed → FailedReading
            (F.state self.old.shelf.now) (F.state self.new.shelf.now)
            self.old.name.now self.old.choice.now (authority_of self.old.base.now) }
        ensures asks { AsksOnce self.old.name.now (F.state self.old.shelf.now) (F.state self.new.shelf.now) }
        ensures name { self.new.name.now ≡ self.old.name.now }
        ensures choice { self.new.choice.now ≡ self.old.choice.now }
        ensures base { self.new.base.now ≡ self.old.base.now }
    {
        match self.read() {
            Ok(table) => Ok(table),
            Err(fault) => {
                let fault = supply_fault(&fault);
                Err(self.refuse(fault))
            }
        }
    }
}

// A version of the data, which the server and its answers share.
ghost use Rattle.std.specs.Prelude.{◌≡◌, IfOk};

use std::alloc::Global;
use std::marker::Model;
use std::rc::Rc;
use tpf_base::OutOfMemory;
use triple_table::Table;

#[derive(Drop)]
struct Numbered {
    table: Table,
    number: u64,
}

/// A version of the data: its table, and its number. All copies share the table, which stays as long
/// as one of them does. Contracts see it as the table and the number.
pub struct Snapshot {
    shared: Rc<Numbered>,
}

// Written out, so that who drops one calls this, and does not take it apart at each exit.
impl Drop for Snapshot {
    fn drop(self) {
        let Snapshot { shared: _shared } = self;
    }
}

impl Model for Snapshot {
    ghost use Rattle.page_responses.specs.Serving as servings;

    ghost Value = { servings.Version };

    ghost view = { λ s. record { table = s.shared.value.table; number = s.shared.value.number } };
}

impl Snapshot {
    /// The version of this number. `OutOfMemory` comes only where memory runs out.
    pub fn new(alloc: Global, table: Table, number: u64) -> Result<Snapshot, OutOfMemory>
        ensures { IfOk result (λ s. s ≡ record { table = table; number = number }) }
    {
        let shared = Rc::new(alloc, Numbered { table, number })?;
        Ok(Snapshot { shared })
    }

    /// The same version, with no copy of its table. `OutOfMemory` comes only where memory runs out.
    pub fn share(&self) -> Result<Snapshot, OutOfMemory>
        ensures { IfOk result (λ s. s ≡ self.now) }
    {
        let shared = self.shared.clone()?;
        Ok(Snapshot { shared })
    }

    /// Its table.
    pub fn table(&self) -> &Table
        ensures { result.now ≡ self.now.table }
    {
        &self.shared.as_ref().table
    }

    /// Its number.
    pub fn number(&self) -> u64
        ensures { result ≡ self.now.number }
    {
        self.shared.as_ref().number
    }
}

// Lists of rows.
ghost use Rattle.std.specs.Prelude.{◌≡◌};

use bgp_core::Row;
use std::marker::Model;

/// The rows of a block or of a group, each as often as SPARQL counts it.
#[derive(Drop)]
pub struct Rows {
    list: Vec<Row>,
}

impl Model for Rows {
    ghost use Rattle.std.specs.Prelude.{List};
    ghost use Rattle.bgp_core.specs.Solutions.{Places};

    ghost Value = { List Places };

    ghost view = { λ r. r.list.items };
}

impl Rows {
    /// These rows. It takes no memory.
    pub fn new(list: Vec<Row>) -> Rows
        ensures { result ≡ list.items }
    {
        Rows { list }
    }

    /// The rows, in their order.
    pub fn as_slice(&self) -> &[Row]
        ensures { result.now ≡ self.now }
    {
        self.list.as_slice()
    }

    /// The rows as a list of their own. It takes no memory.
    pub fn into_vec(self) -> Vec<Row>
        ensures { result.items ≡ self }
    {
        self.list
    }
}

// Where rows go.
ghost use Rattle.std.specs.Prelude.{◌≡◌, ◌++◌, [], ◌∷◌, List, OnOk, OnErr};
ghost use Rattle.tpf_base.specs.Wrote.{SinkState, WritesWhole};
ghost use Rattle.result_json.specs.Pieces.{end_text};
ghost use Rattle.bgp_core.specs.Solutions.{Places};
ghost use Rattle.tpf_client.specs.Rows.{WritesRows, WritesFront, with_row};
ghost use Rattle.tpf_client.specs.Sinks.{KeepsSink, no_sink};
ghost use Rattle.tpf_client.specs.RowLaws.{text-takes-none, text-takes-then, text-front-then, text-front-all, list-takes-none, list-takes-then};

use bgp_core::Row;
use result_json::ResultWriter;
use std::alloc::Global;
use std::marker::Model;
use tpf_base::{Fault, OutOfMemory, Sink};

/// So many bytes of a text are gathered before they are given to a sink, unless the call waits before.
pub const GATHERED: usize = 65536;

/// Takes rows, and hands what it makes of them to what stands behind it.
pub(crate) trait TakesRows<B> {
    /// These rows were taken.
    ghost takes: { List Places → Self → Self → B → B → Type 0 };

    /// A front of what is made of these rows was handed on, or is still held.
    ghost takes_front: { List Places → Self → Self → B → B → Type 0 };

    /// What stands behind it, as a sink.
    ghost sink: { B → SinkState };

    /// Takes a row. `Failed` only where what stands behind failed in this call.
    fn take(&mut self, behind: &mut B, row: Row) -> Result<(), Fault>
        ensures ok { OnOk result (takes (row ∷ []) self.old self.new behind.old behind.new) }
        ensures err { OnErr result (takes_front (row ∷ []) self.old self.new behind.old behind.new) }
        ensures sink { KeepsSink (sink behind.old) (sink behind.new) result };

    /// Hands on what is held.
    fn hand_on(&mut self, behind: &mut B) -> Result<(), Fault>
        ensures ok { OnOk result (takes [] self.old self.new behind.old behind.new) }
        ensures err { OnErr result (takes_front [] self.old self.new behind.old behind.new) }
        ensures sink { KeepsSink (sink behind.old) (sink behind.new) result };

    /// Without a row nothing is taken.
    ghost takes_none: { (x : Self) (b : B) → takes [] x x b b };

    /// Rows after rows are taken one after another.
    ghost takes_then: { (first second : List Places) (x y z : Self) (a b c : B) → takes first x y a b → takes second y z b c → takes (first ++ second) x z a c };

    /// A front of the second rows behind the first.
    ghost front_then: { (first second : List Places) (x y z : Self) (a b c : B) → takes first x y a b → takes_front second y z b c → takes_front (first ++ second) x z a c };

    /// All rows are a front.
    ghost front_all: { (rows : List Places) (x y : Self) (a b : B) → takes rows x y a b → takes_front rows x y a b };
}

/// The text of a result, which goes to a sink.
#[derive(Drop)]
pub(crate) struct ResultText<'a> {
    writer: ResultWriter<'a>,
    count: u64,
}

impl<'a> Model for ResultText<'a> {
    ghost use Rattle.tpf_client.specs.Rows.{Text};

    ghost Value = { Text };

    ghost view = { λ t. record { writer = t.writer; count = t.count } };
}

impl<'a> ResultText<'a> {
    /// A text to which no row was given.
    pub(crate) fn new(writer: ResultWriter<'a>) -> ResultText<'a>
        ensures { result ≡ record { writer = writer.entry; count = 0 } }
    {
        ResultText { writer, count: 0 }
    }

    /// How many rows it was given. The count stands still at its last value.
    pub(crate) fn count(&self) -> u64
        ensures { result ≡ self.now.count }
    {
        self.count
    }

    /// Adds a row.
    fn add(&mut self, row: &Row) -> Result<(), OutOfMemory>
        ensures ok { OnOk result (self.new ≡ with_row self.old row.now) }
        ensures err { OnErr result (self.new ≡ self.old) }
    {
        self.writer.row(row)?;
        self.count = self.count.saturating_add(1);
        Ok(())
    }

    /// Adds the end of the text, and gives all to the sink.
    pub(crate) fn finish<K: Sink>(&mut self, out: &mut K) -> Result<(), Fault>
        ensures writes { WritesWhole (self.old.writer.pending ++ end_text) (K.state out.old) (K.state out.new) result }
        ensures count { self.new.count ≡ self.old.count }
    {
        match self.writer.finish() {
            Ok(()) => self.give(out),
            Err(_) => match self.give(out) {
                Ok(()) => Err(Fault::OutOfMemory),
                Err(fault) => Err(fault),
            },
        }
    }

    /// Gives all that is held to the sink.
    pub(crate) fn give<K: Sink>(&mut self, out: &mut K) -> Result<(), Fault>
        ensures writes { WritesWhole self.old.writer.pending (K.state out.old) (K.state out.new) result }
        ensures count { self.new.count ≡ self.old.count }
    {
        self.writer.give(out)
    }

    /// Whether so many bytes are held that they are given to the sink.
    fn is_full(&self) -> bool {
        self.writer.pending().len() >= GATHERED
    }
}

impl<'a, K: Sink> TakesRows<K> for ResultText<'a> {
    ghost takes = { λ rows old new out out'. WritesRows rows old new (K.state out).taken (K.state out').taken };

    ghost takes_front = { λ rows old new out out'. WritesFront rows old new (K.state out).taken (K.state out').taken };

    ghost sink = { K.state };

    fn take(&mut self, behind: &mut K, row: Row) -> Result<(), Fault> {
        let added = self.add(&row);
        drop(row);
        if added.is_err() {
            return Err(Fault::OutOfMemory);
        }
        if self.is_full() {
            return self.hand_on(behind);
        }
        Ok(())
    }

    fn hand_on(&mut self, behind: &mut K) -> Result<(), Fault> {
        self.writer.give(behind)
    }

    ghost takes_none = { text-takes-none (λ out. (K.state out).taken) };

    ghost takes_then = { text-takes-then (λ out. (K.state out).taken) };

    ghost front_then = { text-front-then (λ out. (K.state out).taken) };

    ghost front_all = { text-front-all (λ out. (K.state out).taken) };
}

/// Rows in a list.
#[derive(Drop)]
pub(crate) struct RowList {
    rows: Vec<Row>,
}

impl Model for RowList {
    ghost use Rattle.std.specs.Prelude.{List};
    ghost use Rattle.bgp_core.specs.Solutions.{Places};

    ghost Value = { List Places };

    ghost view = { λ l. l.rows.items };
}

impl RowList {
    /// A list without a row. It takes no memory.
    pub(crate) fn new(alloc: Global) -> RowList
        ensures { result ≡ [] }
    {
        RowList {
            rows: Vec::new(alloc),
        }
    }

    /// The rows, and their number.
    pub(crate) fn into_rows(self) -> Vec<Row>
        ensures { result.items ≡ self }
    {
        self.rows
    }
}

impl TakesRows<()> for RowList {
    ghost takes = { λ rows old new b b'. new ≡ old ++ rows };

    ghost takes_front = { λ rows old new b b'. Unit {0} };

    ghost sink = { λ b. no_sink };

    fn take(&mut self, _behind: &mut (), row: Row) -> Result<(), Fault> {
        match self.rows.push(row) {
            Ok(()) => Ok(()),
            Err(_) => Err(Fault::OutOfMemory),
        }
    }

    fn hand_on(&mut self, _behind: &mut ()) -> Result<(), Fault> {
        Ok(())
    }

    ghost takes_none = { λ x b. list-takes-none x };

    ghost takes_then = { λ first second x y z a b c p q. list-takes-then first second x y z p q };

    ghost front_then = { λ first second x y z a b c p q. tt };

    ghost front_all = { λ rows x y a b p. tt };
}

// A result that is written row by row.
ghost use Rattle.std.specs.Prelude.{◌≡◌, [], ◌++◌, IfOk, OnOk, OnErr, codes, if◌then◌else◌};
ghost use Rattle.json.specs.Print.{print};
ghost use Rattle.tpf_base.specs.Wrote.{WritesWhole};
ghost use Rattle.result_json.specs.Results.{row_object, result_text};
ghost use Rattle.result_json.specs.Pieces.{begun, front_text, with_end, with_nothing_pending, with_row};

use crate::columns::columns_of;
use crate::tokens::{put_front, put_row};
use bgp_core::{Query, Row};
use json::Writer;
use std::alloc::Global;
use std::marker::Model;
use std::mem;
use tpf_base::{Fault, OutOfMemory, Sink, write_all};

/// The text of a result while it is made: rows are given one by one, and what is made of them is given to a sink when the
/// caller wants it. Contracts see the query, whether a row was given, and the bytes that are still to be given to a sink.
#[derive(Drop)]
pub struct ResultWriter<'a> {
    alloc: Global,
    query: &'a Query,
    columns: Vec<u32>,
    has_rows: bool,
    text: Vec<u8>,
}

impl<'a> Model for ResultWriter<'a> {
    ghost use Rattle.std.specs.Prelude.{◌≡◌};
    ghost use Rattle.result_json.specs.Results.{columns_of};
    ghost use Rattle.result_json.specs.Pieces.{Writing};

    ghost Value = { Writing };

    ghost view = { λ w. record { query = w.query.now; has_rows = w.has_rows; pending = w.text.items } };

    ghost invariant = { λ w. w.columns.items ≡ columns_of w.query.now };
}

/// What stands in front of the rows, as bytes.
fn front(alloc: Global, query: &Query) -> Result<Vec<u8>, OutOfMemory>
    ensures { IfOk result (λ text. text.items ≡ front_text query.now) }
{
    let mut writer = Writer::new(Vec::new(alloc));
    put_front(&mut writer, query)?;
    Ok(writer.into_inner())
}

/// Appends a row as an object. At a fault the text is as it was.
fn append_row(
    alloc: Global,
    query: &Query,
    columns: &[u32],
    row: &Row,
    text: &mut Vec<u8>,
) -> Result<(), OutOfMemory>
    ensures ok { OnOk result (text.new.items ≡
        text.old.items ++ print (row_object query.now.names columns.now row.now)) }
    ensures err { OnErr result (text.new.items ≡ text.old.items) }
{
    let before = text.len();
    let mut writer = Writer::new(mem::replace(text, Vec::new(alloc)));
    let put = put_row(&mut writer, query.names(), columns, row);
    *text = writer.into_inner();
    match put {
        Ok(()) => Ok(()),
        Err(fault) => {
            text.truncate(before);
            Err(OutOfMemory::from(fault))
        }
    }
}

/// Appends a comma where others stand in front. At a fault the text is as it was.
fn append_comma(follows: bool, text: &mut Vec<u8>) -> Result<(), OutOfMemory>
    ensures ok { OnOk result (text.new.items ≡ text.old.items ++ (if follows then codes "," else [])) }
    ensures err { OnErr result (text.new.items ≡ text.old.items) }
{
    if follows {
        text.push(b',')?;
    }
    Ok(())
}

impl<'a> ResultWriter<'a> {
    /// A result of a query with no row yet: what stands in front of the rows is pending. The only error is out
    /// of memory.
    pub fn begin(alloc: Global, query: &'a Query) -> Result<ResultWriter<'a>, OutOfMemory>
        ensures { IfOk result (λ w. w ≡ begun query.now) }
    {
        let columns = columns_of(alloc, query)?;
        let text = front(alloc, query)?;
        Ok(ResultWriter {
            alloc,
            query,
            columns,
            has_rows: false,
            text,
        })
    }

    /// Adds a row, with a comma in front where it is not the first: an object with a member for each selected name that the row
    /// binds, in the order of the names' bytes (section 3.2.1). The only error is out of memory, and then the writer is as it
    /// was.
    pub fn row(&mut self, row: &Row) -> Result<(), OutOfMemory>
        ensures ok { OnOk result (self.new ≡ with_row self.old row.now) }
        ensures err { OnErr result (self.new ≡ self.old) }
    {
        let before = self.text.len();
        append_comma(self.has_rows, &mut self.text)?;
        match append_row(self.alloc, self.query, &self.columns, row, &mut self.text) {
            Ok(()) => {
                self.has_rows = true;
                Ok(())
            }
            Err(fault) => {
                self.text.truncate(before);
                Err(fault)
            }
        }
    }

    /// Adds the end of the text, `]}}` and LF. The only error is out of memory, and then the writer is as it was.
    pub fn finish(&mut self) -> Result<(), OutOfMemory>
        ensures ok { OnOk result (self.new ≡ with_end self.old) }
        ensures err { OnErr result (self.new ≡ self.old) }
    {
        self.text.extend_from_slice(b"]}}\n")?;
        Ok(())
    }

    /// The bytes that no sink was given yet.
    pub fn pending(&self) -> &[u8]
        ensures { result.now ≡ self.now.pending }
    {
        self.text.as_slice()
    }

    /// Gives the pending bytes to a sink; nothing is pending afterwards, and the room stays. At a fault the sink took a prefix
    /// of them. `Failed` only where the sink's count of faults rose in this call, and never over a faultless sink.
    pub fn give<K: Sink>(&mut self, out: &mut K) -> Result<(), Fault>
        ensures writes { WritesWhole self.old.pending (K.state out.old) (K.state out.new) result }
        ensures given { self.new ≡ with_nothing_pending self.old }
    {
        let given = write_all(out, &self.text);
        self.text.clear();
        given
    }
}

/// The text of the result of a query with these rows, whole. The only error is out of memory.
pub fn result_text(alloc: Global, query: &Query, rows: &[Row]) -> Result<Vec<u8>, OutOfMemory>
    ensures { IfOk result (λ v. v.items ≡ result_text query.now rows.now) }
{
    let mut writer = ResultWriter::begin(alloc, query)?;
    for row in rows {
        writer.row(row)?;
    }
    writer.finish()?;
    Ok(writer.text)
}

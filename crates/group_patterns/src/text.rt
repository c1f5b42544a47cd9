// The text of a result, from rows that are there.
ghost use Rattle.std.specs.Prelude.{◌≡◌, ◌++◌, OnOk, OnErr, IfErr};
ghost use Rattle.std.specs.Io.KnownBytes.{Appends};
ghost use Rattle.tpf_base.specs.Wrote.{AppendsPrefix, WritesWhole};
ghost use Rattle.result_json.specs.Results.{result_text};
ghost use Rattle.result_json.specs.Pieces.{begun, row_piece, end_text};
ghost use Rattle.tpf_client.specs.Causes.{IsLocal};
ghost use Rattle.tpf_client.specs.Sinks.{KeepsSink, LeavesSink};
ghost use Rattle.group_patterns.specs.Writing.{AddsRow};

use bgp_core::{Query, Row};
use result_json::{ResultWriter, laws};
use std::alloc::Global;
use tpf_base::{Fault, Sink};
use tpf_client::{ClientFault, GATHERED, of_sink};

/// Adds a row, and gives what is pending to the sink where that is much.
fn add_row<'a, K: Sink>(writer: &mut ResultWriter<'a>, row: &Row, out: &mut K) -> Result<(), Fault>
    ensures ok { OnOk result (AddsRow row.now writer.old writer.new (K.state out.old).taken (K.state out.new).taken) }
    ensures err { OnErr result (AppendsPrefix (K.state out.old).taken (K.state out.new).taken
        (writer.old.pending ++ row_piece writer.old.query writer.old.has_rows row.now)) }
    ensures sink { KeepsSink (K.state out.old) (K.state out.new) result }
{
    match writer.row(row) {
        Err(_) => Err(Fault::OutOfMemory),
        Ok(()) => {
            if writer.pending().len() >= GATHERED {
                writer.give(out)
            } else {
                Ok(())
            }
        }
    }
}

/// Adds the end of the text, and gives all that is pending to the sink.
fn finish<'a, K: Sink>(writer: &mut ResultWriter<'a>, out: &mut K) -> Result<(), Fault>
    ensures { WritesWhole (writer.old.pending ++ end_text) (K.state out.old) (K.state out.new) result }
{
    match writer.finish() {
        Ok(()) => writer.give(out),
        Err(_) => Err(Fault::OutOfMemory),
    }
}

/// Adds all rows and the end of the text, a piece at a time.
fn write_pieces<'a, K: Sink>(
    writer: &mut ResultWriter<'a>,
    rows: &[Row],
    out: &mut K,
) -> Result<(), Fault>
    requires fresh { writer.old ≡ begun writer.old.query }
    ensures ok { OnOk result (Appends (K.state out.old).taken (K.state out.new).taken
        (result_text writer.old.query rows.now)) }
    ensures err { OnErr result (AppendsPrefix (K.state out.old).taken (K.state out.new).taken
        (result_text writer.old.query rows.now)) }
    ensures sink { KeepsSink (K.state out.old) (K.state out.new) result }
{
    laws::pieces_make_the_text();
    for row in rows {
        match add_row(writer, row, out) {
            Ok(()) => {}
            Err(fault) => return Err(fault),
        }
    }
    finish(writer, out)
}

/// Writes the text of the result of a query with these rows, a piece at a time. At a fault the sink took a prefix of it.
pub(crate) fn write_rows<K: Sink>(
    alloc: Global,
    query: &Query,
    rows: &[Row],
    out: &mut K,
) -> Result<(), ClientFault>
    ensures ok { OnOk result (Appends (K.state out.old).taken (K.state out.new).taken
        (result_text query.now rows.now)) }
    ensures err { OnErr result (AppendsPrefix (K.state out.old).taken (K.state out.new).taken
        (result_text query.now rows.now)) }
    ensures local { IfErr result IsLocal }
    ensures sink { LeavesSink (K.state out.old) (K.state out.new) result }
{
    match ResultWriter::begin(alloc, query) {
        Err(_) => Err(ClientFault::OutOfMemory),
        Ok(begun) => {
            let mut writer = begun;
            match write_pieces(&mut writer, rows, out) {
                Ok(()) => Ok(()),
                Err(fault) => Err(of_sink(fault)),
            }
        }
    }
}

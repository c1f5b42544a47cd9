// A result that goes to a sink row by row.
use bgp_core::{Query, Row};
use pattern_parser::parse;
use rdf_terms::Term;
use result_json::{ResultWriter, result_text};
use std::alloc::Global;
use std::test::Fail;
use tpf_base::{Failing, MemSink};

/// The text of two rows of `SELECT ?a ?b`, of which the second binds no `b` (SPARQL 1.1 Query Results JSON Format, 3.2.1).
const TEXT: &str =
    "{\"head\":{\"vars\":[\"a\",\"b\"]},\"results\":{\"bindings\":[{\"a\":{\"type\":\"uri\",\"value\":\"http://e/1\"},\"b\":{\"type\":\"literal\",\"value\":\"x\"}},{\"a\":{\"type\":\"uri\",\"value\":\"http://e/2\"}}]}}\n";

/// Where its pieces end: what stands in front of the rows, each row, and the whole.
const ENDS: [usize; 4] = [50, 126, 168, 172];

fn row_of(alloc: Global, subject: &str, object: Option<&str>) -> Result<Row, Fail> {
    let mut row = Row::empty(alloc, 2);
    if let Some(object) = object {
        row.bind(alloc, 1, Term::plain(alloc, object)?)?;
    }
    row.bind(alloc, 0, Term::iri(alloc, subject)?)?;
    Ok(row)
}

/// Gives what is pending to the sink, and notes how many bytes it has taken then.
fn give(
    writer: &mut ResultWriter,
    out: &mut MemSink,
    lengths: &mut Vec<usize>,
) -> Result<(), Fail> {
    writer.give(out)?;
    lengths.push(out.taken().len())?;
    Ok(())
}

/// Writes the second row, and the end.
fn write_last(
    alloc: Global,
    writer: &mut ResultWriter,
    out: &mut MemSink,
    lengths: &mut Vec<usize>,
) -> Result<(), Fail> {
    writer.row(&row_of(alloc, "http://e/2", None)?)?;
    give(writer, out, lengths)?;
    writer.finish()?;
    give(writer, out, lengths)
}

/// Writes the rows, and the end.
fn write_on(
    alloc: Global,
    writer: &mut ResultWriter,
    out: &mut MemSink,
    lengths: &mut Vec<usize>,
) -> Result<(), Fail> {
    give(writer, out, lengths)?;
    writer.row(&row_of(alloc, "http://e/1", Some("x"))?)?;
    give(writer, out, lengths)?;
    write_last(alloc, writer, out, lengths)
}

fn write_rows(
    alloc: Global,
    query: &Query,
    out: &mut MemSink,
    lengths: &mut Vec<usize>,
) -> Result<(), Fail> {
    let mut writer = ResultWriter::begin(alloc, query)?;
    write_on(alloc, &mut writer, out, lengths)
}

/// The text of the same rows, made at once.
fn whole_text(alloc: Global, query: &Query) -> Result<Vec<u8>, Fail> {
    let mut rows = Vec::new(alloc);
    rows.push(row_of(alloc, "http://e/1", Some("x"))?)?;
    rows.push(row_of(alloc, "http://e/2", None)?)?;
    Ok(result_text(alloc, query, rows.as_slice())?)
}

/// Whether the rows go to a sink in pieces that end where they are to end.
fn are_written(alloc: Global, query: &Query) -> Result<bool, Fail> {
    let mut out = MemSink::new(alloc, Failing::Never);
    let mut lengths = Vec::new(alloc);
    write_rows(alloc, query, &mut out, &mut lengths)?;
    Ok(out.taken() == TEXT.as_bytes() && lengths.as_slice() == ENDS.as_slice())
}

/// Whether the rows are written so, one by one and at once.
fn are_both(alloc: Global, query: &Query) -> Result<(bool, bool), Fail> {
    let whole = whole_text(alloc, query)?;
    Ok((
        are_written(alloc, query)?,
        whole.as_slice() == TEXT.as_bytes(),
    ))
}

#[test]
fn rows_go_to_the_sink_one_by_one(rt: HostRuntime) -> Result<(), Fail> {
    let query = parse(rt.alloc(), b"SELECT ?a ?b WHERE { ?a <http://e/p> ?b }")?;
    assert_eq!(rt; are_both(rt.alloc(), &query)?, (true, true));
    Ok(())
}

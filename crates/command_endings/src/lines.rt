// Lines on the standard error, and the one on the output.
ghost use Rattle.std.specs.Prelude.{◌≡◌, ◌++◌, codes, decimal, IfOk};
ghost use Rattle.std.specs.List.{flat_map};
ghost use Rattle.tpf_base.specs.Wrote.{WritesWhole};
ghost use Rattle.data_files.specs.Kept.{KeepsSink};
ghost use Rattle.command_endings.specs.Statuses.{code_of};
ghost use Rattle.command_endings.specs.Lines.{SaysLine, version_text, counts_text, versions_text, sizes_text};

use crate::status::Status;
use answer_faults::Counts;
use itoa::Buffer;
use std::alloc::Global;
use tpf_base::{Fault, OutOfMemory, Sink, write_all};

/// Writes a line, and gives the status where that did not run out of memory, and else 8. A failure is
/// passed over.
pub fn write_line<E: Sink>(err: &mut E, line: &[u8], status: Status) -> Status
    ensures says { SaysLine (code_of result) (code_of status) line.now (E.state err.old) (E.state err.new) }
    ensures keeps { KeepsSink (E.state err.old) (E.state err.new) }
{
    match write_all(err, line) {
        Ok(()) | Err(Fault::Failed) => status,
        Err(Fault::OutOfMemory) => Status::Memory,
    }
}

/// The parts, one behind another.
fn line_of(alloc: Global, parts: &[&[u8]]) -> Result<Vec<u8>, OutOfMemory>
    ensures { IfOk result (λ v. v.items ≡ flat_map (λ p. p.now) parts.now) }
{
    let mut text = Vec::new(alloc);
    for part in parts {
        text.extend_from_slice(part)?;
    }
    Ok(text)
}

/// A front, a number, the name of a fault and LF.
fn fault_line(alloc: Global, front: &[u8], n: u64, why: &[u8]) -> Result<Vec<u8>, OutOfMemory>
    ensures { IfOk result (λ v. v.items ≡ front.now ++ decimal n ++ codes ": " ++ why.now ++ codes "\n") }
{
    let mut buffer = Buffer::new();
    let number = buffer.format(n).as_bytes();
    line_of(alloc, &[front, number, b": ", why, b"\n"])
}

/// A front, a name and LF.
fn named_line(alloc: Global, front: &[u8], name: &[u8]) -> Result<Vec<u8>, OutOfMemory>
    ensures { IfOk result (λ v. v.items ≡ front.now ++ name.now ++ codes "\n") }
{
    line_of(alloc, &[front, name, b"\n"])
}

/// A front, a number and LF.
fn number_line(alloc: Global, front: &[u8], n: u64) -> Result<Vec<u8>, OutOfMemory>
    ensures { IfOk result (λ v. v.items ≡ front.now ++ decimal n ++ codes "\n") }
{
    let mut buffer = Buffer::new();
    let number = buffer.format(n).as_bytes();
    named_line(alloc, front, number)
}

/// A front, a number, the number of the rows and LF.
fn rows_line(alloc: Global, front: &[u8], n: u64, rows: u64) -> Result<Vec<u8>, OutOfMemory>
    ensures { IfOk result (λ v. v.items ≡ front.now ++ decimal n ++ codes " rows " ++ decimal rows ++ codes "\n") }
{
    let mut buffer = Buffer::new();
    let number = buffer.format(n).as_bytes();
    let mut other = Buffer::new();
    let count = other.format(rows).as_bytes();
    line_of(alloc, &[front, number, b" rows ", count, b"\n"])
}

/// A version, or `none`.
fn version_text(buffer: &mut Buffer, version: Option<u64>) -> &[u8]
    ensures { result.now ≡ version_text version }
{
    match version {
        Some(n) => buffer.format(n).as_bytes(),
        None => b"none",
    }
}

/// Two versions.
fn versions_line(
    alloc: Global,
    first: Option<u64>,
    other: Option<u64>,
) -> Result<Vec<u8>, OutOfMemory>
    ensures { IfOk result (λ v. v.items ≡ versions_text first other) }
{
    let mut buffer = Buffer::new();
    let one = version_text(&mut buffer, first);
    let mut buffer = Buffer::new();
    let two = version_text(&mut buffer, other);
    line_of(alloc, &[b"changed: ", one, b" ", two, b"\n"])
}

/// Writes a line that is a front, a number, the name of a fault and LF.
pub fn write_fault<E: Sink>(
    alloc: Global,
    err: &mut E,
    front: &[u8],
    n: u64,
    why: &[u8],
    status: Status,
) -> Status
    ensures says { SaysLine (code_of result) (code_of status)
        (front.now ++ decimal n ++ codes ": " ++ why.now ++ codes "\n") (E.state err.old) (E.state err.new) }
    ensures keeps { KeepsSink (E.state err.old) (E.state err.new) }
{
    match fault_line(alloc, front, n, why) {
        Ok(text) => write_line(err, &text, status),
        Err(_) => Status::Memory,
    }
}

/// Writes a line that is a front, a name and LF.
pub fn write_named<E: Sink>(
    alloc: Global,
    err: &mut E,
    front: &[u8],
    name: &[u8],
    status: Status,
) -> Status
    ensures says { SaysLine (code_of result) (code_of status) (front.now ++ name.now ++ codes "\n")
        (E.state err.old) (E.state err.new) }
    ensures keeps { KeepsSink (E.state err.old) (E.state err.new) }
{
    match named_line(alloc, front, name) {
        Ok(text) => write_line(err, &text, status),
        Err(_) => Status::Memory,
    }
}

/// Writes a line that is a front, a number and LF.
pub fn write_number<E: Sink>(
    alloc: Global,
    err: &mut E,
    front: &[u8],
    n: u64,
    status: Status,
) -> Status
    ensures says { SaysLine (code_of result) (code_of status) (front.now ++ decimal n ++ codes "\n")
        (E.state err.old) (E.state err.new) }
    ensures keeps { KeepsSink (E.state err.old) (E.state err.new) }
{
    match number_line(alloc, front, n) {
        Ok(text) => write_line(err, &text, status),
        Err(_) => Status::Memory,
    }
}

/// Writes the counts of requests and of rows, with status 0.
pub fn write_counts<E: Sink>(alloc: Global, err: &mut E, requests: u64, rows: u64) -> Status
    ensures says { SaysLine (code_of result) 0 (counts_text requests rows) (E.state err.old) (E.state err.new) }
    ensures keeps { KeepsSink (E.state err.old) (E.state err.new) }
{
    match rows_line(alloc, b"requests ", requests, rows) {
        Ok(text) => write_line(err, &text, Status::Done),
        Err(_) => Status::Memory,
    }
}

/// Writes the numbers of the triples and of the rows to the output. `Failed` only where its count of faults
/// rose; a front of the line may have been written then.
pub fn write_sizes<K: Sink>(alloc: Global, out: &mut K, counts: Counts) -> Result<(), Fault>
    ensures { WritesWhole (sizes_text counts) (K.state out.old) (K.state out.new) result }
{
    match rows_line(alloc, b"triples ", counts.triples, counts.rows) {
        Ok(text) => write_all(out, &text),
        Err(_) => Err(Fault::OutOfMemory),
    }
}

/// Writes two versions, with status 11.
pub fn write_versions<E: Sink>(
    alloc: Global,
    err: &mut E,
    first: Option<u64>,
    other: Option<u64>,
) -> Status
    ensures says { SaysLine (code_of result) 11 (versions_text first other) (E.state err.old) (E.state err.new) }
    ensures keeps { KeepsSink (E.state err.old) (E.state err.new) }
{
    match versions_line(alloc, first, other) {
        Ok(text) => write_line(err, &text, Status::Changed),
        Err(_) => Status::Memory,
    }
}

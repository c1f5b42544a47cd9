// The rows of a file.
ghost use Rattle.std.specs.Prelude.{◌≡◌, ◌+◌, length, filter, if◌then◌else◌, IfOk, OnOk};
ghost use Rattle.case_rows.specs.Rows.{begins_row};

use std::alloc::{AllocError, Global};

/// The lines of a row, one behind the other.
#[derive(Drop)]
pub struct Row {
    /// The number of the line with which the row begins, from 1.
    pub line: usize,
    pub text: String,
}

/// Whether a line begins a row: it is not empty, and begins with no blank.
fn begins(line: &[u8]) -> bool
    ensures { result ≡ begins_row line.now }
{
    line.len() > 0 && line[0] != b' '
}

/// Appends a line to the row above it, if there is one.
fn continue_row(rows: &mut Vec<Row>, line: &str) -> Result<(), AllocError>
    ensures { length rows.new.items ≡ length rows.old.items }
{
    if let Some(row) = rows.last_mut() {
        row.text.push_str(line)?;
    }
    Ok(())
}

/// Takes a line: it begins a row, or belongs to the one above it.
fn take_line(
    alloc: Global,
    rows: &mut Vec<Row>,
    line: &str,
    number: usize,
) -> Result<(), AllocError>
    ensures { OnOk result (length rows.new.items ≡ length rows.old.items + (if begins_row line.now then 1 else 0)) }
{
    if begins(line.as_bytes()) {
        rows.push(Row {
            line: number,
            text: String::from_str(alloc, line)?,
        })?;
        return Ok(());
    }
    continue_row(rows, line)
}

/// The rows of lines: as many as begin one.
pub fn rows_of(alloc: Global, lines: &[&str]) -> Result<Vec<Row>, AllocError>
    ensures { IfOk result (λ rows. length rows.items ≡ length (filter (λ line. begins_row line.now) lines.now)) }
{
    let mut rows = Vec::new(alloc);
    let mut number = 0usize;
    for line in lines {
        number = number.saturating_add(1);
        take_line(alloc, &mut rows, line, number)?;
    }
    Ok(rows)
}

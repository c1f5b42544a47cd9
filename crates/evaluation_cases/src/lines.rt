// Rows as lines of text.
use bgp_core::Row;
use case_rows::{CaseFault, text_of_bytes};
use nquads_text::canonical;
use std::alloc::Global;
use tpf_base::OutOfMemory;

/// Adds the term of a name in canonical form, or `-`, with a space behind it.
fn add_term(row: &Row, name: u32, bytes: &mut Vec<u8>) -> Result<(), OutOfMemory> {
    match row.term(name) {
        Some(term) => canonical(term, bytes)?,
        None => bytes.push(b'-')?,
    }
    Ok(bytes.push(b' ')?)
}

/// Adds the terms of a row in canonical form, with a space behind each, in the order of the query's names.
fn add_terms(row: &Row, bytes: &mut Vec<u8>) -> Result<(), OutOfMemory> {
    for name in 0..row.len() {
        match u32::try_from(name) {
            Ok(name) => add_term(row, name, bytes)?,
            Err(_) => return Err(OutOfMemory),
        }
    }
    Ok(())
}

/// The line of a row.
fn line(alloc: Global, row: &Row) -> Result<String, CaseFault> {
    let mut bytes = Vec::new(alloc);
    match add_terms(row, &mut bytes) {
        Ok(()) => text_of_bytes(bytes),
        Err(_) => Err(CaseFault::OutOfMemory),
    }
}

/// Adds the line of a row.
pub fn add_row(alloc: Global, row: &Row, rows: &mut Vec<String>) -> Result<(), CaseFault> {
    Ok(rows.push(line(alloc, row)?)?)
}

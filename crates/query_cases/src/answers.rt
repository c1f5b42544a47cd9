// The answers of a query over the rows of its blocks.
use crate::rows::{blocks_of, word_of};
use bgp_core::{Query, Row};
use case_rows::{Case, CaseFault};
use group_parser::parse_group;
use group_query::GroupQuery;
use group_rows::evaluate;
use std::alloc::Global;

/// Appends a mark and a text behind it.
fn push_behind(mark: &str, text: &str, out: &mut String) -> Result<(), CaseFault> {
    out.push_str(mark)?;
    Ok(out.push_str(text)?)
}

/// The words of the selected names in a row.
fn row_text(alloc: Global, shown: &Query, row: &Row) -> Result<String, CaseFault> {
    let mut out = String::new(alloc);
    for (i, name) in shown.selected().iter().enumerate() {
        let mark = if i == 0 { "" } else { " " };
        push_behind(mark, word_of(row, *name), &mut out)?;
    }
    Ok(out)
}

/// The texts of rows, in the order in which they stand.
fn row_texts(alloc: Global, shown: &Query, rows: &[Row]) -> Result<Vec<String>, CaseFault> {
    let mut texts = Vec::new(alloc);
    for row in rows {
        texts.push(row_text(alloc, shown, row)?)?;
    }
    Ok(texts)
}

/// How many texts there are, and they, with `; ` between each two.
fn counted_text(alloc: Global, texts: &[String]) -> Result<String, CaseFault> {
    let mut out = format!(in alloc; "{}:", texts.len())?;
    for (i, text) in texts.iter().enumerate() {
        push_behind(if i == 0 { " " } else { "; " }, text.as_str(), &mut out)?;
    }
    Ok(out)
}

/// The rows of a query in the order of their bytes, with `; ` between each two.
pub fn rows_text(alloc: Global, shown: &Query, rows: &[Row]) -> Result<String, CaseFault> {
    let mut texts = row_texts(alloc, shown, rows)?;
    texts.sort()?;
    counted_text(alloc, texts.as_slice())
}

/// The rows of a query over the rows of its blocks.
fn answer(alloc: Global, query: &GroupQuery, texts: &[String]) -> Result<String, CaseFault> {
    let shown = query.shown();
    let blocks = blocks_of(alloc, shown.names().len(), texts)?;
    match evaluate(alloc, query, blocks) {
        Ok(rows) => rows_text(alloc, shown, rows.as_slice()),
        Err(_) => Err(CaseFault::OutOfMemory),
    }
}

/// `text`, `blocks`: how many rows a query has over the rows of its blocks, in the order in which they are written, and
/// the rows in the order of their bytes. A block is given by its rows, each on a line with a word for each name of the query
/// (the variables and blank nodes by their first place), and `-` where it does not bind the name; a row of the answer is
/// shown so, for the selected names.
pub fn answers(alloc: Global, case: &mut Case<'_>) -> Result<String, CaseFault> {
    let text = case.bytes(alloc, "text")?;
    let texts = case.texts(alloc, "blocks")?;
    match parse_group(alloc, text.as_slice()) {
        Ok(query) => answer(alloc, &query, texts.as_slice()),
        Err(_) => Err(CaseFault::Row),
    }
}

// Texts of results whose rows may come in any order.
use crate::CaseFault;
use crate::answer_text::word_text;
use std::alloc::Global;

/// The rows of a result's text, which has at least one, without the first brace and the last.
fn rows_in(text: &str) -> Option<(&str, &str)> {
    let Some((front, rest)) = text.split_once("\"bindings\":[{") else {
        return None;
    };
    match rest.strip_suffix("}]}}\n") {
        Some(rows) => Some((front, rows)),
        None => None,
    }
}

/// Rows in the order of their bytes.
fn sorted_rows(alloc: Global, rows: &str) -> Result<String, CaseFault> {
    let mut parts: Vec<&str> = rows.split("},{").collect(alloc)?;
    parts.sort_unstable();
    Ok(parts.as_slice().join(alloc, "},{")?)
}

/// The text of a result with these rows.
fn with_rows(alloc: Global, front: &str, rows: &str) -> Result<String, CaseFault> {
    Ok(format!(in alloc; "{front}\"bindings\":[{{{rows}}}]}}}}\n")?)
}

/// The text of a result with its rows in the order of their bytes; a text without a row as it is.
pub fn sorted_result(alloc: Global, text: &str) -> Result<String, CaseFault> {
    let Some((front, rows)) = rows_in(text) else {
        return word_text(alloc, text);
    };
    let rows = sorted_rows(alloc, rows)?;
    with_rows(alloc, front, rows.as_str())
}

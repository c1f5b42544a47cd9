// What is seen of a run, and what is shown of it.
use case_rows::{CaseFault, push_number};
use std::alloc::Global;

/// What is seen of a run.
#[derive(Drop)]
pub struct Seen {
    /// The addresses that were asked for.
    pub asked: Vec<String>,
    /// The lines of the rows that came.
    pub rows: Vec<String>,
    /// How many asks were out before the first was answered.
    pub first_out: usize,
    /// How many nodes were open at most.
    pub most_open: usize,
    /// How many turns it took.
    pub turns: usize,
}

/// Adds lines in ascending order, with a line feed behind each.
fn push_sorted(lines: &mut Vec<String>, out: &mut String) -> Result<(), CaseFault> {
    lines.sort()?;
    for line in lines.as_slice() {
        out.push_str(line.as_str())?;
        out.push('\n')?;
    }
    Ok(())
}

/// Adds a number, with a line feed behind it.
fn push_line(alloc: Global, number: usize, out: &mut String) -> Result<(), CaseFault> {
    push_number(alloc, number as u64, out)?;
    Ok(out.push('\n')?)
}

/// The number of the first text that has another in it.
fn first_with(texts: &[String], part: &str) -> usize {
    for i in 0..texts.len() {
        if texts[i].as_str().contains(part) {
            return i;
        }
    }
    texts.len()
}

/// Whether the first text that has the first of two parts in it stands before the first that has the second.
fn is_before(texts: &[String], parts: &str) -> Result<bool, CaseFault> {
    let Some((one, other)) = parts.split_once(' ') else {
        return Err(CaseFault::Row);
    };
    Ok(first_with(texts, one) < first_with(texts, other))
}

/// Whether what a word says of the text behind it is so.
fn is_so(seen: &Seen, word: &str) -> Result<bool, CaseFault> {
    let Some((word, text)) = word.split_once(' ') else {
        return Err(CaseFault::Row);
    };
    match word {
        "open" => Ok(seen.most_open <= text.parse::<usize>().unwrap_or(0)),
        "before" => is_before(seen.asked.as_slice(), text),
        _ => Err(CaseFault::Row),
    }
}

/// Adds what a word shows of a run.
fn push_shown(
    alloc: Global,
    seen: &mut Seen,
    word: &str,
    out: &mut String,
) -> Result<(), CaseFault> {
    match word {
        "asked" => push_sorted(&mut seen.asked, out),
        "rows" => push_sorted(&mut seen.rows, out),
        "asks" => push_line(alloc, seen.asked.len(), out),
        "row_count" => push_line(alloc, seen.rows.len(), out),
        "first_out" => push_line(alloc, seen.first_out, out),
        "turns" => push_line(alloc, seen.turns, out),
        _ => {
            let so = is_so(seen, word)?;
            Ok(out.push_str(if so { "true\n" } else { "false\n" })?)
        }
    }
}

/// What words show of a run, one behind the other: the addresses that were `asked` for, and the `rows`, each on a line, in
/// ascending order; how many `asks` there were, the `row_count`, how many asks were out before the first was answered
/// (`first_out`), and how many `turns` it took; with `open N` whether at most N nodes were open, and with `before ONE OTHER`
/// whether an address with the first part was asked for before each with the second. What is `before` stands before `asked`,
/// which sorts.
pub fn shown(alloc: Global, seen: &mut Seen, words: &[String]) -> Result<String, CaseFault> {
    let mut out = String::new(alloc);
    for word in words {
        push_shown(alloc, seen, word.as_str(), &mut out)?;
    }
    Ok(out)
}

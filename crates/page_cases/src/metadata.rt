// The metadata of a page.
ghost use Rattle.std.specs.Prelude.{◌≡◌, ◌≤◌};
ghost use Rattle.std.specs.List.{AllByRecursion};
ghost use Rattle.rdf_terms.specs.Fragments.{last_page_of};
ghost use Rattle.template_fill.specs.Forms.{HasNoBlank};

use crate::controls::config_of;
use crate::slots::rows_of;
use case_rows::{Case, CaseFault, number_text, numbers_text};
use case_slots::slots_of;
use hydra_controls::{Config, MetadataLines};
use metadata_quads::metadata;
use nquads_text::write_quad;
use rdf_terms::{Quad, Slots};
use std::alloc::Global;
use std::str;

/// Lines one behind the other, and their lengths.
#[derive(Drop)]
pub struct Lines {
    pub text: Vec<u8>,
    lengths: Vec<u64>,
}

/// Appends the line of a quad.
fn push_quad(quad: &Quad, lines: &mut Lines) -> Result<(), CaseFault> {
    let before = lines.text.len();
    if write_quad(quad, &mut lines.text).is_err() {
        return Err(CaseFault::OutOfMemory);
    }
    let length = lines.text.len().saturating_sub(before);
    Ok(lines.lengths.push(length as u64)?)
}

/// The lines of quads.
fn written(alloc: Global, quads: &[Quad]) -> Result<Lines, CaseFault> {
    let mut lines = Lines {
        text: Vec::new(alloc),
        lengths: Vec::new(alloc),
    };
    for quad in quads {
        push_quad(quad, &mut lines)?;
    }
    Ok(lines)
}

/// Appends the line in this place, and says whether that is all of it, and it is as long as is said of it.
fn make_line(lines: &MetadataLines, i: usize, text: &mut Vec<u8>) -> Result<bool, CaseFault> {
    if i >= lines.count() {
        return Ok(false);
    }
    let before = text.len();
    match lines.write_part(i, 0, usize::MAX, text) {
        Ok(more) => Ok(!more && lines.length(i) == text.len().saturating_sub(before) as u128),
        Err(_) => Err(CaseFault::OutOfMemory),
    }
}

/// Appends the lines before this place, and says whether each is as long as is said of it.
fn make_lines(lines: &MetadataLines, count: usize, text: &mut Vec<u8>) -> Result<bool, CaseFault> {
    let mut is_said = true;
    for i in 0..count {
        is_said = make_line(lines, i, text)? && is_said;
    }
    Ok(is_said)
}

/// Whether lines that are made one by one are these, and each is as long as is said of it.
fn are_made(alloc: Global, lines: &MetadataLines, wanted: &Lines) -> Result<bool, CaseFault> {
    let count = wanted.lengths.len();
    let mut text = Vec::new(alloc);
    let is_said = make_lines(lines, count, &mut text)?;
    Ok(is_said && lines.count() == count && text.as_slice() == wanted.text.as_slice())
}

/// The number of a page, how many triples its fragment has, and the version of the data.
#[derive(Clone, Copy)]
struct Numbers {
    page: u64,
    count: u64,
    version: u64,
}

/// `page`, `count`, `version`: the numbers of a page.
fn numbers_of(case: &mut Case<'_>) -> Result<Numbers, CaseFault> {
    Ok(Numbers {
        page: case.number("page")?,
        count: case.number("count")?,
        version: case.number("version")?,
    })
}

/// The last page of so many triples, of which a page has at most `size`.
fn last_page(count: u64, size: u64) -> u64
    requires { 1 ≤ size }
    ensures { result ≡ last_page_of count size }
{
    count.div_ceil(size).max(1)
}

/// The lines of the metadata of a page, where there is such a page.
fn wanted_of(
    alloc: Global,
    config: &Config,
    slots: &Slots,
    rows: &[Slots],
    numbers: Numbers,
) -> Result<Lines, CaseFault>
    requires slots { HasNoBlank slots.now }
    requires rows { AllByRecursion HasNoBlank rows.now }
{
    let Numbers {
        page,
        count,
        version,
    } = numbers;
    if page == 0 || page > last_page(count, config.page_size()) {
        return Err(CaseFault::Row);
    }
    match metadata(alloc, config, slots, rows, page, count, version) {
        Ok(quads) => written(alloc, quads.as_slice()),
        Err(_) => Err(CaseFault::OutOfMemory),
    }
}

/// Whether the lines that are made one by one are these.
fn is_made(
    alloc: Global,
    config: &Config,
    slots: &Slots,
    rows: &[Slots],
    numbers: Numbers,
    wanted: &Lines,
) -> Result<bool, CaseFault>
    requires slots { HasNoBlank slots.now }
    requires rows { AllByRecursion HasNoBlank rows.now }
{
    let Numbers {
        page,
        count,
        version,
    } = numbers;
    if page == 0 {
        return Err(CaseFault::Row);
    }
    match MetadataLines::new(alloc, config, slots, rows, page, count, version) {
        Ok(lines) => are_made(alloc, &lines, wanted),
        Err(_) => Err(CaseFault::OutOfMemory),
    }
}

/// The lines of the metadata of a page, where those that are made one by one are the same.
fn agreed(
    alloc: Global,
    config: &Config,
    slots: &Slots,
    rows: &[Slots],
    numbers: Numbers,
) -> Result<Lines, CaseFault>
    requires slots { HasNoBlank slots.now }
    requires rows { AllByRecursion HasNoBlank rows.now }
{
    let wanted = wanted_of(alloc, config, slots, rows, numbers)?;
    if is_made(alloc, config, slots, rows, numbers, &wanted)? {
        return Ok(wanted);
    }
    Err(CaseFault::Differs)
}

/// `subject`, `predicate`, `object`, `rows`: the same of the page with these numbers.
fn lines_in(
    alloc: Global,
    case: &mut Case<'_>,
    config: &Config,
    numbers: Numbers,
) -> Result<Lines, CaseFault> {
    let slots = slots_of(alloc, case)?;
    let rows = rows_of(alloc, case)?;
    agreed(alloc, config, &slots, &rows, numbers)
}

/// `base`, `page_size`, `subject`, `predicate`, `object`, `rows`, `page`, `count`, `version`: the metadata of the page.
/// They are made one by one too, which has to give the same lines.
pub fn lines_of(alloc: Global, case: &mut Case<'_>) -> Result<Lines, CaseFault> {
    let numbers = numbers_of(case)?;
    let config = config_of(alloc, case)?;
    lines_in(alloc, case, &config, numbers)
}

/// The lengths of lines, with a blank behind each.
fn lengths_text(alloc: Global, lengths: &[u64]) -> Result<String, CaseFault> {
    let mut out = numbers_text(alloc, lengths)?;
    out.push(' ')?;
    Ok(out)
}

/// Appends a line and its end.
fn push_line(line: &str, out: &mut String) -> Result<(), CaseFault> {
    out.push_str(line)?;
    Ok(out.push('\n')?)
}

/// The lines from this one on, at most so many, as text.
fn lines_text(alloc: Global, lines: &[u8], from: u64, most: u64) -> Result<String, CaseFault> {
    let text = str::from_utf8(lines).unwrap_or("no text");
    let mut out = String::new(alloc);
    for line in text.lines().skip(from as usize).take(most as usize) {
        push_line(line, &mut out)?;
    }
    Ok(out)
}

/// `from`, `most`: the lines from this one on, at most so many.
fn some_lines(alloc: Global, case: &mut Case<'_>, lines: &Lines) -> Result<String, CaseFault> {
    let from = case.number("from")?;
    let most = case.number("most")?;
    lines_text(alloc, lines.text.as_slice(), from, most)
}

/// The length of the first line.
fn first_length(alloc: Global, lines: &Lines) -> Result<String, CaseFault> {
    match lines.lengths.first() {
        Some(length) => number_text(alloc, *length),
        None => Err(CaseFault::Row),
    }
}

/// What is to be shown of lines.
fn shown(
    alloc: Global,
    case: &mut Case<'_>,
    lines: &Lines,
    show: &str,
) -> Result<String, CaseFault> {
    match show {
        "lengths" => lengths_text(alloc, lines.lengths.as_slice()),
        "lines" => some_lines(alloc, case, lines),
        "bytes" => number_text(alloc, lines.text.len() as u64),
        "count" => number_text(alloc, lines.lengths.len() as u64),
        "line_length" => first_length(alloc, lines),
        _ => Err(CaseFault::Row),
    }
}

/// The page of the row, as `lines_of` has it, and `show`: the `lengths` of its lines, the number of `bytes` in all, the
/// number of lines, `count`, or the `line_length` of the first; or `lines`, from `from` on at most `most`.
pub fn metadata_lines(alloc: Global, case: &mut Case<'_>) -> Result<String, CaseFault> {
    let show = case.text(alloc, "show")?;
    let lines = lines_of(alloc, case)?;
    shown(alloc, case, &lines, show.as_str())
}

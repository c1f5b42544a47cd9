// Rows cut to some of their names.
ghost use Rattle.std.specs.Prelude.{◌≡◌, ◌<◌, map, length, replicate, false, IfOk};
ghost use Rattle.std.specs.List.{AllByRecursion, list_all};
ghost use Rattle.bgp_core.specs.Merging.{kept};
ghost use Rattle.group_rows.specs.Evaluation.{is_blank_text, variables, marked, selection};

use bgp_core::{Query, Row};
use std::alloc::Global;
use text_base::{OutOfMemory, Text};

fn is_blank_text(text: &str) -> bool
    ensures { result ≡ is_blank_text text.now }
{
    matches!(text.as_bytes(), [b'_', b':', ..])
}

/// For each name whether it is a variable.
pub fn variables(alloc: Global, names: &[Text]) -> Result<Vec<bool>, OutOfMemory>
    ensures { IfOk result (λ v. v.items ≡ variables names.now) }
{
    let mut flags = Vec::with_capacity(alloc, names.len())?;
    for name in names {
        flags.push(!is_blank_text(name.as_str()))?;
    }
    Ok(flags)
}

/// So many flags that are not set.
fn unset(alloc: Global, count: usize) -> Result<Vec<bool>, OutOfMemory>
    ensures { IfOk result (λ v. v.items ≡ replicate count false) }
{
    let mut flags = Vec::with_capacity(alloc, count)?;
    for _ in 0..count {
        flags.push(false)?;
    }
    Ok(flags)
}

fn mark(numbers: &[u32], flags: &mut [bool])
    requires { AllByRecursion (λ n. n < length flags.old) numbers.now }
    ensures { flags.new ≡ marked numbers.now flags.old }
{
    for number in numbers {
        flags[*number as usize] = true;
    }
}

/// For each name whether it is selected.
pub fn selection(alloc: Global, shown: &Query) -> Result<Vec<bool>, OutOfMemory>
    ensures { IfOk result (λ v. v.items ≡ selection shown.now.names shown.now.selected) }
{
    let mut flags = unset(alloc, shown.names().len())?;
    mark(shown.selected(), &mut flags);
    Ok(flags)
}

/// Whether all flags are set.
fn all_set(flags: &[bool]) -> bool
    ensures { result ≡ list_all (λ flag. flag) flags.now }
{
    for flag in flags {
        if !*flag {
            return false;
        }
    }
    true
}

fn cut_each(alloc: Global, flags: &[bool], rows: &[Row]) -> Result<Vec<Row>, OutOfMemory>
    ensures { IfOk result (λ v. v.items ≡ map (kept flags.now) rows.now) }
{
    let mut cut = Vec::with_capacity(alloc, rows.len())?;
    for row in rows {
        cut.push(row.kept(alloc, flags)?)?;
    }
    Ok(cut)
}

/// The rows with the names alone whose flags are set. Where all are, it takes no memory.
pub fn cut(alloc: Global, flags: &[bool], rows: Vec<Row>) -> Result<Vec<Row>, OutOfMemory>
    ensures { IfOk result (λ v. v.items ≡ map (kept flags.now) rows.items) }
{
    if all_set(flags) {
        return Ok(rows);
    }
    cut_each(alloc, flags, rows.as_slice())
}

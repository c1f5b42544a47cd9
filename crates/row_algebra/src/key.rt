// The terms by which rows are found.
ghost use Rattle.std.specs.Prelude.{◌≡◌, ◌&&◌, ◌++◌, IfOk, OnOk, option_copied};
ghost use Rattle.std.specs.List.{AllByRecursion};
ghost use Rattle.bgp_core.specs.Solutions.{term_at};
ghost use Rattle.row_algebra.specs.Finding.{key_of, terms_of, all_bind, shared_name, BindsAll};

use bgp_core::Row;
use rdf_terms::Term;
use std::alloc::Global;
use text_base::OutOfMemory;

/// The terms of some names in a row, in the order of the names; nothing for one that is not bound.
pub type Key<'a> = Vec<Option<&'a Term>>;

fn term_of<'a>(row: &'a Row, name: u32) -> Option<&'a Term>
    ensures { option_copied result ≡ term_at row.entry.now name }
{
    row.term(name)
}

pub fn key_of<'a>(alloc: Global, names: &[u32], row: &'a Row) -> Result<Key<'a>, OutOfMemory>
    ensures { IfOk result (λ key. terms_of key ≡ key_of names.now row.entry.now) }
{
    let mut key = Vec::with_capacity(alloc, names.len())?;
    for name in names {
        key.push(term_of(row, *name))?;
    }
    Ok(key)
}

/// Whether each row binds a name.
fn all_bind(rows: &[Row], name: u32) -> bool
    ensures { result ≡ all_bind name rows.now }
{
    for row in rows {
        if row.term(name).is_none() {
            return false;
        }
    }
    true
}

/// Whether each row of both lists binds a name.
fn both_bind(left: &[Row], right: &[Row], name: u32) -> bool
    ensures { result ≡ (all_bind name left.now && all_bind name right.now) }
{
    all_bind(left, name) && all_bind(right, name)
}

/// Adds a name, if each row of both lists binds it.
fn add_shared(
    left: &[Row],
    right: &[Row],
    name: u32,
    names: &mut Vec<u32>,
) -> Result<(), OutOfMemory>
    ensures { OnOk result (names.new.items ≡ names.old.items ++ shared_name left.now right.now name) }
{
    if both_bind(left, right, name) {
        names.push(name)?;
    }
    Ok(())
}

/// The names that all rows of both lists bind; none where there is no row on the left.
pub fn shared_names(alloc: Global, left: &[Row], right: &[Row]) -> Result<Vec<u32>, OutOfMemory>
    ensures left { IfOk result (λ names. AllByRecursion (BindsAll names.items) left.now) }
    ensures right { IfOk result (λ names. AllByRecursion (BindsAll names.items) right.now) }
{
    let mut names = Vec::new(alloc);
    let Some(first) = left.first() else {
        return Ok(names);
    };
    let bound = first.bound_names(alloc)?;
    for name in &bound {
        add_shared(left, right, *name, &mut names)?;
    }
    Ok(names)
}

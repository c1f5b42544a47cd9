// Pages of what rows leave of a fragment, compared with the whole fragment filtered by the rows.
ghost use Rattle.std.specs.Prelude.{◌≡◌, ◌<◌, ◌≤◌, length};
ghost use Rattle.rdf_terms.specs.declared.limits.TheConstants.{MOST_ROWS};
ghost use Rattle.triple_table.specs.Stored.{IsIdTriple, IsRange, held_terms};

use crate::plain::slots;
use fragment_pages::page;
use rdf_terms::{MOST_ROWS, Slots};
use restricted_pages::restricted_page;
use std::alloc::Global;
use std::marker::Brand;
use std::ops;
use std::sync::ledger::{Blank, Ledger};
use std::test::Fail;
use template_fill::LARGEST_PAGE;
use test_servers::table_of;
use tpf_base::Steps;
use triple_table::{IdTriple, Range, Table};

/// How many triples there are, each of another subject: 85 of each of 70 objects.
const TRIPLES: u32 = 5950;

/// The line of the triple of a subject and an object, by their numbers.
fn line(alloc: Global, subject: u32, object: u32) -> Result<String, Fail> {
    Ok(format!(in alloc; "<http://e/s{subject}> <http://e/k> <http://e/o{object}> .\n")?)
}

/// The lines of the triples.
fn data(alloc: Global) -> Result<String, Fail> {
    let mut text = String::new(alloc);
    for i in 0..TRIPLES {
        let line = line(alloc, 1000 + i, 10 + i % 70)?;
        text.push_str(&line)?;
    }
    Ok(text)
}

fn table(alloc: Global) -> Result<Table, Fail> {
    let text = data(alloc)?;
    Ok(table_of(alloc, &text)?)
}

/// The slots that a number between two texts gives.
fn row(alloc: Global, front: &str, number: u32, end: &str) -> Result<Slots, Fail> {
    let texts = format!(in alloc; "{front}{number}{end}")?;
    slots(alloc, &texts)
}

/// Adds the slots of the numbers of a range between two texts.
fn add_rows(
    alloc: Global,
    front: &str,
    numbers: ops::Range<u32>,
    end: &str,
    rows: &mut Vec<Slots>,
) -> Result<(), Fail> {
    for number in numbers {
        rows.push(row(alloc, front, number, end)?)?;
    }
    Ok(())
}

/// The rows of the first so many objects, and behind them those of the first so many subjects.
fn rows_of(alloc: Global, objects: u32, subjects: u32) -> Result<Vec<Slots>, Fail>
    requires objects { objects ≤ MOST_ROWS }
    requires subjects { subjects ≤ MOST_ROWS }
{
    let mut rows = Vec::new(alloc);
    add_rows(alloc, ",,http://e/o", 10..10 + objects, "", &mut rows)?;
    add_rows(alloc, "http://e/s", 1000..1000 + subjects, ",,", &mut rows)?;
    Ok(rows)
}

/// Whether the triple of these ids matches a row.
fn matches(table: &Table, ids: IdTriple, row: &Slots) -> bool
    requires { IsIdTriple (held_terms table.now) ids }
{
    row.subject.matches(table.term(ids.subject))
        && row.predicate.matches(table.term(ids.predicate))
        && row.object.matches(table.term(ids.object))
}

/// Whether the triple of these ids matches one of the rows.
fn is_left(table: &Table, ids: IdTriple, rows: &[Slots]) -> bool
    requires { IsIdTriple (held_terms table.now) ids }
{
    for row in rows {
        if matches(table, ids, row) {
            return true;
        }
    }
    false
}

/// The triples of a range that match a row.
fn left_of(
    alloc: Global,
    table: &Table,
    range: &Range,
    rows: &[Slots],
) -> Result<Vec<IdTriple>, Fail>
    requires { IsRange table.now range.now }
{
    let mut left = Vec::new(alloc);
    for i in 0..table.count(range) {
        let ids = table.at(range, i);
        if is_left(table, ids, rows) {
            left.push(ids)?;
        }
    }
    Ok(left)
}

/// The triples of all pages of at most `LARGEST_PAGE`, one page behind the other, and how many pages there are.
fn all_pages<L: Ledger>(
    alloc: Global,
    table: &Table,
    slots: &Slots,
    rows: &[Slots],
    steps: &mut Steps<L>,
) -> Result<(Vec<IdTriple>, u64), Fail>
    requires { 1 ≤ length rows.now }
{
    let mut triples = Vec::new(alloc);
    for k in 1..10u64 {
        let Some(page) = restricted_page(alloc, table, slots, rows, k, LARGEST_PAGE, steps)? else {
            return Ok((triples, k - 1));
        };
        triples.extend_from_slice(&page.triples)?;
    }
    Ok((triples, 10))
}

/// The triples of the fragment that match a row.
fn filtered<L: Ledger>(
    alloc: Global,
    table: &Table,
    slots: &Slots,
    rows: &[Slots],
    steps: &mut Steps<L>,
) -> Result<Vec<IdTriple>, Fail> {
    match page(table, slots, 1, 1, steps) {
        Some(view) => left_of(alloc, table, &view.range, rows),
        None => Err(Fail::new("no fragment")),
    }
}

/// Whether the pages have these triples together, how many triples these are, and how many pages there are.
fn compare_pages<L: Ledger>(
    alloc: Global,
    table: &Table,
    slots: &Slots,
    rows: &[Slots],
    left: &[IdTriple],
    steps: &mut Steps<L>,
) -> Result<(bool, usize, u64), Fail>
    requires { 1 ≤ length rows.now }
{
    let (triples, pages) = all_pages(alloc, table, slots, rows, steps)?;
    Ok((triples.as_slice() == left, left.len(), pages))
}

/// Whether the pages are what the rows leave of the fragment, how many triples that are, and how many pages there are.
fn compare<L: Ledger>(
    alloc: Global,
    table: &Table,
    slots: &Slots,
    rows: &[Slots],
    blank: Blank,
) -> Result<(bool, usize, u64), Fail>
    requires name { blank.name ≡ L.name }
    requires parts { blank.parts ≡ L.parts }
    requires some { 0 < blank.parts }
    requires rows { 1 ≤ length rows.now }
{
    let mut steps: Steps<L> = Steps::new(blank);
    let left = filtered(alloc, table, slots, rows, &mut steps)?;
    compare_pages(alloc, table, slots, rows, &left, &mut steps)
}

fn compared(
    alloc: Global,
    table: &Table,
    slots: &Slots,
    rows: &[Slots],
) -> Result<(bool, usize, u64), Fail> {
    if rows.is_empty() {
        return Err(Fail::new("no row"));
    }
    compare::<Brand>(alloc, table, slots, rows, Blank::new(1))
}

/// How many objects and subjects the rows are of, and how many triples and pages that leaves.
type Left = (u32, u32, usize, u64);

/// Rows of one kind and of two, many triples and few.
static LEFT: [Left; 5] = [
    (64, 0, 5440, 6),
    (60, 4, 5100, 6),
    (10, 54, 894, 1),
    (0, 64, 64, 1),
    (1, 0, 85, 1),
];

/// Whether the rows of so many objects and subjects leave so many triples on so many pages.
fn shows(alloc: Global, table: &Table, slots: &Slots, left: &Left) -> Result<bool, Fail> {
    let (objects, subjects, count, pages) = *left;
    let most = MOST_ROWS as u32;
    let rows = rows_of(alloc, objects.min(most), subjects.min(most))?;
    let found = compared(alloc, table, slots, &rows)?;
    Ok(found == (true, count, pages))
}

fn show_all(alloc: Global, table: &Table, slots: &Slots, rows: &[Left]) -> Result<bool, Fail> {
    for left in rows {
        if !shows(alloc, table, slots, left)? {
            return Ok(false);
        }
    }
    Ok(true)
}

/// The same of the slots of these texts.
fn show_texts(alloc: Global, table: &Table, texts: &str) -> Result<bool, Fail> {
    let slots = slots(alloc, texts)?;
    show_all(alloc, table, &slots, &LEFT)
}

fn show_both(alloc: Global, table: &Table) -> Result<bool, Fail> {
    Ok(show_texts(alloc, table, ",,")? && show_texts(alloc, table, ",http://e/k,")?)
}

#[test]
fn pages_are_what_the_rows_leave_of_the_fragment(rt: HostRuntime) -> Result<(), Fail> {
    let table = table(rt.alloc())?;
    assert!(rt; show_both(rt.alloc(), &table)?);
    Ok(())
}

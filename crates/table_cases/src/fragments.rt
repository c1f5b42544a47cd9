// Fragments and their pages.
ghost use Rattle.std.specs.Prelude.{◌≡◌, ◌<◌};

use crate::tables::table_of;
use case_rows::{Case, CaseFault, numbers_text, word_text};
use case_slots::slots_of;
use fragment_pages::page;
use rdf_terms::Slots;
use std::alloc::Global;
use std::marker::Brand;
use std::sync::ledger::{Blank, Ledger};
use tpf_base::Steps;
use triple_table::Table;

/// How many triples a page of three has, how many its fragment, and the number of the last page.
fn sizes<L: Ledger>(
    table: &Table,
    slots: &Slots,
    number: u64,
    steps: &mut Steps<L>,
) -> Option<[u64; 3]> {
    match page(table, slots, number, 3, steps) {
        Some(view) => Some([(view.to - view.from) as u64, view.count, view.last]),
        None => None,
    }
}

/// The same over a new counter.
fn sizes_from<L: Ledger>(
    table: &Table,
    slots: &Slots,
    number: u64,
    blank: Blank,
) -> Option<[u64; 3]>
    requires name { blank.name ≡ L.name }
    requires parts { blank.parts ≡ L.parts }
    requires some { 0 < blank.parts }
{
    let mut steps: Steps<L> = Steps::new(blank);
    sizes(table, slots, number, &mut steps)
}

fn sizes_of(table: &Table, slots: &Slots, number: u64) -> Option<[u64; 3]> {
    sizes_from::<Brand>(table, slots, number, Blank::new(1))
}

/// `data`: the same of its table of all graphs.
fn sizes_in(
    alloc: Global,
    case: &mut Case<'_>,
    slots: &Slots,
    number: u64,
) -> Result<Option<[u64; 3]>, CaseFault> {
    let table = table_of(alloc, case)?;
    Ok(sizes_of(&table, slots, number))
}

/// `data`, `subject`, `predicate`, `object`, `page`: how many triples the page of three has, how many the fragment, and
/// the number of the last page; `none`, where there is no such page.
pub fn page_sizes(alloc: Global, case: &mut Case<'_>) -> Result<String, CaseFault> {
    let number = case.number("page")?;
    let slots = slots_of(alloc, case)?;
    match sizes_in(alloc, case, &slots, number)? {
        Some(sizes) => numbers_text(alloc, &sizes),
        None => word_text(alloc, "none"),
    }
}

// The table's pages, compared with fragments found the plain way.
ghost use Rattle.std.specs.Prelude.{◌≡◌, ◌-◌, ◌<◌, All};
ghost use Rattle.rdf_terms.specs.Triples.{IsRdfQuad};
ghost use Rattle.triple_table.specs.Stored.{IsRange};

use fragment_pages::page;
use plain_answers::plain_fragment;
use rdf_terms::{Quad, Slots, Triple};
use std::alloc::Global;
use std::marker::Brand;
use std::process::Abort;
use std::sync::ledger::{Blank, Ledger};
use std::test::Fail;
use template_fill::{LARGEST_PAGE, read_row};
use test_servers::{host, quads_of};
use tpf_base::Steps;
use triple_table::{Choice, Range, Table, served};

const DATA: &str = "<http://e/c> <http://e/n> \"C\" .
<http://e/b> <http://e/k> <http://e/c> .
<http://e/a> <http://e/k> <http://e/b> .
<http://e/a> <http://e/k> <http://e/c> .
<http://e/a> <http://e/n> \"C\"@en .
<http://e/a> <http://e/k> <http://e/b> .
_:x <http://e/k> <http://e/a1> .
";

/// The slots of texts with two commas between: open where nothing stands, else fixed to what is an IRI or a literal.
pub(crate) fn slots(alloc: Global, texts: &str) -> Result<Slots, Fail> {
    match read_row(alloc, texts) {
        Ok(Some(slots)) => Ok(slots),
        _ => Err(Fail::new("no slots")),
    }
}

/// Whether this triple stands at a place of a range.
fn is_at(table: &Table, range: &Range, i: usize, triple: &Triple) -> bool
    requires range { IsRange table.now range.now }
    requires within { i < range.now.to - range.now.from }
{
    let ids = table.at(range, i);
    table.term(ids.subject).same(&triple.subject)
        && table.term(ids.predicate).same(&triple.predicate)
        && table.term(ids.object).same(&triple.object)
}

/// Whether exactly these triples stand in a range.
fn are_at(table: &Table, range: &Range, triples: &[Triple]) -> bool
    requires { IsRange table.now range.now }
{
    let count = table.count(range);
    if count != triples.len() {
        return false;
    }
    for i in 0..count {
        if !is_at(table, range, i, &triples[i]) {
            return false;
        }
    }
    true
}

/// Whether the first page, which may have `LARGEST_PAGE` triples, shows exactly these.
fn shows<L: Ledger>(table: &Table, slots: &Slots, triples: &[Triple], blank: Blank) -> bool
    requires name { blank.name ≡ L.name }
    requires parts { blank.parts ≡ L.parts }
    requires some { 0 < blank.parts }
{
    let mut steps: Steps<L> = Steps::new(blank);
    let Some(view) = page(table, slots, 1, LARGEST_PAGE, &mut steps) else {
        return false;
    };
    view.from == 0 && view.to == triples.len() && are_at(table, &view.range, triples)
}

fn shows_all(table: &Table, slots: &Slots, triples: &[Triple]) -> bool {
    shows::<Brand>(table, slots, triples, Blank::new(1))
}

/// Whether a pattern's first page is the fragment found the plain way, and how many triples it has.
fn compare_slots(
    alloc: Global,
    slots: &Slots,
    triples: &[Triple],
    table: &Table,
) -> Result<(bool, usize), Fail> {
    let plain = plain_fragment(alloc, triples, slots)?;
    Ok((shows_all(table, slots, &plain), plain.len()))
}

/// The same of the pattern of these texts.
fn compare_texts(
    alloc: Global,
    texts: &str,
    triples: &[Triple],
    table: &Table,
) -> Result<(bool, usize), Fail> {
    let slots = slots(alloc, texts)?;
    compare_slots(alloc, &slots, triples, table)
}

/// The same of the table of these statements.
fn compare_table(
    alloc: Global,
    texts: &str,
    quads: &[Quad],
    triples: &[Triple],
) -> Result<(bool, usize), Fail>
    requires { All IsRdfQuad quads.now }
{
    let table = Table::build(alloc, quads, &Choice::Union, host(), 100)?;
    compare_texts(alloc, texts, triples, &table)
}

/// The same of the triples of these statements.
fn compare_served(alloc: Global, texts: &str, quads: &[Quad]) -> Result<(bool, usize), Fail>
    requires { All IsRdfQuad quads.now }
{
    let triples = served(alloc, quads, &Choice::Union, host())?;
    compare_table(alloc, texts, quads, &triples)
}

/// The same of the data.
fn compared(alloc: Global, texts: &str) -> Result<(bool, usize), Fail> {
    let quads = quads_of(alloc, DATA)?;
    compare_served(alloc, texts, &quads)
}

/// The texts of a pattern, and how many triples its fragment has.
static FRAGMENTS: [(&str, usize); 10] = [
    (",,", 6),
    ("http://e/a,,", 3),
    (",http://e/k,", 4),
    (",,http://e/c", 2),
    ("http://e/a,http://e/k,", 2),
    (",http://e/n,\"C\"", 1),
    ("http://e/a,,http://e/b", 1),
    ("http://e/b,http://e/k,http://e/c", 1),
    ("http://localhost/.well-known/genid/x,,", 1),
    ("http://e/zz,,", 0),
];

fn is_found<R: Abort + AllocGlobal>(rt: &R, texts: &str, count: usize) -> Result<(), Fail> {
    let (same, found) = compared(rt.alloc(), texts)?;
    assert!(rt; same && found == count);
    Ok(())
}

fn are_found<R: Abort + AllocGlobal>(rt: &R, fragments: &[(&str, usize)]) -> Result<(), Fail> {
    for (texts, count) in fragments {
        is_found(rt, texts, *count)?;
    }
    Ok(())
}

#[test]
fn pages_of_every_kind_are_fragments_found_the_plain_way(rt: HostRuntime) -> Result<(), Fail> {
    are_found(&rt, &FRAGMENTS)
}

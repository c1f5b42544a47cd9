// What an answer says, found before any of its body is made.
ghost use Rattle.std.specs.Prelude.{◌≡◌, ◌*◌, ◌^◌, ◌-◌, ◌<◌, ◌≤◌, length, IfOk, MatchOption};
ghost use Rattle.std.specs.List.{AllByRecursion};
ghost use Rattle.rdf_terms.specs.Selections.{all_of};
ghost use Rattle.triple_table.specs.Stored.{listed};
ghost use Rattle.fragment_pages.specs.Pages.{IsPage, IsPageNumber, shown};
ghost use Rattle.template_fill.specs.declared.limits.TheConstants.{LARGEST_PAGE};
ghost use Rattle.template_fill.specs.Forms.{HasNoBlank};
ghost use Rattle.restricted_pages.specs.Pages.{IsSelectedAnswer, IsSelectedNumber, IsSelectedPage, chosen};
ghost use Rattle.page_responses.specs.declared.limits.TheConstants.{LONGEST_PART};
ghost use Rattle.page_responses.specs.Statuses.{body_text, version_line};
ghost use Rattle.page_responses.specs.Serving.{served};
ghost use Rattle.page_responses.specs.PageRests.{IsPart};
ghost use Rattle.page_responses.specs.Opened.{OpensNumber, OpensPage, lines_opened};

use crate::head::MediaType;
use crate::lines::{listed_length, triples_length};
use crate::rest::{PageRest, PageTriples, Rest};
use crate::snapshot::Snapshot;
use crate::status::Status;
use fragment_pages::{PageView, page};
use hydra_controls::{Config, MetadataLines};
use itoa::Buffer;
use rdf_terms::Slots;
use restricted_pages::{RestrictedPage, restricted_page};
use std::alloc::Global;
use std::marker::Brand;
use std::sync::ledger::{Blank, Ledger};
use tpf_base::{OutOfMemory, Steps, Text};
use triple_table::{Range, Table};

/// The status of an answer, what its body is, how long it is, and the body.
#[derive(Drop)]
pub struct Opened {
    pub status: Status,
    pub media: MediaType,
    pub length: u128,
    pub body: Rest,
}

fn counted_page<L: Ledger>(
    table: &Table,
    slots: &Slots,
    number: u64,
    size: u64,
    blank: Blank,
) -> Option<PageView>
    requires size { 1 ≤ size }
    requires name { blank.name ≡ L.name }
    requires parts { blank.parts ≡ L.parts }
    requires some { 0 < blank.parts }
    ensures { MatchOption result (IsPageNumber table.now slots.now number size → ⊥) (λ view.
        IsPageNumber table.now slots.now number size × IsPage table.now slots.now number size view) }
{
    let mut steps: Steps<L> = Steps::new(blank);
    page(table, slots, number, size, &mut steps)
}

/// A page of the table, or `None` where the number is past the last.
fn page_view(table: &Table, slots: &Slots, number: u64, size: u64) -> Option<PageView>
    requires { 1 ≤ size }
    ensures { MatchOption result (IsPageNumber table.now slots.now number size → ⊥) (λ view.
        IsPageNumber table.now slots.now number size × IsPage table.now slots.now number size view) }
{
    counted_page::<Brand>(table, slots, number, size, Blank::new(1))
}

/// The range of the triples that a page shows.
#[tactic(auto, using(crate::proofs::PageLaws::part_listed, crate::proofs::PageLaws::part_is_part, crate::proofs::PageLaws::part_is_few))]
fn shown_range(table: &Table, slots: &Slots, number: u64, size: u64, view: &PageView) -> Range
    requires size { 1 ≤ size }
    requires page { IsPage table.now slots.now number size view.now }
    ensures part { IsPart table.now result }
    ensures triples { listed table.now result ≡ shown table.now view.now }
    ensures few { result.to - result.from ≤ size }
{
    let triples = table.count(&view.range);
    prove!(view.to <= triples);
    Range {
        order: view.range.order,
        from: view.range.from + view.from,
        to: view.range.from + view.to,
    }
}

/// The answer that is a page of a version of the data: triples, whose lines have so many bytes, and metadata.
fn open_lines(
    snapshot: &Snapshot,
    triples: PageTriples,
    bytes: u128,
    metadata: MetadataLines,
) -> Result<Opened, OutOfMemory>
    requires { bytes ≤ LARGEST_PAGE * 2 ^ 70 }
    ensures { IfOk result (λ o. o ≡ lines_opened snapshot.now.table triples bytes metadata) }
{
    let length = bytes + metadata.total_length();
    Ok(Opened {
        status: Status::Success,
        media: MediaType::NQuads,
        length,
        body: Rest::Page(PageRest::new(snapshot.share()?, triples, metadata)),
    })
}

/// The answer that is this page of a fragment of a version of the data.
fn open_page(
    alloc: Global,
    config: &Config,
    snapshot: &Snapshot,
    slots: &Slots,
    number: u64,
    view: &PageView,
) -> Result<Opened, OutOfMemory>
    requires slots { HasNoBlank slots.now }
    requires number { IsPageNumber snapshot.now.table slots.now number config.now.page_size }
    requires page { IsPage snapshot.now.table slots.now number config.now.page_size view.now }
    ensures { IfOk result (OpensPage (served snapshot.now config.now) (all_of slots.now) number) }
{
    let table = snapshot.table();
    let triples = shown_range(table, slots, number, config.page_size(), view);
    let version = snapshot.number();
    let metadata = MetadataLines::new(alloc, config, slots, &[], number, view.count, version)?;
    let bytes = triples_length(table, &triples);
    open_lines(snapshot, PageTriples::Part(triples), bytes, metadata)
}

/// The answer that is this page of a fragment, or that it is past the last.
fn open_numbered(
    alloc: Global,
    config: &Config,
    snapshot: &Snapshot,
    slots: &Slots,
    number: u64,
) -> Result<Opened, OutOfMemory>
    requires slots { HasNoBlank slots.now }
    requires number { 1 ≤ number }
    ensures { IfOk result (OpensNumber (served snapshot.now config.now) (all_of slots.now) number) }
{
    match page_view(snapshot.table(), slots, number, config.page_size()) {
        Some(view) => open_page(alloc, config, snapshot, slots, number, &view),
        None => Ok(open_status(Status::NotFound)),
    }
}

fn counted_restricted<L: Ledger>(
    alloc: Global,
    config: &Config,
    snapshot: &Snapshot,
    slots: &Slots,
    rows: &[Slots],
    number: u64,
    blank: Blank,
) -> Result<Option<RestrictedPage>, OutOfMemory>
    requires rows { 1 ≤ length rows.now }
    requires name { blank.name ≡ L.name }
    requires parts { blank.parts ≡ L.parts }
    requires some { 0 < blank.parts }
    ensures { IfOk result (IsSelectedAnswer snapshot.now.table slots.now rows.now number config.now.page_size) }
{
    let mut steps: Steps<L> = Steps::new(blank);
    let size = config.page_size();
    restricted_page(
        alloc,
        snapshot.table(),
        slots,
        rows,
        number,
        size,
        &mut steps,
    )
}

/// The page of a version of the data that rows restrict, or `None` where the number is past the last.
fn restricted_view(
    alloc: Global,
    config: &Config,
    snapshot: &Snapshot,
    slots: &Slots,
    rows: &[Slots],
    number: u64,
) -> Result<Option<RestrictedPage>, OutOfMemory>
    requires { 1 ≤ length rows.now }
    ensures { IfOk result (IsSelectedAnswer snapshot.now.table slots.now rows.now number config.now.page_size) }
{
    counted_restricted::<Brand>(alloc, config, snapshot, slots, rows, number, Blank::new(1))
}

/// The answer that is this page of what rows leave of a fragment of a version of the data.
fn open_listed(
    alloc: Global,
    config: &Config,
    snapshot: &Snapshot,
    slots: &Slots,
    rows: &[Slots],
    number: u64,
    page: RestrictedPage,
) -> Result<Opened, OutOfMemory>
    requires slots { HasNoBlank slots.now }
    requires rows { AllByRecursion HasNoBlank rows.now }
    requires number { IsSelectedNumber snapshot.now.table slots.now rows.now number config.now.page_size }
    requires page { IsSelectedPage snapshot.now.table slots.now rows.now number config.now.page_size page }
    ensures { IfOk result (OpensPage (served snapshot.now config.now) (chosen slots.now rows.now) number) }
{
    let _size = config.page_size();
    let version = snapshot.number();
    let metadata = MetadataLines::new(alloc, config, slots, rows, number, page.count, version)?;
    let bytes = listed_length(snapshot.table(), page.triples.as_slice());
    let triples = PageTriples::Listed {
        triples: page.triples,
        next: 0,
    };
    open_lines(snapshot, triples, bytes, metadata)
}

/// The answer that is this page of what rows leave of a fragment, or that it is past the last.
fn open_restricted(
    alloc: Global,
    config: &Config,
    snapshot: &Snapshot,
    slots: &Slots,
    rows: &[Slots],
    number: u64,
) -> Result<Opened, OutOfMemory>
    requires slots { HasNoBlank slots.now }
    requires rows { AllByRecursion HasNoBlank rows.now }
    requires some { 1 ≤ length rows.now }
    requires number { 1 ≤ number }
    ensures { IfOk result (OpensNumber (served snapshot.now config.now) (chosen slots.now rows.now) number) }
{
    match restricted_view(alloc, config, snapshot, slots, rows, number)? {
        Some(page) => open_listed(alloc, config, snapshot, slots, rows, number, page),
        None => Ok(open_status(Status::NotFound)),
    }
}

/// The answer that is this page of what is selected of a version of the data, the triples of a fragment that match one
/// of the rows where there are some, or that it is past the last.
///
/// `OutOfMemory` comes only where memory runs out.
pub fn open_selected(
    alloc: Global,
    config: &Config,
    snapshot: &Snapshot,
    slots: &Slots,
    rows: &[Slots],
    number: u64,
) -> Result<Opened, OutOfMemory>
    requires slots { HasNoBlank slots.now }
    requires rows { AllByRecursion HasNoBlank rows.now }
    requires number { 1 ≤ number }
    ensures { IfOk result (OpensNumber (served snapshot.now config.now) (chosen slots.now rows.now) number) }
{
    if rows.is_empty() {
        open_numbered(alloc, config, snapshot, slots, number)
    } else {
        open_restricted(alloc, config, snapshot, slots, rows, number)
    }
}

/// The answer of a status without a page.
pub fn open_status(status: Status) -> Opened
    ensures { result ≡ record {
      status = status;
      media = MediaType.PlainText;
      length = length (body_text status);
      body = Rest.Line status;
    } }
{
    Opened {
        status,
        media: MediaType::PlainText,
        length: status.body().len() as u128,
        body: Rest::Line(status),
    }
}

/// The words that tell the number of a version.
#[tactic(auto, unfolding(crate::specs::Statuses::version_line))]
fn version_text(alloc: Global, number: u64) -> Result<Text, OutOfMemory>
    ensures { IfOk result (λ text. text ≡ version_line number) }
{
    let mut digits = Buffer::new();
    let mut words = String::from_str(alloc, "version ")?;
    words.push_str(digits.format(number))?;
    words.push_str("\n")?;
    Ok(Text::from_string(words))
}

/// The answer to a reload that reached this version. `OutOfMemory` comes only where memory runs out.
#[tactic(auto, using(crate::proofs::OpenLaws::short_version))]
pub fn open_version(alloc: Global, number: u64) -> Result<Opened, OutOfMemory>
    ensures few { length (version_line number) ≤ LONGEST_PART }
    ensures opened { IfOk result (λ o. o ≡ record {
      status = Status.Success;
      media = MediaType.PlainText;
      length = length (version_line number);
      body = Rest.Words (version_line number);
    }) }
{
    let text = version_text(alloc, number)?;
    Ok(Opened {
        status: Status::Success,
        media: MediaType::PlainText,
        length: text.as_str().len() as u128,
        body: Rest::Words(text),
    })
}

// The quads of the metadata of a page.
ghost use Rattle.std.specs.Prelude.{◌≡◌, ◌≤◌, ◌<◌, [], ◌∷◌, ◌++◌, length, slice_index_or, IfOk, OnOk};
ghost use Rattle.std.specs.List.{AllByRecursion};
ghost use Rattle.rdf_terms.specs.Fragments.{last_page_of};
ghost use Rattle.rdf_terms.specs.declared.term.Quad.{Quad};
ghost use Rattle.template_fill.specs.Forms.{HasNoBlank};
ghost use Rattle.template_fill.specs.Metadata.{page_metadata};
ghost use Rattle.hydra_controls.specs.Facts.{AreFacts, quads_of};

use crate::table::quad;
use hydra_controls::{Config, MetadataLines, PageFacts};
use rdf_terms::{Quad, Slots};
use std::alloc::Global;
use tpf_base::OutOfMemory;

/// Adds the quad in this place.
fn push_quad(
    alloc: Global,
    facts: PageFacts<'_>,
    i: usize,
    quads: &mut Vec<Quad>,
) -> Result<(), OutOfMemory>
    requires facts { AreFacts facts }
    requires within { i < length (quads_of facts) }
    ensures { (d : Quad) → OnOk result (
        quads.new.items ≡ quads.old.items ++ slice_index_or (quads_of facts.entry) i d ∷ []) }
{
    let quad = quad(facts, i).quad(alloc)?;
    quads.push(quad)?;
    Ok(())
}

/// The quads of the metadata that speak of this.
fn quads(alloc: Global, facts: PageFacts<'_>) -> Result<Vec<Quad>, OutOfMemory>
    requires { AreFacts facts }
    ensures { IfOk result (λ quads. quads.items ≡ quads_of facts.entry) }
{
    let count = facts.quad_count();
    let mut quads = Vec::with_capacity(alloc, count)?;
    for i in 0..count {
        push_quad(alloc, facts, i, &mut quads)?;
    }
    Ok(quads)
}

/// The metadata of a page of the fragment with these slots, or of what these rows leave of it, which
/// has so many triples, in data of this version: 19 to 21 quads of the graph that is named by the
/// page's address and `#metadata` (Triple Pattern Fragments, "Metadata" and "Controls"; Hydra Core
/// Vocabulary). They say what the page is about, how many triples its fragment has, where the first,
/// next and previous pages are, by which form the other fragments are asked for and, last, the version
/// of the data (OWL 2, section 3.5).
///
/// Each quad has its own terms, so the page's address stands in them 27 times and more;
/// `MetadataLines` are the same quads as lines that are made one by one. No fixed place is a blank
/// node, and the page is one of 1 to the fragment's last. `OutOfMemory` comes only when memory ran out.
pub fn metadata(
    alloc: Global,
    config: &Config,
    slots: &Slots,
    rows: &[Slots],
    page: u64,
    count: u64,
    version: u64,
) -> Result<Vec<Quad>, OutOfMemory>
    requires slots { HasNoBlank slots.now }
    requires rows { AllByRecursion HasNoBlank rows.now }
    requires page { 1 ≤ page }
    requires last { page ≤ last_page_of count config.now.page_size }
    ensures { IfOk result (λ quads.
        quads.items ≡ page_metadata config.now (record { slots = slots.now; rows = rows.now }) page count version) }
{
    let lines = MetadataLines::new(alloc, config, slots, rows, page, count, version)?;
    quads(alloc, lines.facts())
}

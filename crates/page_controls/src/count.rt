// The number of triples that the controls give.
ghost use Rattle.std.specs.Prelude.{ℕ, ◌≡◌, List};
ghost use Rattle.std.specs.List.Sorted.{IsStrictlySortedBy};
ghost use Rattle.rdf_terms.specs.declared.term.Term.{Term};
ghost use Rattle.rdf_terms.specs.declared.term.Quad.{Quad};
ghost use Rattle.control_triples.specs.Vocabulary.{total_items, void_triples};
ghost use Rattle.control_triples.specs.Controls.{IsCount};
ghost use Rattle.page_controls.specs.Outcomes.{Answers};
ghost use Rattle.control_triples.specs.Parts.{objects_in};
ghost use Rattle.control_triples.specs.Ranges.{length_order};
ghost use Rattle.page_controls.specs.Counts.{WhyNoCount, AreCounts};

use control_triples::{Controls, number, total_items, void_triples};
use fragment_page::PageFault;
use rdf_terms::{Term, Triple};
use std::alloc::Global;
use tpf_base::OutOfMemory;

/// What hydra:totalItems gives of the topic, and only where that is nothing what void:triples gives.
fn count_objects<'b, 'a>(
    controls: &'b Controls<'a>,
    total: &Term,
    triples: &Term,
) -> &'b [&'a Triple]
    requires total { total.now ≡ total_items }
    requires triples { triples.now ≡ void_triples }
    ensures ascending { IsStrictlySortedBy length_order (objects_in result.now) }
    ensures members { AreCounts controls.entry.now.quads controls.entry.now.topic result.now }
{
    let objects = controls.objects(controls.topic(), total);
    if !objects.is_empty() {
        return objects;
    }
    controls.objects(controls.topic(), triples)
}

/// The number that these objects give.
fn count_of(objects: &[&Triple]) -> Result<u64, PageFault>
    requires { IsStrictlySortedBy length_order (objects_in objects.now) }
    ensures { (quads : List Quad) (topic : List ℕ) → AreCounts quads topic objects.now
        → Answers (IsCount quads topic) (WhyNoCount quads topic) result }
{
    match objects {
        [] => Err(PageFault::NoCount),
        [only] => match number(&only.object) {
            Some(n) => Ok(n),
            None => Err(PageFault::CountText),
        },
        _ => Err(PageFault::CountText),
    }
}

/// The number of triples of the fragment.
pub(crate) fn read_count(alloc: Global, controls: &Controls) -> Result<u64, PageFault>
    ensures { Answers (IsCount controls.now.quads controls.now.topic)
        (WhyNoCount controls.now.quads controls.now.topic) result }
{
    let total = total_items(alloc)?;
    match void_triples(alloc) {
        Ok(triples) => {
            let count = count_of(count_objects(controls, &total, &triples));
            drop(total);
            drop(triples);
            count
        }
        Err(OutOfMemory) => {
            // Dropped here, so that no other way out has it.
            drop(total);
            Err(PageFault::OutOfMemory)
        }
    }
}

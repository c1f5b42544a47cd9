// The program of the definition.
ghost use Rattle.std.specs.Prelude.{◌≡◌, IfOk, OnOk, if◌then◌else◌};
ghost use Rattle.rdf_terms.specs.declared.term.Triple.{Triple};
ghost use Rattle.rdf_terms.specs.Slots.{order_of, matches};
ghost use Rattle.rdf_terms.specs.Fragments.{put, fragment};

use crate::order::order_of;
use rdf_terms::{Slots, Triple};
use std::alloc::Global;
use std::cmp::Ordering;
use tpf_base::OutOfMemory;

/// Puts a triple at its place, unless it stands there.
fn put(slots: &Slots, triple: Triple, sorted: &mut Vec<Triple>) -> Result<(), OutOfMemory>
    ensures { OnOk result (sorted.new.items ≡ put (order_of slots.now) triple sorted.old.items) }
{
    for i in 0..sorted.len() {
        match order_of(slots, &triple, &sorted[i]) {
            Ordering::Less => {
                sorted.insert(i, triple)?;
                return Ok(());
            }
            Ordering::Equal => return Ok(()),
            Ordering::Greater => {}
        }
    }
    sorted.push(triple)?;
    Ok(())
}

/// Puts a copy of a triple that matches at its place.
fn put_match(
    alloc: Global,
    slots: &Slots,
    triple: &Triple,
    sorted: &mut Vec<Triple>,
) -> Result<(), OutOfMemory>
    ensures { OnOk result (sorted.new.items ≡ (if matches slots.now triple.now
        then put (order_of slots.now) triple.now sorted.old.items
        else sorted.old.items)) }
{
    if slots.matches(triple) {
        put(slots, triple.copy(alloc)?, sorted)?;
    }
    Ok(())
}

/// The fragment of these triples by these slots: the triples that match, each once, in the order of
/// the slots' kind (Triple Pattern Fragments, "Fragments"). It takes a step for each pair of
/// triples, so it serves for comparison alone. Fails only where memory runs out.
#[tactic(auto, unfolding(rdf_terms::specs::Fragments::fragment))]
pub fn plain_fragment(
    alloc: Global,
    triples: &[Triple],
    slots: &Slots,
) -> Result<Vec<Triple>, OutOfMemory>
    ensures { IfOk result (λ v. v.items ≡ fragment triples.now slots.now) }
{
    let mut sorted = Vec::new(alloc);
    for i in 0..triples.len() {
        put_match(alloc, slots, &triples[triples.len() - 1 - i], &mut sorted)?;
    }
    Ok(sorted)
}

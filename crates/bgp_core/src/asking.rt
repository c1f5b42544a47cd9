// What a pattern under a row asks for.
ghost use Rattle.std.specs.Prelude.{◌≡◌, IfOk};
ghost use Rattle.rdf_terms.specs.Askable.{is_iri_term, is_iri_or_literal, slot_allows, askable};
ghost use Rattle.bgp_core.specs.Instances.{slot, instance, bound_slot, bound_places};

use crate::{Part, Pattern, Row};
use rdf_terms::{Slot, Slots, Term};
use std::alloc::Global;
use text_base::{OutOfMemory, all_three};

fn slot(alloc: Global, part: &Part, row: &Row) -> Result<Slot, OutOfMemory>
    ensures { IfOk result (λ s. s ≡ slot row.now part.now) }
{
    let term = match part {
        Part::Fixed(term) => term,
        Part::Name(name) => match row.term(*name) {
            Some(term) => term,
            None => return Ok(Slot::Any),
        },
    };
    Ok(Slot::Fixed(term.copy(alloc)?))
}

/// The pattern with the names that the row binds filled in; the others are free. The only error is out
/// of memory.
pub fn instance(alloc: Global, pattern: &Pattern, row: &Row) -> Result<Slots, OutOfMemory>
    ensures { IfOk result (λ s. s ≡ instance pattern.now row.now) }
{
    let subject = slot(alloc, &pattern.subject, row);
    let predicate = slot(alloc, &pattern.predicate, row);
    let object = slot(alloc, &pattern.object, row);
    let (subject, predicate, object) = all_three(subject, predicate, object)?;
    Ok(Slots {
        subject,
        predicate,
        object,
    })
}

fn bound_slot(alloc: Global, part: &Part, row: &Row) -> Result<Slot, OutOfMemory>
    ensures { IfOk result (λ s. s ≡ bound_slot row.now part.now) }
{
    match part {
        Part::Fixed(_) => Ok(Slot::Any),
        Part::Name(_) => slot(alloc, part, row),
    }
}

/// What a row binds in a pattern: the names that the row binds filled in, and all other places free, also
/// those that the pattern fixes. The only error is out of memory.
pub fn bound_places(alloc: Global, pattern: &Pattern, row: &Row) -> Result<Slots, OutOfMemory>
    ensures { IfOk result (λ s. s ≡ bound_places pattern.now row.now) }
{
    let subject = bound_slot(alloc, &pattern.subject, row);
    let predicate = bound_slot(alloc, &pattern.predicate, row);
    let object = bound_slot(alloc, &pattern.object, row);
    let (subject, predicate, object) = all_three(subject, predicate, object)?;
    Ok(Slots {
        subject,
        predicate,
        object,
    })
}

/// Whether a slot is free or fixed to an IRI.
fn is_free_or_iri(slot: &Slot) -> bool
    ensures { result ≡ slot_allows is_iri_term slot.now }
{
    match slot {
        Slot::Any => true,
        Slot::Fixed(term) => matches!(term, Term::Iri(_)),
    }
}

/// Whether a slot is fixed to no blank node.
fn is_no_blank(slot: &Slot) -> bool
    ensures { result ≡ slot_allows is_iri_or_literal slot.now }
{
    match slot {
        Slot::Any => true,
        Slot::Fixed(term) => !matches!(term, Term::Blank(_)),
    }
}

/// Whether a server can be asked for these slots: not where the subject is fixed to a literal or a blank node, the
/// predicate to anything but an IRI, or the object to a blank node. No triple of data matches such slots. It takes no
/// memory.
pub fn askable(slots: &Slots) -> bool
    ensures { result ≡ askable slots.now }
{
    is_free_or_iri(&slots.subject) && is_free_or_iri(&slots.predicate) && is_no_blank(&slots.object)
}

fn part_is_free_or_iri(part: &Part, row: &Row) -> bool
    ensures { result ≡ slot_allows is_iri_term (slot row.now part.now) }
{
    match part {
        Part::Fixed(term) => matches!(term, Term::Iri(_)),
        Part::Name(name) => match row.term(*name) {
            Some(term) => matches!(term, Term::Iri(_)),
            None => true,
        },
    }
}

fn part_is_no_blank(part: &Part, row: &Row) -> bool
    ensures { result ≡ slot_allows is_iri_or_literal (slot row.now part.now) }
{
    match part {
        Part::Fixed(term) => !matches!(term, Term::Blank(_)),
        Part::Name(name) => match row.term(*name) {
            Some(term) => !matches!(term, Term::Blank(_)),
            None => true,
        },
    }
}

/// Whether the pattern under the row can be asked for, found without making its instance. It takes no memory.
pub fn instance_askable(pattern: &Pattern, row: &Row) -> bool
    ensures { result ≡ askable (instance pattern.now row.now) }
{
    part_is_free_or_iri(&pattern.subject, row)
        && part_is_free_or_iri(&pattern.predicate, row)
        && part_is_no_blank(&pattern.object, row)
}

// The slots of a fragment, as members of a row.
ghost use Rattle.std.specs.Prelude.{IfOk, OnOk};
ghost use Rattle.template_fill.specs.Forms.{HasNoBlank, HasNoBlankSlot};

use case_rows::{Case, CaseFault};
use rdf_terms::{Slot, Slots, Term};
use std::alloc::Global;
use template_fill::read_explicit;

/// A slot without a blank node.
pub fn no_blank(slot: Slot) -> Result<Slot, CaseFault>
    ensures { IfOk result HasNoBlankSlot }
{
    match &slot {
        Slot::Fixed(Term::Blank(_)) => Err(CaseFault::Row),
        Slot::Any => Ok(slot),
        Slot::Fixed(Term::Iri(_)) => Ok(slot),
        Slot::Fixed(Term::Literal { .. }) => Ok(slot),
    }
}

/// The slot with this explicit form.
fn slot_in(alloc: Global, text: &str) -> Result<Slot, CaseFault>
    ensures { IfOk result HasNoBlankSlot }
{
    match read_explicit(alloc, text) {
        Ok(slot) => no_blank(slot),
        Err(_) => Err(CaseFault::Row),
    }
}

/// The slot whose explicit form is a member of the row, free where the row has none.
fn slot_of(alloc: Global, case: &mut Case<'_>, member: &str) -> Result<Slot, CaseFault>
    ensures { IfOk result HasNoBlankSlot }
{
    match case.text_if(alloc, member)? {
        Some(text) => slot_in(alloc, text.as_str()),
        None => Ok(Slot::Any),
    }
}

/// Sets a slot to the one of a member.
fn set_slot(
    alloc: Global,
    case: &mut Case<'_>,
    member: &str,
    slot: &mut Slot,
) -> Result<(), CaseFault>
    ensures { OnOk result (HasNoBlankSlot slot.new) }
{
    *slot = slot_of(alloc, case, member)?;
    Ok(())
}

/// `subject`, `predicate`, `object`: sets slots to those of the members.
fn set_slots(alloc: Global, case: &mut Case<'_>, slots: &mut Slots) -> Result<(), CaseFault>
    ensures { OnOk result (HasNoBlank slots.new) }
{
    set_slot(alloc, case, "subject", &mut slots.subject)?;
    set_slot(alloc, case, "predicate", &mut slots.predicate)?;
    set_slot(alloc, case, "object", &mut slots.object)
}

/// Slots of which none is fixed.
fn free() -> Slots {
    Slots {
        subject: Slot::Any,
        predicate: Slot::Any,
        object: Slot::Any,
    }
}

/// `subject`, `predicate`, `object`: slots without a blank node.
pub fn slots_of(alloc: Global, case: &mut Case<'_>) -> Result<Box<Slots>, CaseFault>
    ensures { IfOk result (λ b. HasNoBlank b.value) }
{
    let mut slots = Box::new(alloc, free())?;
    set_slots(alloc, case, &mut slots)?;
    Ok(slots)
}

// The addresses of a fragment's pages.
ghost use Rattle.std.specs.Prelude.{◌≡◌, ◌<◌, ◌++◌, IfOk, OnOk};
ghost use Rattle.std.specs.String.{string_bytes};
ghost use Rattle.tpf_base.specs.Addresses.{IsAddress};
ghost use Rattle.template_fill.specs.Forms.{HasNoBlank, HasNoBlankSlot};
ghost use Rattle.template_fill.specs.Templates.{next_mark, pair_text};
ghost use Rattle.template_fill.specs.Authorities.{ShareAuthority};
ghost use Rattle.template_fill.specs.Pages.{page_address, page_mark, page_pair, places_text, selection_text, slot_text};
ghost use Rattle.std.specs.List.{AllByRecursion};

use crate::WebAddress;
use crate::explicit_form::explicit;
use crate::rows::push_rows;
use crate::value::push_named_value;
use rdf_terms::{Slot, Slots};
use std::alloc::Global;
use tpf_base::OutOfMemory;

/// Appends a place after a mark, if it is fixed, and tells the next mark.
fn push_slot(
    alloc: Global,
    out: &mut String,
    mark: char,
    name: &str,
    slot: &Slot,
) -> Result<char, OutOfMemory>
    requires ascii { mark < 128 }
    requires terms { HasNoBlankSlot slot.now }
    ensures next { IfOk result (λ next. next ≡ next_mark mark (slot_text slot.now)) }
    ensures text { OnOk result
        (string_bytes out.new ≡ string_bytes out.old ++ pair_text mark name.now (slot_text slot.now)) }
{
    let Slot::Fixed(term) = slot else {
        return Ok(mark);
    };
    let value = explicit(alloc, term)?;
    push_named_value(out, mark, name, value.as_str())?;
    Ok('&')
}

/// Appends the fixed places, and tells the mark that comes before a further pair.
fn push_places(alloc: Global, out: &mut String, slots: &Slots) -> Result<char, OutOfMemory>
    requires { HasNoBlank slots.now }
    ensures next { IfOk result (λ next. next ≡ page_mark (places_text slots.now)) }
    ensures text { OnOk result (string_bytes out.new ≡ string_bytes out.old ++ places_text slots.now) }
{
    let mark = push_slot(alloc, out, '?', "subject", &slots.subject)?;
    let mark = push_slot(alloc, out, mark, "predicate", &slots.predicate)?;
    let mark = push_slot(alloc, out, mark, "object", &slots.object)?;
    Ok(mark)
}

/// Appends the fixed places and then the rows, and tells the mark that comes before a further pair.
fn push_selection(
    alloc: Global,
    out: &mut String,
    slots: &Slots,
    rows: &[Slots],
) -> Result<char, OutOfMemory>
    requires slots { HasNoBlank slots.now }
    requires rows { AllByRecursion HasNoBlank rows.now }
    ensures next { IfOk result (λ next.
        next ≡ page_mark (selection_text (record { slots = slots.now; rows = rows.now }))) }
    ensures text { OnOk result (string_bytes out.new
        ≡ string_bytes out.old ++ selection_text (record { slots = slots.now; rows = rows.now })) }
{
    let mark = push_places(alloc, out, slots)?;
    if rows.is_empty() {
        return Ok(mark);
    }
    push_rows(alloc, out, mark, rows)?;
    Ok('&')
}

/// Appends the number of a page other than 1 after a mark.
fn push_page(alloc: Global, out: &mut String, mark: char, page: u64) -> Result<(), OutOfMemory>
    requires { mark < 128 }
    ensures { OnOk result (string_bytes out.new ≡ string_bytes out.old ++ page_pair mark page) }
{
    if page != 1 {
        let digits = page.to_string(alloc)?;
        out.push(mark)?;
        out.push_str("page=")?;
        out.push_str(digits.as_str())?;
    }
    Ok(())
}

/// The address of a page of the fragment with these slots (Triple Pattern Fragments, paging), or of
/// what these rows leave of it: the expansion of the template `{?subject,predicate,object}` after the
/// base with the explicit forms of the fixed places, each row as `row=` and its value, and for every
/// page but 1 `page=` with the number. The authority is that of the base. Pages count from 1.
/// Condition: no fixed place is a blank node. It fails only when memory ran out.
pub fn page_address(
    alloc: Global,
    base: &WebAddress,
    slots: &Slots,
    rows: &[Slots],
    page: u64,
) -> Result<WebAddress, OutOfMemory>
    requires slots { HasNoBlank slots.now }
    requires rows { AllByRecursion HasNoBlank rows.now }
    ensures address { IfOk result (λ address.
        IsAddress (page_address base.now (record { slots = slots.now; rows = rows.now }) page) address) }
    ensures authority { IfOk result (λ address. ShareAuthority base.now address) }
{
    let mut text = String::from_str(alloc, base.text())?;
    let mark = push_selection(alloc, &mut text, slots, rows)?;
    push_page(alloc, &mut text, mark, page)?;
    Ok(base.extended(text))
}

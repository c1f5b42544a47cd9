// Forms: templates with the names of the three places.
ghost use Rattle.std.specs.Prelude.{◌≡◌, ◌++◌, IfOk, OnOk};
ghost use Rattle.tpf_base.specs.Addresses.{IsAddress, address_text};
ghost use Rattle.template_fill.specs.Authorities.{ShareAuthority};
ghost use Rattle.template_fill.specs.Forms.{HasNoBlank, HasNoBlankSlot, place_value, form_text, selection_form_text};
ghost use Rattle.std.specs.List.{AllByRecursion};

use crate::explicit_form::explicit;
use crate::rows::push_rows;
use crate::{Template, Value, WebAddress};
use rdf_terms::{Slot, Slots};
use std::alloc::Global;
use tpf_base::{OutOfMemory, Text};

/// A form of a fragment's server (hydra:search): a template, and the names of the variables for the
/// subject, the predicate and the object.
pub struct Form {
    /// The template of the addresses of first pages.
    pub template: Template,
    /// The name of the variable for the subject.
    pub subject: Text,
    /// The name of the variable for the predicate.
    pub predicate: Text,
    /// The name of the variable for the object.
    pub object: Text,
}

// Written out, so that who drops one calls this, and does not take it apart at each exit.
impl Drop for Form {
    fn drop(self) {
        let Form {
            template: _template,
            subject: _subject,
            predicate: _predicate,
            object: _object,
        } = self;
    }
}

/// Adds the value of a place, if it is fixed.
fn push_place(
    alloc: Global,
    values: &mut Vec<Value>,
    name: &Text,
    slot: &Slot,
) -> Result<(), OutOfMemory>
    requires { HasNoBlankSlot slot.now }
    ensures { OnOk result (values.new.items ≡ values.old.items ++ place_value name.now slot.now) }
{
    let Slot::Fixed(term) = slot else {
        return Ok(());
    };
    let value = Value {
        name: Text::copy(alloc, name.as_str())?,
        text: explicit(alloc, term)?,
    };
    values.push(value)?;
    Ok(())
}

impl Form {
    /// The address of the first page of the fragment with these slots: the template with the
    /// explicit forms of the fixed places. A place whose name the template has not is left out. The
    /// authority is that of the template's start.
    /// Condition: no fixed place is a blank node. It fails only when memory ran out.
    pub fn address(&self, alloc: Global, slots: &Slots) -> Result<WebAddress, OutOfMemory>
        requires { HasNoBlank slots.now }
        ensures address { IfOk result (λ address. IsAddress (form_text self.now slots.now) address) }
        ensures text { IfOk result (λ address. address_text address ≡ form_text self.now slots.now) }
        ensures authority { IfOk result (λ address. ShareAuthority self.now.template.start address) }
    {
        let mut values = Vec::new(alloc);
        push_place(alloc, &mut values, &self.subject, &slots.subject)?;
        push_place(alloc, &mut values, &self.predicate, &slots.predicate)?;
        push_place(alloc, &mut values, &self.object, &slots.object)?;
        self.template.expand(alloc, values.as_slice())
    }

    /// The address of the first page of what these rows leave of a fragment: that of the fragment, and
    /// each row as `row=` and its value, after `&` where the address has a `?` and after `?` else. Without
    /// a row it is that of the fragment. The authority is that of the template's start.
    /// Condition: no fixed place is a blank node. It fails only when memory ran out.
    pub fn selection_address(
        &self,
        alloc: Global,
        slots: &Slots,
        rows: &[Slots],
    ) -> Result<WebAddress, OutOfMemory>
        requires slots { HasNoBlank slots.now }
        requires rows { AllByRecursion HasNoBlank rows.now }
        ensures address { IfOk result (λ address.
            IsAddress (selection_form_text self.now (record { slots = slots.now; rows = rows.now })) address) }
        ensures authority { IfOk result (λ address. ShareAuthority self.now.template.start address) }
    {
        let address = self.address(alloc, slots)?;
        if rows.is_empty() {
            return Ok(address);
        }
        let mut text = String::from_str(alloc, address.text())?;
        push_rows(alloc, &mut text, address.further_mark(), rows)?;
        Ok(address.extended(text))
    }
}

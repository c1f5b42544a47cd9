// Rows in addresses: partly bound triples by which a fragment is restricted.
ghost use Rattle.std.specs.Prelude.{◌≡◌, ◌<◌, ◌∷◌, [], ◌++◌, Some, None, length, IfOk, OnOk, MatchOption};
ghost use Rattle.std.specs.List.{AllByRecursion};
ghost use Rattle.std.specs.String.{string_bytes};
ghost use Rattle.template_fill.specs.Forms.{HasNoBlank, HasNoBlankSlot};
ghost use Rattle.template_fill.specs.Rows.{places_between, row_of, row_pair, row_place, row_text, rows_text, slot_in_row, slots_in_row};

use crate::ValueFault;
use crate::explicit_form::{explicit, read_explicit};
use crate::part::cut;
use crate::value::push_value;
use percent_encoding::percent_decode;
use rdf_terms::{Slot, Slots};
use std::alloc::Global;
use std::str;
use tpf_base::OutOfMemory;

/// Appends the explicit form of a fixed place, encoded as a template writes a value; nothing for a free one.
fn push_place(alloc: Global, out: &mut String, slot: &Slot) -> Result<(), OutOfMemory>
    requires { HasNoBlankSlot slot.now }
    ensures { OnOk result (string_bytes out.new ≡ string_bytes out.old ++ row_place slot.now) }
{
    if let Slot::Fixed(term) = slot {
        let form = explicit(alloc, term)?;
        push_value(out, form.as_str())?;
    }
    Ok(())
}

/// The value of a row, not yet encoded: its three places with commas between.
#[tactic(auto, unfolding(crate::specs::Rows::row_text))]
fn row_value(alloc: Global, row: &Slots) -> Result<String, OutOfMemory>
    requires { HasNoBlank row.now }
    ensures { IfOk result (λ text. string_bytes text ≡ row_text row.now) }
{
    let mut value = String::new(alloc);
    push_place(alloc, &mut value, &row.subject)?;
    value.push(',')?;
    push_place(alloc, &mut value, &row.predicate)?;
    value.push(',')?;
    push_place(alloc, &mut value, &row.object)?;
    Ok(value)
}

/// Appends a row as `row=` and its value, after a mark.
fn push_row(alloc: Global, out: &mut String, mark: char, row: &Slots) -> Result<(), OutOfMemory>
    requires ascii { mark < 128 }
    requires terms { HasNoBlank row.now }
    ensures { OnOk result (string_bytes out.new ≡ string_bytes out.old ++ row_pair mark row.now) }
{
    let value = row_value(alloc, row)?;
    out.push(mark)?;
    out.push_str("row=")?;
    push_value(out, value.as_str())?;
    Ok(())
}

/// Appends the rows in their order, each as `row=` and its value, the first after this mark and each other after `&`.
pub(crate) fn push_rows(
    alloc: Global,
    out: &mut String,
    mark: char,
    rows: &[Slots],
) -> Result<(), OutOfMemory>
    requires ascii { mark < 128 }
    requires terms { AllByRecursion HasNoBlank rows.now }
    ensures { OnOk result (string_bytes out.new ≡ string_bytes out.old ++ rows_text mark rows.now) }
{
    let mut next = mark;
    for row in rows {
        push_row(alloc, out, next, row)?;
        next = '&';
    }
    Ok(())
}

/// How many bytes a row takes in an address: those of a mark, `row=` and its value.
/// Condition: no fixed place is a blank node. It fails only when memory ran out.
pub fn row_length(alloc: Global, row: &Slots) -> Result<usize, OutOfMemory>
    requires { HasNoBlank row.now }
    ensures { IfOk result (λ n. n ≡ length (rows_text 38 (row.now ∷ []))) }
{
    let mut text = String::new(alloc);
    push_row(alloc, &mut text, '&', row)?;
    Ok(text.as_str().len())
}

/// The slot of a place of a row, or `None` where it is refused.
fn read_place(alloc: Global, text: &[u8]) -> Result<Option<Slot>, OutOfMemory>
    ensures { IfOk result (λ slot. slot ≡ slot_in_row text.now) }
{
    let mut decoded = Vec::new(alloc);
    percent_decode(text).append_to(&mut decoded)?;
    let Ok(form) = str::from_utf8(decoded.as_slice()) else {
        return Ok(None);
    };
    match read_explicit(alloc, form) {
        Ok(slot) => Ok(Some(slot)),
        Err(ValueFault::OutOfMemory) => Err(OutOfMemory),
        Err(_) => Ok(None),
    }
}

/// The slots of the first two places, or `None` where one of them is refused.
fn read_first_places(
    alloc: Global,
    subject: &[u8],
    predicate: &[u8],
) -> Result<Option<(Slot, Slot)>, OutOfMemory>
    ensures { IfOk result (λ slots. slots ≡ slots_in_row subject.now predicate.now) }
{
    let Some(subject) = read_place(alloc, subject)? else {
        return Ok(None);
    };
    match read_place(alloc, predicate) {
        Ok(Some(predicate)) => Ok(Some((subject, predicate))),
        Ok(None) => {
            drop(subject);
            Ok(None)
        }
        Err(fault) => {
            drop(subject);
            Err(fault)
        }
    }
}

/// The three texts between exactly two commas.
fn places_between(text: &[u8]) -> Option<(&[u8], &[u8], &[u8])>
    ensures { MatchOption result (places_between text.now ≡ None)
        (λ p. places_between text.now ≡ Some (p.0.now, p.1.now, p.2.now)) }
{
    let (subject, rest) = cut(text, b',');
    let (predicate, rest) = cut(rest?, b',');
    let (object, more) = cut(rest?, b',');
    match more {
        None => Some((subject, predicate, object)),
        Some(_) => None,
    }
}

/// The row that the value of a parameter `row` is: three texts with commas between, for subject, predicate and
/// object, each of which is percent-decoded and read as an explicit form or left free. `None` exactly where there
/// are not two commas, or one of the three is no UTF-8 or no explicit form. It fails only when memory ran out.
#[tactic(auto, unfolding(crate::specs::Rows::row_of))]
pub fn read_row(alloc: Global, text: &str) -> Result<Option<Slots>, OutOfMemory>
    ensures { IfOk result (λ row. row ≡ row_of text.now) }
{
    let Some((subject, predicate, object)) = places_between(text.as_bytes()) else {
        return Ok(None);
    };
    let Some((subject, predicate)) = read_first_places(alloc, subject, predicate)? else {
        return Ok(None);
    };
    match read_place(alloc, object) {
        Ok(Some(object)) => Ok(Some(Slots {
            subject,
            predicate,
            object,
        })),
        Ok(None) => {
            drop(subject);
            drop(predicate);
            Ok(None)
        }
        Err(fault) => {
            drop(subject);
            drop(predicate);
            Err(fault)
        }
    }
}

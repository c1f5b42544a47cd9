// The parameters of a target's query part (URL Standard, section 5.1).
ghost use Rattle.std.specs.Prelude.{◌≡◌, ◌≤◌, ◌+◌, [], unwrap_or, take, drop, length, IfOk, OnOk};
ghost use Rattle.std.specs.List.{list_all};
ghost use Rattle.std.specs.Char.{is_ascii_digit};
ghost use Rattle.form_urlencoded.specs.Form.{raw_pairs};
ghost use Rattle.template_fill.specs.ReadAddress.{path_of, query_of};
ghost use Rattle.template_fill.specs.Explicit.{slot_of};
ghost use Rattle.template_fill.specs.Answers.{page_number};
ghost use Rattle.template_fill.specs.Rows.{accepted};
ghost use Rattle.tpf_server.specs.Parameters.{IsPage, decoded, found_in, noted, noted_if, noted_pair, page_in, row_noted_if, slot_in, slots_in};

use crate::rows::{RowValues, Rows};
use rdf_terms::{Slot, Slots};
use std::alloc::Global;
use template_fill::{ValueFault, read_explicit};
use tpf_base::{OutOfMemory, Text};

/// The values of a name: none, one, or more than one.
#[derive(Drop)]
pub enum Values {
    Absent,
    One(Text),
    Several,
}

/// The values of the names that ask for a page. There are no rows where they are passed over.
#[derive(Drop)]
pub struct Parameters {
    pub subject: Values,
    pub predicate: Values,
    pub object: Values,
    pub page: Values,
    pub rows: RowValues,
}

impl Parameters {
    /// The rows; the other values are dropped.
    pub fn into_rows(self) -> RowValues
        ensures { result ≡ self.rows }
    {
        self.rows
    }
}

/// A number of a page as parameters give it.
#[derive(Clone, Copy)]
pub enum PageNumber {
    Number(u64),
    /// A number that 64 bits do not hold.
    Beyond,
    /// No number above 0.
    Refused,
}

/// The place of the first `?`, or the length.
pub fn path_length(target: &[u8]) -> usize
    ensures within { result ≤ length target.now }
    ensures path { take result target.now ≡ path_of target.now }
    ensures query { drop (result + 1) target.now ≡ unwrap_or (query_of target.now) [] }
{
    for (i, b) in target.iter().enumerate() {
        if *b == b'?' {
            return i;
        }
    }
    target.len()
}

/// Notes one more value.
fn note(values: &mut Values, alloc: Global, value: &str) -> Result<(), OutOfMemory>
    ensures { OnOk result (values.new ≡ noted values.old value.now) }
{
    let more = match values {
        Values::Absent => Values::One(Text::copy(alloc, value)?),
        _ => Values::Several,
    };
    *values = more;
    Ok(())
}

/// Notes one more value, where the name is the wanted one.
fn note_if(
    values: &mut Values,
    alloc: Global,
    wanted: &str,
    name: &str,
    value: &str,
) -> Result<(), OutOfMemory>
    ensures { OnOk result (values.new ≡ noted_if wanted.now name.now value.now values.old) }
{
    if name == wanted {
        note(values, alloc, value)?;
    }
    Ok(())
}

/// Notes a row, where rows are read and the name is theirs.
fn note_row(
    rows: &mut RowValues,
    alloc: Global,
    reads_rows: bool,
    name: &str,
    value: &str,
) -> Result<(), OutOfMemory>
    ensures { OnOk result (rows.new ≡ row_noted_if reads_rows name.now value.now rows.old) }
{
    if reads_rows && name == "row" {
        rows.note(alloc, value)?;
    }
    Ok(())
}

/// Notes a pair; other names are passed over, and rows where they are not read.
#[tactic(auto, unfolding(crate::specs::Parameters::noted_pair))]
fn note_pair(
    found: &mut Parameters,
    alloc: Global,
    reads_rows: bool,
    name: &str,
    value: &str,
) -> Result<(), OutOfMemory>
    ensures { OnOk result (found.new ≡ noted_pair reads_rows found.old (name.now, value.now)) }
{
    note_if(&mut found.subject, alloc, "subject", name, value)?;
    note_if(&mut found.predicate, alloc, "predicate", name, value)?;
    note_if(&mut found.object, alloc, "object", name, value)?;
    note_if(&mut found.page, alloc, "page", name, value)?;
    note_row(&mut found.rows, alloc, reads_rows, name, value)
}

/// The values that a query part gives, where rows are read or passed over.
#[tactic(auto, using(crate::proofs::Gathered::all_found))]
pub fn found_in(alloc: Global, reads_rows: bool, query: &[u8]) -> Result<Parameters, OutOfMemory>
    ensures { IfOk result (λ found. found ≡ found_in reads_rows (decoded (raw_pairs query.now))) }
{
    let mut found = Parameters {
        subject: Values::Absent,
        predicate: Values::Absent,
        object: Values::Absent,
        page: Values::Absent,
        rows: RowValues::Read(Rows::new(alloc)),
    };
    for pair in form_urlencoded::parse(alloc, query) {
        let Ok((name, value)) = pair else {
            drop(found);
            return Err(OutOfMemory);
        };
        let noted = note_pair(&mut found, alloc, reads_rows, name.as_str(), value.as_str());
        drop(name);
        drop(value);
        match noted {
            Ok(()) => {}
            Err(fault) => {
                drop(found);
                return Err(fault);
            }
        }
    }
    Ok(found)
}

/// The slot that a text stands for, or `None` where it is refused.
fn accepted(alloc: Global, text: &str) -> Result<Option<Slot>, OutOfMemory>
    ensures { IfOk result (λ slot. slot ≡ accepted (slot_of text.now)) }
{
    match read_explicit(alloc, text) {
        Ok(slot) => Ok(Some(slot)),
        Err(ValueFault::OutOfMemory) => Err(OutOfMemory),
        Err(_) => Ok(None),
    }
}

/// The slot that the values of a name give, or `None` where they give none.
fn slot(alloc: Global, values: &Values) -> Result<Option<Slot>, OutOfMemory>
    ensures { IfOk result (λ slot. slot ≡ slot_in values.now) }
{
    match values {
        Values::Absent => Ok(Some(Slot::Any)),
        Values::One(text) => accepted(alloc, text.as_str()),
        Values::Several => Ok(None),
    }
}

/// The slots that parameters give, or `None` where a name gives none.
pub fn slots(alloc: Global, found: &Parameters) -> Result<Option<Slots>, OutOfMemory>
    ensures { IfOk result (λ slots. slots ≡ slots_in found.now) }
{
    let Some(subject) = slot(alloc, &found.subject)? else {
        return Ok(None);
    };
    let predicate = match slot(alloc, &found.predicate) {
        Ok(Some(predicate)) => predicate,
        Ok(None) => {
            // Dropped here, so that no other way out has it.
            drop(subject);
            return Ok(None);
        }
        Err(fault) => {
            drop(subject);
            return Err(fault);
        }
    };
    match slot(alloc, &found.object) {
        Ok(Some(object)) => Ok(Some(Slots {
            subject,
            predicate,
            object,
        })),
        Ok(None) => {
            drop(subject);
            drop(predicate);
            Ok(None)
        }
        Err(fault) => {
            drop(subject);
            drop(predicate);
            Err(fault)
        }
    }
}

fn are_digits(text: &[u8]) -> bool
    ensures { result ≡ list_all is_ascii_digit text.now }
{
    text.iter().all(|b| b.is_ascii_digit())
}

/// The number of a page that a text stands for.
fn page_number(text: &str) -> PageNumber
    ensures { IsPage (page_number text.now) result }
{
    if text.is_empty() {
        return PageNumber::Number(1);
    }
    if !are_digits(text.as_bytes()) {
        return PageNumber::Refused;
    }
    match text.parse::<u64>() {
        Ok(0) => PageNumber::Refused,
        Ok(number) => PageNumber::Number(number),
        Err(_) => PageNumber::Beyond,
    }
}

/// The number of a page that the values of its name give.
pub fn page(values: &Values) -> PageNumber
    ensures { IsPage (page_in values.now) result }
{
    match values {
        Values::Absent => PageNumber::Number(1),
        Values::One(text) => page_number(text.as_str()),
        Values::Several => PageNumber::Refused,
    }
}

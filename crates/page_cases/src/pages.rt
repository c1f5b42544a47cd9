// Pages that are read.
ghost use Rattle.template_fill.specs.Forms.{HasNoBlank};

use crate::addresses::{address_of, spaced};
use crate::metadata::lines_of;
use crate::slots::push_term;
use case_rows::{Case, CaseFault, bytes_text, debug_text, number_or_none, word_text};
use control_reader::{Page, PageFault, read_page};
use own_controls::{OwnControls, own_controls};
use rdf_terms::{Slot, Slots, Triple};
use std::alloc::Global;
use template_fill::{Form, WebAddress};

/// The next page.
fn next_text(page: &Page) -> &str {
    match &page.next {
        Some(next) => next.text(),
        None => "none",
    }
}

/// The number of triples, the count and the next page.
fn numbers(alloc: Global, page: &Page) -> Result<String, CaseFault> {
    let triples = page.triples.as_slice().len();
    let next = next_text(page);
    Ok(format!(in alloc; "{triples} {} {next}", page.count)?)
}

/// Slots of which none is fixed.
fn free() -> Slots
    ensures { HasNoBlank result }
{
    Slots {
        subject: Slot::Any,
        predicate: Slot::Any,
        object: Slot::Any,
    }
}

/// The names of a form, and the address that it gives for these slots.
fn filled(alloc: Global, form: &Form, slots: &Slots) -> Result<String, CaseFault>
    requires { HasNoBlank slots.now }
{
    let subject = form.subject.as_str();
    let predicate = form.predicate.as_str();
    let object = form.object.as_str();
    match form.address(alloc, slots) {
        Ok(address) => spaced(alloc, &[subject, predicate, object, address.text()]),
        Err(_) => Err(CaseFault::OutOfMemory),
    }
}

/// The names of the form, and the address that it gives where nothing is fixed.
fn form(alloc: Global, page: &Page) -> Result<String, CaseFault> {
    let slots = free();
    let text = filled(alloc, &page.form, &slots);
    drop(slots);
    text
}

/// Appends the terms of a triple.
fn push_triple(triple: &Triple, out: &mut Vec<u8>) -> Result<(), CaseFault> {
    push_term(&triple.subject, out)?;
    push_term(&triple.predicate, out)?;
    push_term(&triple.object, out)
}

/// The triples in their order.
fn triples(alloc: Global, page: &Page) -> Result<String, CaseFault> {
    let mut out = Vec::new(alloc);
    for triple in page.triples.as_slice() {
        push_triple(triple, &mut out)?;
    }
    bytes_text(alloc, out.as_slice())
}

/// What is to be shown of a page.
fn page_text(alloc: Global, page: &Page, show: &str) -> Result<String, CaseFault> {
    match show {
        "version" => number_or_none(alloc, page.version),
        "numbers" => numbers(alloc, page),
        "form" => form(alloc, page),
        "triples" => triples(alloc, page),
        "fault" => word_text(alloc, "page"),
        _ => Err(CaseFault::Row),
    }
}

/// The fault, or what is to be shown of the page that is read at an address.
fn shown(
    alloc: Global,
    body: &[u8],
    address: &WebAddress,
    show: &str,
) -> Result<String, CaseFault> {
    match read_page(alloc, body, address) {
        Ok(page) => page_text(alloc, &page, show),
        Err(PageFault::OutOfMemory) => Err(CaseFault::OutOfMemory),
        Err(fault) => debug_text(alloc, &fault),
    }
}

/// `address`, `show`: the same of a body.
fn shown_of(alloc: Global, case: &mut Case<'_>, body: &[u8]) -> Result<String, CaseFault> {
    let show = case.text(alloc, "show")?;
    let address = address_of(alloc, case, "address")?;
    shown(alloc, body, &address, show.as_str())
}

/// `address`, `body`, `show`: the fault, or what is to be shown of the page: its `version`, its `numbers` (of triples,
/// the count, the next page), its `form`, its `triples`, or the word `page` for `fault`.
pub fn page(alloc: Global, case: &mut Case<'_>) -> Result<String, CaseFault> {
    let body = case.bytes(alloc, "body")?;
    shown_of(alloc, case, body.as_slice())
}

/// Appends the metadata of the page of the row.
fn push_lines(alloc: Global, case: &mut Case<'_>, body: &mut Vec<u8>) -> Result<(), CaseFault> {
    let lines = lines_of(alloc, case)?;
    Ok(body.extend_from_slice(lines.text.as_slice())?)
}

/// `behind`: appends the text behind the metadata.
fn push_behind(alloc: Global, case: &mut Case<'_>, body: &mut Vec<u8>) -> Result<(), CaseFault> {
    let behind = case.bytes(alloc, "behind")?;
    Ok(body.extend_from_slice(behind.as_slice())?)
}

/// `before`, `behind`, and the page of the row: its metadata between these texts.
fn body_of(alloc: Global, case: &mut Case<'_>) -> Result<Vec<u8>, CaseFault> {
    let mut body = case.bytes(alloc, "before")?;
    push_lines(alloc, case, &mut body)?;
    push_behind(alloc, case, &mut body)?;
    Ok(body)
}

/// `address`, `before`, `behind`, `show`, and the page of the row: what is to be shown where its metadata, between
/// these texts, are read at the address.
pub fn read_back(alloc: Global, case: &mut Case<'_>) -> Result<String, CaseFault> {
    let body = body_of(alloc, case)?;
    shown_of(alloc, case, body.as_slice())
}

/// What is told of a page of our own: the length of the lines before its controls, the count, the template, the next page
/// and the version.
fn own_text(alloc: Global, own: &OwnControls) -> Result<String, CaseFault> {
    let OwnControls {
        front,
        count,
        template,
        next,
        version,
    } = own;
    let next = next.unwrap_or("none");
    Ok(format!(in alloc; "{} {count} {template} {next} {version}", front.len())?)
}

/// `address`: what is told by a body, where it has the controls of a page of our own; else `other`.
fn own_of(alloc: Global, case: &mut Case<'_>, body: &[u8]) -> Result<String, CaseFault> {
    let address = address_of(alloc, case, "address")?;
    match own_controls(body, &address) {
        Some(own) => own_text(alloc, &own),
        None => word_text(alloc, "other"),
    }
}

/// `address`, `before`, `behind`, and the page of the row: what is told by its metadata, between these texts, where they
/// are the controls of a page of our own; else `other`.
pub fn own(alloc: Global, case: &mut Case<'_>) -> Result<String, CaseFault> {
    let body = body_of(alloc, case)?;
    own_of(alloc, case, body.as_slice())
}

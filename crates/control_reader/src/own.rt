// The page of a server of our own, whose controls are compared and not read.
ghost use Rattle.std.specs.Prelude.{ℕ, ◌≡◌, true, List, codes, is_none, Some, IfOk};
ghost use Rattle.std.specs.List.{list_all};
ghost use Rattle.rdf_terms.specs.declared.term.Quad.{Quad};
ghost use Rattle.tpf_base.specs.Addresses.{IsAddress, authority_of};
ghost use Rattle.template_fill.specs.Templates.{read_template};
ghost use Rattle.page_controls.specs.Controls.{names_all};
ghost use Rattle.control_reader.specs.Takes.{Takes};
ghost use Rattle.control_reader.specs.Own.{IsData, IsOwnForm, IsOwnNext, own_texts};
ghost use Rattle.control_reader.specs.Blanks.{TakesTriples};

use crate::ascending::ascend;
use crate::contents::{take_all, take_triples};
use control_triples::first_marks;
use fragment_page::{Page, PageFault, TripleList};
use nquads_text::{TextFault, read_all};
use own_controls::own_controls;
use page_controls::is_home;
use rdf_terms::{LONGEST_READ, Quad, Triple};
use std::alloc::Global;
use template_fill::{AddressFault, Form, Template, TemplateFault, WebAddress};
use tpf_base::{OutOfMemory, Text, all_three};

/// Why a body is not read in this way.
#[derive(Clone, Copy)]
pub(crate) enum NotOwn {
    /// It is read as any other.
    Other,
    /// Memory ran out.
    OutOfMemory,
}

impl From<OutOfMemory> for NotOwn {
    ghost use Rattle.std.specs.Prelude.{◌≡◌};
    ghost use Rattle.control_reader.specs.declared.own.NotOwn.TheVariants as faults;

    ghost from_gives = { λ _ e. e ≡ faults.OutOfMemory };

    fn from(_: OutOfMemory) -> Self {
        NotOwn::OutOfMemory
    }
}

fn are_data(quads: &[Quad]) -> bool
    ensures { result ≡ list_all (λ (q : Quad). is_none q.graph) quads.now }
{
    quads.iter().all(|quad| quad.graph.is_none())
}

/// The quads of the lines before the controls, all of the default graph.
fn data_quads(alloc: Global, front: &[u8]) -> Result<Vec<Quad>, NotOwn>
    ensures { IfOk result (λ v. IsData front.now v.items) }
{
    match read_all(alloc, front, LONGEST_READ) {
        Err(TextFault::OutOfMemory) => Err(NotOwn::OutOfMemory),
        Err(TextFault::Bad { .. }) => Err(NotOwn::Other),
        Ok(quads) => {
            if are_data(quads.as_slice()) {
                Ok(quads)
            } else {
                Err(NotOwn::Other)
            }
        }
    }
}

/// The distinct triples of quads of the default graph. Those of a server's page ascend, so none of them is looked for.
fn distinct_triples(alloc: Global, quads: Vec<Quad>) -> Result<Vec<Triple>, PageFault>
    requires { list_all (λ (q : Quad). is_none q.graph) quads.items ≡ true }
    ensures { IfOk result (λ v. TakesTriples quads.items v.items) }
{
    if ascend(quads.as_slice()) {
        return take_all(alloc, quads);
    }
    let marks = first_marks(alloc, quads.as_slice())?;
    take_triples(alloc, quads, marks)
}

/// The distinct triples of the lines before the controls.
fn data_triples(alloc: Global, front: &[u8]) -> Result<Vec<Triple>, NotOwn>
    ensures { IfOk result (λ v. (quads : List Quad) × IsData front.now quads × TakesTriples quads v.items) }
{
    let quads = data_quads(alloc, front)?;
    match distinct_triples(alloc, quads) {
        Ok(triples) => Ok(triples),
        Err(PageFault::OutOfMemory) => Err(NotOwn::OutOfMemory),
        Err(_) => Err(NotOwn::Other),
    }
}

fn template_of(alloc: Global, text: &str) -> Result<Template, NotOwn>
    ensures { IfOk result (λ template. read_template text.now ≡ Some template) }
{
    match Template::read(alloc, text) {
        Ok(template) => Ok(template),
        Err(TemplateFault::BadTemplate) => Err(NotOwn::Other),
        Err(TemplateFault::OutOfMemory) => Err(NotOwn::OutOfMemory),
    }
}

/// Whether a template names the variables of our own.
fn has_own_names(template: &Template) -> bool
    ensures { (text : List ℕ) → result ≡ names_all template.now (own_texts text) }
{
    template.names("subject") && (template.names("predicate") && template.names("object"))
}

/// The form with this template and the variables of our own.
fn with_own_names(alloc: Global, template: Template) -> Result<Form, OutOfMemory>
    ensures { IfOk result (λ form. form ≡ record {
      template = template;
      subject = codes "subject";
      predicate = codes "predicate";
      object = codes "object";
    }) }
{
    let subject = Text::copy(alloc, "subject");
    let predicate = Text::copy(alloc, "predicate");
    let object = Text::copy(alloc, "object");
    let (subject, predicate, object) = all_three(subject, predicate, object)?;
    Ok(Form {
        template,
        subject,
        predicate,
        object,
    })
}

/// The form with this template and the variables of our own, of the authority of the address.
fn own_form(alloc: Global, text: &str, address: &WebAddress) -> Result<Form, NotOwn>
    ensures { IfOk result (IsOwnForm text.now (authority_of address.now)) }
{
    let template = template_of(alloc, text)?;
    if !has_own_names(&template) {
        return Err(NotOwn::Other);
    }
    if !is_home(&template, address) {
        return Err(NotOwn::Other);
    }
    Ok(with_own_names(alloc, template)?)
}

/// The address of the authority that a text is.
fn home_address(alloc: Global, text: &str, address: &WebAddress) -> Result<WebAddress, NotOwn>
    ensures { IfOk result (λ a. IsAddress text.now a × (authority_of a ≡ authority_of address.now)) }
{
    let read = match WebAddress::read(alloc, text) {
        Ok(read) => read,
        Err(AddressFault::BadAddress) => return Err(NotOwn::Other),
        Err(AddressFault::OutOfMemory) => return Err(NotOwn::OutOfMemory),
    };
    if read.same_authority(address) {
        Ok(read)
    } else {
        Err(NotOwn::Other)
    }
}

/// The address of the next page, if there is one.
fn own_next(
    alloc: Global,
    next: Option<&str>,
    address: &WebAddress,
) -> Result<Option<WebAddress>, NotOwn>
    ensures { IfOk result (IsOwnNext (authority_of address.now) next.entry) }
{
    match next {
        None => Ok(None),
        Some(text) => {
            let next = home_address(alloc, text, address)?;
            Ok(Some(next))
        }
    }
}

/// The page that a body gives which ends with the controls of a server of our own.
pub(crate) fn read_own(alloc: Global, body: &[u8], address: &WebAddress) -> Result<Page, NotOwn>
    ensures { IfOk result (Takes body.now address.now) }
{
    let Some(own) = own_controls(body, address) else {
        return Err(NotOwn::Other);
    };
    let triples = data_triples(alloc, own.front)?;
    let form = own_form(alloc, own.template, address)?;
    let next = own_next(alloc, own.next, address)?;
    Ok(Page {
        triples: TripleList::from_vec(triples),
        count: own.count,
        next,
        form,
        version: Some(own.version),
    })
}

// Reading a page.
ghost use Rattle.std.specs.Prelude.{IfOk, IfErr};
ghost use Rattle.fragment_page.specs.declared.page.Page.{Page};
ghost use Rattle.fragment_page.specs.declared.page.PageFault.{PageFault};
ghost use Rattle.page_controls.specs.Outcomes.{Answers, IsFaultOf};
ghost use Rattle.control_reader.specs.Takes.{Takes, Faults, IsBody, WhyNoBody};
ghost use Rattle.control_reader.specs.Outcomes.{IsPageOrMemory, IsFaultOrMemory};

use crate::contents::take_triples;
use crate::own::{NotOwn, read_own};
use fragment_page::{Page, PageFault, TripleList};
use nquads_text::{TextFault, read_all};
use page_controls::{PageControls, Told, read_controls};
use rdf_terms::{LONGEST_READ, Quad};
use std::alloc::Global;
use template_fill::WebAddress;

/// The quads of a body.
fn read_quads(alloc: Global, body: &[u8]) -> Result<Vec<Quad>, PageFault>
    ensures { Answers (λ v. IsBody body.now v.items) (WhyNoBody body.now) result }
{
    match read_all(alloc, body, LONGEST_READ) {
        Ok(quads) => Ok(quads),
        Err(TextFault::Bad { .. }) => Err(PageFault::Text),
        Err(TextFault::OutOfMemory) => Err(PageFault::OutOfMemory),
    }
}

/// Reads a page whatever form it has.
fn read_any(alloc: Global, body: &[u8], address: &WebAddress) -> Result<Page, PageFault>
    ensures { Answers (Takes body.now address.now) (Faults body.now address.now) result }
{
    let quads = match read_quads(alloc, body) {
        Ok(quads) => quads,
        Err(fault) => return Err(fault),
    };
    let parts = match read_controls(alloc, quads.as_slice(), address) {
        Ok(parts) => parts,
        Err(fault) => return Err(fault),
    };
    let PageControls { told, marks } = parts;
    let triples = match take_triples(alloc, quads, marks) {
        Ok(triples) => TripleList::from_vec(triples),
        Err(fault) => return Err(fault),
    };
    let Told {
        count,
        form,
        next,
        version,
    } = told;
    Ok(Page {
        triples,
        count,
        next,
        form,
        version,
    })
}

/// The form of our own servers comes first, since its controls are known before they are read.
fn read_exactly(alloc: Global, body: &[u8], address: &WebAddress) -> Result<Page, PageFault>
    ensures { Answers (Takes body.now address.now) (Faults body.now address.now) result }
{
    match read_own(alloc, body, address) {
        Ok(page) => Ok(page),
        Err(NotOwn::OutOfMemory) => Err(PageFault::OutOfMemory),
        Err(NotOwn::Other) => read_any(alloc, body, address),
    }
}

/// Reads the page that stands under an address from the body of its reply (Triple Pattern Fragments, "Data", "Metadata"
/// and "Controls"). Which quads occur decides, and not their order.
///
/// The first fault that the body has, in the order of `PageFault`, is told. `OutOfMemory` comes only when memory ran out.
pub fn read_page(alloc: Global, body: &[u8], address: &WebAddress) -> Result<Page, PageFault>
    // What is taken, and what is refused.
    ensures taken { IfOk result (Takes body.now address.now) }
    ensures refused { IfErr result (IsFaultOf (Faults body.now address.now)) }
    // It is taken or refused exactly so, unless memory runs out.
    ensures only_taken { (page : Page) → Takes body.now address.now page → IsPageOrMemory page result }
    ensures only_refused { (fault : PageFault) → Faults body.now address.now fault → IsFaultOrMemory fault result }
{
    read_exactly(alloc, body, address)
}

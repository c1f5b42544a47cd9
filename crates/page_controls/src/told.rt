// What the quads of a body tell of its page.
ghost use Rattle.std.specs.Prelude.{◌≡◌};
ghost use Rattle.tpf_base.specs.Addresses.{authority_of};
ghost use Rattle.control_triples.specs.Contents.{page_triples};
ghost use Rattle.control_triples.specs.Marks.{marked};
ghost use Rattle.page_controls.specs.Outcomes.{Answers};
ghost use Rattle.page_controls.specs.Stages.{TakesControls, FirstAmiss, IsTopicTerm, TakesPage, WhyNoPage};
ghost use Rattle.control_triples.specs.Parts.{abouts, abouts_of};

use crate::count::read_count;
use crate::form::find_form;
use crate::link::{check_home, read_next};
use control_triples::{
    Controls, GraphTopic, controls_in, find_topic, first_marks, iri, read_version, topics_of,
};
use fragment_page::PageFault;
use rdf_terms::{Quad, Term};
use std::alloc::Global;
use template_fill::{Form, WebAddress};

/// What the controls tell: the number of triples that the fragment is said to have, the form of the server, the address
/// of the next page, if there is one, and the version of the data, where exactly one is said, in 1 to `MOST_DIGITS`
/// digits (19).
#[derive(Drop)]
pub struct Told {
    pub count: u64,
    pub form: Form,
    pub next: Option<WebAddress>,
    pub version: Option<u64>,
}

/// What the quads of a body tell, and for each quad whether it is the first with its triple in the default graph.
#[derive(Drop)]
pub struct PageControls {
    pub told: Told,
    pub marks: Vec<bool>,
}

/// What the control quads of a topic tell.
fn read_told(alloc: Global, controls: &Controls, address: &WebAddress) -> Result<Told, PageFault>
    ensures { Answers (TakesControls controls.now.quads controls.now.topic (authority_of address.now))
        (FirstAmiss controls.now.quads controls.now.topic (authority_of address.now)) result }
{
    let count = read_count(alloc, controls)?;
    let form = find_form(alloc, controls)?;
    let next = read_next(alloc, controls, address)?;
    check_home(&form.template, address)?;
    let version = read_version(alloc, controls)?;
    Ok(Told {
        count,
        form,
        next,
        version,
    })
}

/// What the quads of a body tell of its topic.
fn read_topic<'a>(
    alloc: Global,
    quads: &'a [Quad],
    topics: &[GraphTopic<'a>],
    topic: &'a Term,
    address: &WebAddress,
) -> Result<PageControls, PageFault>
    requires topics { abouts topics.now ≡ abouts_of quads.now }
    requires topic { IsTopicTerm quads.now address.now topic.now }
    ensures { Answers (λ p. TakesPage quads.now address.now p.told
        × (marked quads.now p.marks.items ≡ page_triples quads.now)) (WhyNoPage quads.now address.now) result }
{
    let controls = controls_in(alloc, quads, topics, topic)?;
    let marks = first_marks(alloc, quads)?;
    let controls = Controls::new(quads, topic, controls);
    let told = read_told(alloc, &controls, address)?;
    Ok(PageControls { told, marks })
}

/// Reads what the quads of a body tell of the page that stands under this address (Triple Pattern Fragments, "Metadata"
/// and "Controls"). Which quads occur decides, and not their order.
///
/// The first fault of the controls, in the order of `PageFault`, is told: from `NoTopic` to `ForeignLink`.
/// `OutOfMemory` comes only when memory ran out.
pub fn read_controls(
    alloc: Global,
    quads: &[Quad],
    address: &WebAddress,
) -> Result<PageControls, PageFault>
    ensures { Answers (λ p. TakesPage quads.now address.now p.told
        × (marked quads.now p.marks.items ≡ page_triples quads.now)) (WhyNoPage quads.now address.now) result }
{
    let topics = topics_of(alloc, quads)?;
    let own = iri(alloc, address.text())?;
    let found = find_topic(topics.as_slice(), &own);
    // Dropped here, so that no exit below has it.
    drop(own);
    let Some(topic) = found else {
        return Err(PageFault::NoTopic);
    };
    read_topic(alloc, quads, topics.as_slice(), topic, address)
}

// The table of the statements of a page's metadata, by their places.
ghost use Rattle.std.specs.Prelude.{◌≡◌, ◌<◌, [], ◌∷◌, ◌++◌, codes, length, true, IsTrue, slice_index_or};
ghost use Rattle.std.specs.List.{list_all};
ghost use Rattle.rdf_terms.specs.Iri.{is_iri_byte};
ghost use Rattle.rdf_terms.specs.Label.{is_label};
ghost use Rattle.rdf_terms.specs.declared.term.Quad.{Quad};
ghost use Rattle.template_fill.specs.Metadata.{graph_at, plain, statement, link_quads};
ghost use Rattle.hydra_controls.specs.LineTexts.{is_plain_byte};
ghost use Rattle.hydra_controls.specs.Facts.{AreFacts, addresses_on, closing_of, counts_of, form_of, links_of, mapping_of, mappings_of, page_text, quads_of, topic_of, version_of};
ghost use Rattle.metadata_quads.specs.TermTexts.{AreTerms, IsTerm, quad_of, term_of};

use crate::quad_text::QuadText;
use crate::term_text::{
    TermKind, TermText, blank, count, digits, foaf, hydra, iri, owl, plain, rdf, void,
};
use hydra_controls::PageFacts;
use rdf_terms::Term;

// ---- terms

/// The address of a page with a fragment identifier behind it, as an IRI (RFC 3986, section 3.5).
fn section<'a>(facts: PageFacts<'a>, number: u64, name: &'a str) -> TermText<'a>
    requires facts { AreFacts facts }
    requires name { list_all is_iri_byte name.now ≡ true }
    ensures term { term_of result ≡ Term.Iri (page_text facts.entry.first.now facts.entry.fixed number ++ name.now) }
    ensures text { IsTerm result }
{
    TermText {
        kind: TermKind::Iri,
        text: facts.page_then(number, name),
    }
}

/// The address of a page, as an IRI.
fn page(facts: PageFacts<'_>, number: u64) -> TermText<'_>
    requires { AreFacts facts }
    ensures term { term_of result ≡ Term.Iri (page_text facts.entry.first.now facts.entry.fixed number) }
    ensures text { IsTerm result }
{
    section(facts, number, "")
}

/// The data set.
fn data_set(facts: PageFacts<'_>) -> TermText<'_>
    requires { AreFacts facts }
    ensures term { term_of result ≡ Term.Iri (facts.entry.base.now ++ codes "#dataset") }
    ensures text { IsTerm result }
{
    iri(facts.base, "#dataset")
}

/// The text of the template.
fn template(facts: PageFacts<'_>) -> TermText<'_>
    requires { AreFacts facts }
    ensures term { term_of result ≡ plain (facts.entry.base.now ++ codes "{?subject,predicate,object}") }
    ensures text { IsTerm result }
{
    plain(facts.base, "{?subject,predicate,object}")
}

/// A statement of the graph of the page's metadata.
fn says<'a>(
    facts: PageFacts<'a>,
    subject: TermText<'a>,
    predicate: TermText<'a>,
    object: TermText<'a>,
) -> QuadText<'a>
    requires facts { AreFacts facts }
    requires subject { IsTerm subject }
    requires predicate { IsTerm predicate }
    requires object { IsTerm object }
    ensures quad { quad_of result ≡ statement (graph_at (addresses_on facts.entry))
        (term_of subject.entry) (term_of predicate.entry) (term_of object.entry) }
    ensures terms { AreTerms result }
{
    QuadText {
        subject,
        predicate,
        object,
        graph: section(facts, facts.number, "#metadata"),
    }
}

// ---- statements

/// What the graph is about, and that the data set has the fragment as a part, and a form.
#[tactic(auto, using(crate::proofs::Labels::form_is_label))]
fn topic(facts: PageFacts<'_>, i: usize) -> QuadText<'_>
    requires facts { AreFacts facts }
    requires within { i < 3 }
    ensures said { (d : Quad) → slice_index_or (topic_of facts.entry) i d ≡ quad_of result }
    ensures terms { AreTerms result }
{
    let this = page(facts, facts.number);
    if i == 0 {
        let graph = section(facts, facts.number, "#metadata");
        return says(facts, graph, foaf("primaryTopic"), this);
    }
    if i == 1 {
        return says(facts, data_set(facts), void("subset"), page(facts, 1));
    }
    says(facts, data_set(facts), hydra("search"), blank("form"))
}

/// The form's template, and that its values are explicit forms.
#[tactic(auto, using(crate::proofs::Labels::form_is_label))]
fn form(facts: PageFacts<'_>, i: usize) -> QuadText<'_>
    requires facts { AreFacts facts }
    requires within { i < 2 }
    ensures said { (d : Quad) → slice_index_or (form_of facts.entry) i d ≡ quad_of result }
    ensures terms { AreTerms result }
{
    let form = blank("form");
    if i == 0 {
        return says(facts, form, hydra("template"), template(facts));
    }
    let explicit = hydra("ExplicitRepresentation");
    says(facts, form, hydra("variableRepresentation"), explicit)
}

/// That a variable of the form stands for the place of a triple with this name.
#[tactic(auto, using(crate::proofs::Labels::form_is_label))]
fn mapping<'a>(facts: PageFacts<'a>, label: &'a str, name: &'a str, i: usize) -> QuadText<'a>
    requires facts { AreFacts facts }
    requires label { IsTrue (is_label label.now) }
    requires name { list_all is_iri_byte name.now ≡ true }
    requires form { list_all is_plain_byte name.now ≡ true }
    requires within { i < 3 }
    ensures said { (d : Quad) → slice_index_or (mapping_of facts.entry label.now name.now) i d ≡ quad_of result }
    ensures terms { AreTerms result }
{
    let mapping = blank(label);
    if i == 0 {
        return says(facts, blank("form"), hydra("mapping"), mapping);
    }
    if i == 1 {
        return says(facts, mapping, hydra("variable"), plain("", name));
    }
    says(facts, mapping, hydra("property"), rdf(name))
}

/// For which places the variables of the form stand.
#[tactic(auto, using(crate::proofs::Labels::subject_is_label, crate::proofs::Labels::predicate_is_label, crate::proofs::Labels::object_is_label, crate::proofs::TableLaws::first_mapping))]
fn mappings(facts: PageFacts<'_>, i: usize) -> QuadText<'_>
    requires facts { AreFacts facts }
    requires within { i < 9 }
    ensures said { (d : Quad) → slice_index_or (mappings_of facts.entry) i d ≡ quad_of result }
    ensures terms { AreTerms result }
{
    if i < 3 {
        mapping(facts, "s", "subject", i)
    } else if i < 6 {
        mapping(facts, "p", "predicate", i - 3)
    } else {
        mapping(facts, "o", "object", i - 6)
    }
}

/// That the page is a part of its fragment, and how many triples that has.
fn counts(facts: PageFacts<'_>, i: usize) -> QuadText<'_>
    requires facts { AreFacts facts }
    requires within { i < 4 }
    ensures said { (d : Quad) → slice_index_or (counts_of facts.entry) i d ≡ quad_of result }
    ensures terms { AreTerms result }
{
    let this = page(facts, facts.number);
    if i == 0 {
        return says(facts, page(facts, 1), void("subset"), this);
    }
    if i == 1 {
        return says(facts, this, hydra("totalItems"), count(facts.count));
    }
    if i == 2 {
        return says(facts, this, void("triples"), count(facts.count));
    }
    says(facts, this, hydra("first"), page(facts, 1))
}

/// The link to another page.
fn link<'a>(facts: PageFacts<'a>, name: &'a str, number: u64) -> QuadText<'a>
    requires facts { AreFacts facts }
    requires name { list_all is_iri_byte name.now ≡ true }
    ensures said { link_quads true (graph_at (addresses_on facts.entry)) (addresses_on facts.entry).page name.now
        (page_text facts.entry.first.now facts.entry.fixed number) ≡ quad_of result ∷ [] }
    ensures terms { AreTerms result }
{
    says(
        facts,
        page(facts, facts.number),
        hydra(name),
        page(facts, number),
    )
}

/// The version of the data set.
fn version(facts: PageFacts<'_>) -> QuadText<'_>
    requires { AreFacts facts }
    ensures said { version_of facts.entry ≡ quad_of result ∷ [] }
    ensures terms { AreTerms result }
{
    says(
        facts,
        data_set(facts),
        owl("versionInfo"),
        digits(facts.version),
    )
}

/// The link to the previous page, if there is one, and the version.
fn previous_and_version(facts: PageFacts<'_>, i: usize) -> QuadText<'_>
    requires facts { AreFacts facts }
    requires within { i < length (closing_of facts) }
    ensures said { (d : Quad) → slice_index_or (closing_of facts.entry) i d ≡ quad_of result }
    ensures terms { AreTerms result }
{
    if 1 < facts.number {
        if i == 0 {
            return link(facts, "previous", facts.number - 1);
        }
    }
    version(facts)
}

/// The links to the next and the previous page, as far as there are such, and the version.
fn links_and_version(facts: PageFacts<'_>, i: usize) -> QuadText<'_>
    requires facts { AreFacts facts }
    requires within { i < length (links_of facts) }
    ensures said { (d : Quad) → slice_index_or (links_of facts.entry) i d ≡ quad_of result }
    ensures terms { AreTerms result }
{
    if facts.number < facts.last {
        if i == 0 {
            return link(facts, "next", facts.number + 1);
        }
        return previous_and_version(facts, i - 1);
    }
    previous_and_version(facts, i)
}

/// The statement in this place.
#[tactic(auto, using(hydra_controls::proofs::TableLaws::in_topic, hydra_controls::proofs::TableLaws::links_within))]
pub(crate) fn quad(facts: PageFacts<'_>, i: usize) -> QuadText<'_>
    requires facts { AreFacts facts }
    requires within { i < length (quads_of facts) }
    ensures said { (d : Quad) → slice_index_or (quads_of facts.entry) i d ≡ quad_of result }
    ensures terms { AreTerms result }
{
    if i < 3 {
        topic(facts, i)
    } else if i < 5 {
        form(facts, i - 3)
    } else if i < 14 {
        mappings(facts, i - 5)
    } else if i < 18 {
        counts(facts, i - 14)
    } else {
        links_and_version(facts, i - 18)
    }
}

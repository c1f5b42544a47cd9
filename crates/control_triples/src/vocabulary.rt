// The IRIs of the controls.
ghost use Rattle.std.specs.Prelude.{◌≡◌, IsTrue, IfOk};
ghost use Rattle.std.specs.List.{AllByRecursion};
ghost use Rattle.rdf_terms.specs.Iri.{is_iri};
ghost use Rattle.control_triples.specs.Vocabulary.{primary_topic, void_triples, total_items, next_page, search_form, form_template, representation, explicit_representation, form_mapping, mapped_variable, mapped_property, rdf_subject, rdf_predicate, rdf_object, version_info, is_iri_text, iris_of};

use rdf_terms::{IriText, Term};
use std::alloc::Global;
use std::marker::Model;
use tpf_base::{OutOfMemory, Text};

/// The term that is this IRI. The only error is out of memory.
pub fn iri(alloc: Global, text: &str) -> Result<Term, OutOfMemory>
    requires { IsTrue (is_iri text.now) }
    ensures { IfOk result (λ t. t ≡ Term.Iri text.now) }
{
    Ok(Term::Iri(IriText::from_text(Text::copy(alloc, text)?)))
}

#[tactic(auto, unfolding(crate::specs::Vocabulary::primary_topic))]
pub(crate) fn primary_topic(alloc: Global) -> Result<Term, OutOfMemory>
    ensures { IfOk result (λ t. t ≡ primary_topic) }
{
    iri(alloc, "http://xmlns.com/foaf/0.1/primaryTopic")
}

/// The IRI void:triples (VoID). The only error is out of memory.
#[tactic(auto, unfolding(crate::specs::Vocabulary::void_triples))]
pub fn void_triples(alloc: Global) -> Result<Term, OutOfMemory>
    ensures { IfOk result (λ t. t ≡ void_triples) }
{
    iri(alloc, "http://rdfs.org/ns/void#triples")
}

/// The IRI hydra:totalItems (Hydra core vocabulary). The only error is out of memory.
#[tactic(auto, unfolding(crate::specs::Vocabulary::total_items))]
pub fn total_items(alloc: Global) -> Result<Term, OutOfMemory>
    ensures { IfOk result (λ t. t ≡ total_items) }
{
    iri(alloc, "http://www.w3.org/ns/hydra/core#totalItems")
}

/// The IRI hydra:next (Hydra core vocabulary). The only error is out of memory.
#[tactic(auto, unfolding(crate::specs::Vocabulary::next_page))]
pub fn next_page(alloc: Global) -> Result<Term, OutOfMemory>
    ensures { IfOk result (λ t. t ≡ next_page) }
{
    iri(alloc, "http://www.w3.org/ns/hydra/core#next")
}

#[tactic(auto, unfolding(crate::specs::Vocabulary::search_form))]
pub(crate) fn search_form(alloc: Global) -> Result<Term, OutOfMemory>
    ensures { IfOk result (λ t. t ≡ search_form) }
{
    iri(alloc, "http://www.w3.org/ns/hydra/core#search")
}

#[tactic(auto, unfolding(crate::specs::Vocabulary::mapped_variable))]
pub(crate) fn mapped_variable(alloc: Global) -> Result<Term, OutOfMemory>
    ensures { IfOk result (λ t. t ≡ mapped_variable) }
{
    iri(alloc, "http://www.w3.org/ns/hydra/core#variable")
}

#[tactic(auto, unfolding(crate::specs::Vocabulary::version_info))]
pub(crate) fn version_info(alloc: Global) -> Result<Term, OutOfMemory>
    ensures { IfOk result (λ t. t ≡ version_info) }
{
    iri(alloc, "http://www.w3.org/2002/07/owl#versionInfo")
}

/// The terms that are these IRIs, in their order.
fn iris(alloc: Global, texts: &[&str]) -> Result<Vec<Term>, OutOfMemory>
    requires { AllByRecursion is_iri_text texts.now }
    ensures { IfOk result (λ terms. terms.items ≡ iris_of texts.now) }
{
    let mut terms = Vec::with_capacity(alloc, texts.len())?;
    for text in texts {
        let term = iri(alloc, text)?;
        terms.push(term)?;
    }
    Ok(terms)
}

/// The IRIs of forms: of their own properties, of their mappings, and of the places of a triple.
#[derive(Drop)]
pub(crate) struct FormWords {
    terms: Vec<Term>,
}

impl Model for FormWords {
    ghost use Rattle.std.specs.Prelude.{◌≡◌, List};
    ghost use Rattle.rdf_terms.specs.declared.term.Term.{Term};
    ghost use Rattle.control_triples.specs.Vocabulary.{form_words};

    ghost Value = { List Term };

    ghost view = { λ w. w.terms.items };

    ghost invariant = { λ w. w.terms.items ≡ form_words };
}

impl FormWords {
    /// The only error is out of memory.
    #[tactic(auto, unfolding(crate::specs::Vocabulary::form_words))]
    pub(crate) fn new(alloc: Global) -> Result<FormWords, OutOfMemory> {
        let terms = iris(
            alloc,
            &[
                "http://www.w3.org/ns/hydra/core#template",
                "http://www.w3.org/ns/hydra/core#variableRepresentation",
                "http://www.w3.org/ns/hydra/core#ExplicitRepresentation",
                "http://www.w3.org/ns/hydra/core#mapping",
                "http://www.w3.org/ns/hydra/core#property",
                "http://www.w3.org/1999/02/22-rdf-syntax-ns#subject",
                "http://www.w3.org/1999/02/22-rdf-syntax-ns#predicate",
                "http://www.w3.org/1999/02/22-rdf-syntax-ns#object",
            ],
        )?;
        Ok(FormWords { terms })
    }

    #[tactic(auto, unfolding(crate::specs::Vocabulary::form_words))]
    pub(crate) fn template(&self) -> &Term
        ensures { result.now ≡ form_template }
    {
        &self.terms[0]
    }

    #[tactic(auto, unfolding(crate::specs::Vocabulary::form_words))]
    pub(crate) fn representation(&self) -> &Term
        ensures { result.now ≡ representation }
    {
        &self.terms[1]
    }

    #[tactic(auto, unfolding(crate::specs::Vocabulary::form_words))]
    pub(crate) fn explicit(&self) -> &Term
        ensures { result.now ≡ explicit_representation }
    {
        &self.terms[2]
    }

    #[tactic(auto, unfolding(crate::specs::Vocabulary::form_words))]
    pub(crate) fn mapping(&self) -> &Term
        ensures { result.now ≡ form_mapping }
    {
        &self.terms[3]
    }

    #[tactic(auto, unfolding(crate::specs::Vocabulary::form_words))]
    pub(crate) fn property(&self) -> &Term
        ensures { result.now ≡ mapped_property }
    {
        &self.terms[4]
    }

    #[tactic(auto, unfolding(crate::specs::Vocabulary::form_words))]
    pub(crate) fn subject(&self) -> &Term
        ensures { result.now ≡ rdf_subject }
    {
        &self.terms[5]
    }

    #[tactic(auto, unfolding(crate::specs::Vocabulary::form_words))]
    pub(crate) fn predicate(&self) -> &Term
        ensures { result.now ≡ rdf_predicate }
    {
        &self.terms[6]
    }

    #[tactic(auto, unfolding(crate::specs::Vocabulary::form_words))]
    pub(crate) fn object(&self) -> &Term
        ensures { result.now ≡ rdf_object }
    {
        &self.terms[7]
    }
}

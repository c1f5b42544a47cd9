// The texts of the form of a page's server.
ghost use Rattle.std.specs.Prelude.{ℕ, ◌≡◌, ◌≢◌, ◌↔◌, ◌&&◌, not, true, false, List, [], Some, MatchOption, IfOk, IsTrue, is_some};
ghost use Rattle.std.specs.List.{Contains, filter_map, list_any};
ghost use Rattle.std.specs.Str.{bytes_eq};
ghost use Rattle.std.specs.List.Sorted.{IsStrictlySortedBy};
ghost use Rattle.std.specs.Option.{option_copied};
ghost use Rattle.rdf_terms.specs.declared.term.Term.{Term};
ghost use Rattle.rdf_terms.specs.Order.{term_order};
ghost use Rattle.rdf_terms.specs.Same.{term_eq};
ghost use Rattle.control_triples.specs.Vocabulary.{search_form};
ghost use Rattle.control_triples.specs.Controls.{FormTexts, IsLiteral, IsTemplateOf, MapsTo, IsOnly, IsForm, HasNoForm, IsLeastForm};
ghost use Rattle.control_triples.specs.Parts.{objects_in, borrowed_terms, borrowed_triples, form_of};
ghost use Rattle.control_triples.specs.Variables.{texts_in, named_all, AreVariables};
ghost use Rattle.control_triples.specs.Places.{texts_of, searched_of, AreNodeWords, AreMappingWords, ArePlaceWords, IsIndex, Names, NamesOther, MapsToOther, IsSearched};

use crate::controls::Controls;
use crate::variable::{Variable, all_variables, variables_of};
use crate::vocabulary::{FormWords, search_form};
use rdf_terms::{Term, Triple};
use std::alloc::Global;
use tpf_base::OutOfMemory;

/// The texts of a form, as they stand in the quads: its template, and the names of the variables for the three places.
#[derive(Clone, Copy)]
pub struct FormParts<'a> {
    pub template: &'a str,
    pub subject: &'a str,
    pub predicate: &'a str,
    pub object: &'a str,
}

/// The IRIs of a form's own properties.
#[derive(Clone, Copy)]
struct NodeWords<'b> {
    template: &'b Term,
    representation: &'b Term,
    explicit: &'b Term,
}

/// The IRIs of a form's mappings.
#[derive(Clone, Copy)]
struct MappingWords<'b> {
    mapping: &'b Term,
    property: &'b Term,
}

/// The IRIs of the places of a triple.
#[derive(Clone, Copy)]
struct PlaceWords<'b> {
    subject: &'b Term,
    predicate: &'b Term,
    object: &'b Term,
}

/// What is needed to find forms.
#[derive(Clone, Copy)]
struct FormIndex<'b, 'a> {
    controls: &'b Controls<'a>,
    node: NodeWords<'b>,
    mappings: MappingWords<'b>,
    places: PlaceWords<'b>,
    variables: &'b [Variable<'a>],
}

fn node_words(words: &FormWords) -> NodeWords<'_>
    ensures { AreNodeWords result }
{
    NodeWords {
        template: words.template(),
        representation: words.representation(),
        explicit: words.explicit(),
    }
}

fn mapping_words(words: &FormWords) -> MappingWords<'_>
    ensures { AreMappingWords result }
{
    MappingWords {
        mapping: words.mapping(),
        property: words.property(),
    }
}

fn place_words(words: &FormWords) -> PlaceWords<'_>
    ensures { ArePlaceWords result }
{
    PlaceWords {
        subject: words.subject(),
        predicate: words.predicate(),
        object: words.object(),
    }
}

fn form_index<'b, 'a>(
    controls: &'b Controls<'a>,
    words: &'b FormWords,
    variables: &'b [Variable<'a>],
) -> FormIndex<'b, 'a>
    requires { AreVariables controls.now.quads controls.now.topic (named_all variables.now) }
    ensures index { IsIndex result }
    ensures controls { result.controls.now ≡ controls.entry.now }
{
    FormIndex {
        controls,
        node: node_words(words),
        mappings: mapping_words(words),
        places: place_words(words),
        variables,
    }
}

fn is_literal(term: &Term) -> bool
    ensures { result ≡ is_some (form_of term.now) }
{
    matches!(term, Term::Literal { .. })
}

/// The first literal among the objects.
fn first_literal<'a>(triples: &[&'a Triple]) -> Option<&'a Term>
    ensures { MatchOption result (list_any (λ o. is_some (form_of o)) (objects_in triples.entry.now) ≡ false)
        (λ literal. Contains (objects_in triples.entry.now) literal.now × (is_some (form_of literal.now) ≡ true)) }
{
    for triple in triples {
        if is_literal(&triple.object) {
            return Some(&triple.object);
        }
    }
    None
}

/// Whether another literal is among the objects.
fn has_other_literal(triples: &[&Triple], literal: &Term) -> bool
    ensures { result ≡ list_any (λ o. is_some (form_of o) && not (term_eq o literal.now)) (objects_in triples.now) }
{
    for triple in triples {
        if is_literal(&triple.object) && !triple.object.same(literal) {
            return true;
        }
    }
    false
}

/// Whether another term is among the objects.
fn has_other_object(triples: &[&Triple], object: &Term) -> bool
    ensures { result ≡ list_any (λ o. not (term_eq o object.now)) (objects_in triples.now) }
{
    for triple in triples {
        if !triple.object.same(object) {
            return true;
        }
    }
    false
}

/// The form of a literal.
fn form_of(term: &Term) -> Option<&str>
    ensures { option_copied result ≡ form_of term.now }
{
    match term {
        Term::Literal { form, .. } => Some(form.as_str()),
        _ => None,
    }
}

/// The text of the first variable.
fn first_text<'a>(variables: &[Variable<'a>]) -> Option<&'a str>
    ensures { MatchOption result (texts_in variables.entry.now ≡ [])
        (λ text. Contains (texts_in variables.entry.now) text.now) }
{
    match variables {
        [] => None,
        [first, ..] => Some(first.text),
    }
}

/// Whether a variable has another text.
fn has_other_text(variables: &[Variable], text: &str) -> bool
    ensures { result ≡ list_any (λ t. not (bytes_eq t text.now)) (texts_in variables.now) }
{
    for variable in variables {
        if variable.text != text {
            return true;
        }
    }
    false
}

/// The form of the only literal that the node has as template.
fn template_of<'a>(index: &FormIndex<'_, 'a>, node: &Term) -> Option<&'a str>
    requires { IsIndex index.now }
    ensures { MatchOption result ((literal : Term) → IsOnly
        (IsTemplateOf index.entry.now.controls.now.quads index.entry.now.controls.now.topic node.now) literal → ⊥)
        (λ text. (literal : Term) × IsOnly
        (IsTemplateOf index.entry.now.controls.now.quads index.entry.now.controls.now.topic node.now) literal
        × IsLiteral literal text.now) }
{
    let objects = index.controls.objects(node, index.node.template);
    let literal = first_literal(objects)?;
    if has_other_literal(objects, literal) {
        return None;
    }
    form_of(literal)
}

/// A variable of a mapping, where it has the property.
fn variable_of<'a>(index: &FormIndex<'_, 'a>, mapping: &Term, property: &Term) -> Option<&'a str>
    requires { IsIndex index.now }
    ensures { MatchOption result ((text : List ℕ)
        → Names index.entry.now.controls.now.quads index.entry.now.controls.now.topic
        mapping.now property.now text → ⊥)
        (λ text. Names index.entry.now.controls.now.quads index.entry.now.controls.now.topic
        mapping.now property.now text.now) }
{
    if index
        .controls
        .holds(mapping, index.mappings.property, property)
    {
        first_text(variables_of(index.variables, mapping))
    } else {
        None
    }
}

/// Whether a mapping has the property and a variable of another text.
fn names_other(index: &FormIndex, mapping: &Term, property: &Term, text: &str) -> bool
    requires { IsIndex index.now }
    ensures { IsTrue result
        ↔ NamesOther index.now.controls.now.quads index.now.controls.now.topic mapping.now property.now text.now }
{
    index
        .controls
        .holds(mapping, index.mappings.property, property)
        && has_other_text(variables_of(index.variables, mapping), text)
}

/// A variable of the node for the property.
fn first_variable<'a>(index: &FormIndex<'_, 'a>, node: &Term, property: &Term) -> Option<&'a str>
    requires { IsIndex index.now }
    ensures { MatchOption result ((text : List ℕ)
        → MapsTo index.entry.now.controls.now.quads index.entry.now.controls.now.topic
        node.now property.now text → ⊥)
        (λ text. MapsTo index.entry.now.controls.now.quads index.entry.now.controls.now.topic
        node.now property.now text.now) }
{
    let mappings = index.controls.objects(node, index.mappings.mapping);
    for mapping in mappings {
        if let Some(text) = variable_of(index, &mapping.object, property) {
            return Some(text);
        }
    }
    None
}

/// Whether the node has another variable for the property.
fn has_other_variable(index: &FormIndex, node: &Term, property: &Term, text: &str) -> bool
    requires { IsIndex index.now }
    ensures { IsTrue result
        ↔ MapsToOther index.now.controls.now.quads index.now.controls.now.topic node.now property.now text.now }
{
    let mappings = index.controls.objects(node, index.mappings.mapping);
    for mapping in mappings {
        if names_other(index, &mapping.object, property, text) {
            return true;
        }
    }
    false
}

/// The only variable of the node for the property.
fn only_variable<'a>(index: &FormIndex<'_, 'a>, node: &Term, property: &Term) -> Option<&'a str>
    requires { IsIndex index.now }
    ensures { MatchOption result ((text : List ℕ) → IsOnly
        (MapsTo index.entry.now.controls.now.quads index.entry.now.controls.now.topic
        node.now property.now) text → ⊥)
        (λ text. IsOnly (MapsTo index.entry.now.controls.now.quads index.entry.now.controls.now.topic
        node.now property.now) text.now) }
{
    let text = first_variable(index, node, property)?;
    if has_other_variable(index, node, property, text) {
        return None;
    }
    Some(text)
}

fn all_differ(a: &str, b: &str, c: &str) -> bool
    ensures { IsTrue result ↔ ((a.now ≢ b.now) × ((a.now ≢ c.now) × (b.now ≢ c.now))) }
{
    a != b && (a != c && b != c)
}

/// The texts of the form that a node is, if it is one.
fn form_at<'a>(index: &FormIndex<'_, 'a>, node: &Term) -> Option<FormParts<'a>>
    requires index { IsIndex index.now }
    requires searched { IsSearched index.now.controls.now.quads index.now.controls.now.topic node.now }
    ensures { MatchOption result ((texts : FormTexts)
        → IsForm index.entry.now.controls.now.quads index.entry.now.controls.now.topic node.now texts → ⊥)
        (λ parts. IsForm index.entry.now.controls.now.quads index.entry.now.controls.now.topic node.now
        (texts_of parts)) }
{
    let others = index.controls.objects(node, index.node.representation);
    if has_other_object(others, index.node.explicit) {
        return None;
    }
    let template = template_of(index, node)?;
    let subject = only_variable(index, node, index.places.subject)?;
    let predicate = only_variable(index, node, index.places.predicate)?;
    let object = only_variable(index, node, index.places.object)?;
    if all_differ(subject, predicate, object) {
        Some(FormParts {
            template,
            subject,
            predicate,
            object,
        })
    } else {
        None
    }
}

/// The object of a triple whose predicate is hydra:search.
fn searched_in<'a>(triple: &'a Triple, search: &Term) -> Option<&'a Term>
    requires { search.now ≡ search_form }
    ensures { option_copied result ≡ searched_of triple.entry.now }
{
    if triple.predicate.same(search) {
        Some(&triple.object)
    } else {
        None
    }
}

/// The objects of hydra:search.
fn all_searched<'a>(
    alloc: Global,
    triples: &[&'a Triple],
    search: &Term,
) -> Result<Vec<&'a Term>, OutOfMemory>
    requires { search.now ≡ search_form }
    ensures { IfOk result (λ v. borrowed_terms v.items ≡ filter_map searched_of (borrowed_triples triples.entry.now)) }
{
    let mut nodes = Vec::new(alloc);
    for triple in triples {
        if let Some(node) = searched_in(triple, search) {
            nodes.push(node)?;
        }
    }
    Ok(nodes)
}

/// The objects of hydra:search, each once, in the order of terms.
fn sorted_searched<'a>(alloc: Global, controls: &Controls<'a>) -> Result<Vec<&'a Term>, OutOfMemory>
    ensures ascending { IfOk result (λ v. IsStrictlySortedBy term_order (borrowed_terms v.items)) }
    ensures members { IfOk result (λ v. (node : Term) → Contains (borrowed_terms v.items) node
        ↔ IsSearched controls.entry.now.quads controls.entry.now.topic node) }
{
    let search = search_form(alloc)?;
    let nodes = all_searched(alloc, controls.triples(), &search);
    // Dropped here, so that no exit below has it.
    drop(search);
    let mut nodes = nodes?;
    nodes.sort_unstable();
    nodes.dedup();
    Ok(nodes)
}

/// The texts of the first of the nodes that is a form.
fn first_form<'a>(index: &FormIndex<'_, 'a>, nodes: &[&Term]) -> Option<FormParts<'a>>
    requires index { IsIndex index.now }
    requires ascending { IsStrictlySortedBy term_order (borrowed_terms nodes.now) }
    requires members { (node : Term) → Contains (borrowed_terms nodes.now) node
        ↔ IsSearched index.now.controls.now.quads index.now.controls.now.topic node }
    ensures { MatchOption result (HasNoForm index.entry.now.controls.now.quads index.entry.now.controls.now.topic)
        (λ parts. IsLeastForm index.entry.now.controls.now.quads index.entry.now.controls.now.topic (texts_of parts)) }
{
    for node in nodes {
        if let Some(parts) = form_at(index, node) {
            return Some(parts);
        }
    }
    None
}

/// The texts of the form whose node is the least in the order of terms, if there is a form. The only error is out of memory.
pub fn least_form<'a>(
    alloc: Global,
    controls: &Controls<'a>,
) -> Result<Option<FormParts<'a>>, OutOfMemory>
    ensures { IfOk result (λ o. MatchOption o (HasNoForm controls.entry.now.quads controls.entry.now.topic)
        (λ parts. IsLeastForm controls.entry.now.quads controls.entry.now.topic (texts_of parts))) }
{
    let words = FormWords::new(alloc)?;
    let variables = all_variables(alloc, controls)?;
    let nodes = sorted_searched(alloc, controls)?;
    let index = form_index(controls, &words, variables.as_slice());
    Ok(first_form(&index, nodes.as_slice()))
}

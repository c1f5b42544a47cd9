// Terms as the texts that they are of.
ghost use Rattle.std.specs.Prelude.{◌≡◌, ◌++◌, true, IsTrue, IfOk};
ghost use Rattle.std.specs.List.{list_all};
ghost use Rattle.rdf_terms.specs.Iri.{is_iri, is_iri_byte};
ghost use Rattle.rdf_terms.specs.Label.{is_label};
ghost use Rattle.tpf_base.specs.Decimals.{decimal_text};
ghost use Rattle.template_fill.specs.Metadata.{foaf, void, hydra, rdf, owl, integer, plain};
ghost use Rattle.hydra_controls.specs.LineTexts.{is_plain_byte};
ghost use Rattle.metadata_quads.specs.TermTexts.{IsTerm, IsTextOf, term_as, term_of, xsd_integer};

use crate::whole_text::text;
use hydra_controls::TextParts;
use rdf_terms::{Datatype, IriText, Kind, Label, Term};
use std::alloc::Global;
use tpf_base::{OutOfMemory, Text};

/// The kind of a term.
#[derive(Clone, Copy)]
pub(crate) enum TermKind {
    Iri,
    Blank,
    /// A plain literal.
    Plain,
    /// A literal of the datatype xsd:integer.
    Integer,
}

/// A term by its kind and its text, which is the IRI, the label, or the form of the literal.
#[derive(Clone, Copy)]
pub(crate) struct TermText<'a> {
    pub kind: TermKind,
    pub text: TextParts<'a>,
}

/// The term of this kind whose text this is.
fn term_as(alloc: Global, kind: TermKind, text: Text) -> Result<Term, OutOfMemory>
    requires { IsTextOf kind text }
    ensures { IfOk result (λ term. term ≡ term_as kind text) }
{
    match kind {
        TermKind::Iri => Ok(Term::Iri(IriText::from_text(text))),
        TermKind::Blank => Ok(Term::Blank(Label::from_text(text))),
        TermKind::Plain => Ok(Term::Literal {
            form: text,
            kind: Kind::Plain,
        }),
        TermKind::Integer => integer(alloc, text),
    }
}

/// The literal of the datatype xsd:integer with this form.
fn integer(alloc: Global, form: Text) -> Result<Term, OutOfMemory>
    ensures { IfOk result (λ term. term ≡ Term.Literal form (Kind.Typed xsd_integer)) }
{
    let datatype = Text::copy(alloc, "http://www.w3.org/2001/XMLSchema#integer")?;
    Ok(Term::Literal {
        form,
        kind: Kind::Typed(Datatype::from_text(datatype)),
    })
}

impl<'a> TermText<'a> {
    /// The term.
    pub(crate) fn term(self, alloc: Global) -> Result<Term, OutOfMemory>
        requires { IsTerm self }
        ensures { IfOk result (λ term. term ≡ term_of self.entry) }
    {
        let text = text(alloc, self.text)?;
        term_as(alloc, self.kind, text)
    }
}

// ---- terms of one text or two

/// A term whose text is two texts.
fn of_texts<'a>(kind: TermKind, front: &'a str, end: &'a str) -> TermText<'a>
    requires { IsTextOf kind (front.now ++ end.now) }
    ensures term { term_of result ≡ term_as kind (front.now ++ end.now) }
    ensures text { IsTerm result }
{
    TermText {
        kind,
        text: TextParts::new(front, end),
    }
}

/// The IRI that begins with an IRI and goes on with more characters of one.
pub(crate) fn iri<'a>(front: &'a str, end: &'a str) -> TermText<'a>
    requires front { IsTrue (is_iri front.now) }
    requires end { list_all is_iri_byte end.now ≡ true }
    ensures term { term_of result ≡ Term.Iri (front.now ++ end.now) }
    ensures text { IsTerm result }
{
    of_texts(TermKind::Iri, front, end)
}

/// The blank node with a label.
pub(crate) fn blank(label: &str) -> TermText<'_>
    requires { IsTrue (is_label label.now) }
    ensures term { term_of result ≡ Term.Blank label.now }
    ensures text { IsTerm result }
{
    of_texts(TermKind::Blank, "", label)
}

/// The plain literal of two texts, none of whose bytes is written with a backslash.
pub(crate) fn plain<'a>(front: &'a str, end: &'a str) -> TermText<'a>
    requires front { list_all is_plain_byte front.now ≡ true }
    requires end { list_all is_plain_byte end.now ≡ true }
    ensures term { term_of result ≡ plain (front.now ++ end.now) }
    ensures text { IsTerm result }
{
    of_texts(TermKind::Plain, front, end)
}

// ---- words of vocabularies

/// A word of Friend of a Friend.
#[tactic(auto, unfolding(template_fill::specs::Metadata::foaf))]
pub(crate) fn foaf(name: &str) -> TermText<'_>
    requires { list_all is_iri_byte name.now ≡ true }
    ensures term { term_of result ≡ foaf name.now }
    ensures text { IsTerm result }
{
    iri("http://xmlns.com/foaf/0.1/", name)
}

/// A word of the Vocabulary of Interlinked Datasets.
#[tactic(auto, unfolding(template_fill::specs::Metadata::void))]
pub(crate) fn void(name: &str) -> TermText<'_>
    requires { list_all is_iri_byte name.now ≡ true }
    ensures term { term_of result ≡ void name.now }
    ensures text { IsTerm result }
{
    iri("http://rdfs.org/ns/void#", name)
}

/// A word of the Hydra Core Vocabulary.
#[tactic(auto, unfolding(template_fill::specs::Metadata::hydra))]
pub(crate) fn hydra(name: &str) -> TermText<'_>
    requires { list_all is_iri_byte name.now ≡ true }
    ensures term { term_of result ≡ hydra name.now }
    ensures text { IsTerm result }
{
    iri("http://www.w3.org/ns/hydra/core#", name)
}

/// A word of RDF.
#[tactic(auto, unfolding(template_fill::specs::Metadata::rdf))]
pub(crate) fn rdf(name: &str) -> TermText<'_>
    requires { list_all is_iri_byte name.now ≡ true }
    ensures term { term_of result ≡ rdf name.now }
    ensures text { IsTerm result }
{
    iri("http://www.w3.org/1999/02/22-rdf-syntax-ns#", name)
}

/// A word of the Web Ontology Language.
#[tactic(auto, unfolding(template_fill::specs::Metadata::owl))]
pub(crate) fn owl(name: &str) -> TermText<'_>
    requires { list_all is_iri_byte name.now ≡ true }
    ensures term { term_of result ≡ owl name.now }
    ensures text { IsTerm result }
{
    iri("http://www.w3.org/2002/07/owl#", name)
}

// ---- numbers

/// The digits of a number, as a literal of this kind.
fn of_number(kind: TermKind, number: u64) -> TermText<'static>
    requires { IsTextOf kind (decimal_text number) }
    ensures term { term_of result ≡ term_as kind (decimal_text number) }
    ensures text { IsTerm result }
{
    TermText {
        kind,
        text: TextParts::numbered(number, ""),
    }
}

/// A number, as a literal of the datatype xsd:integer.
pub(crate) fn count(number: u64) -> TermText<'static>
    ensures term { term_of result ≡ integer number }
    ensures text { IsTerm result }
{
    of_number(TermKind::Integer, number)
}

/// The digits of a number, as a plain literal.
pub(crate) fn digits(number: u64) -> TermText<'static>
    ensures term { term_of result ≡ plain (decimal_text number) }
    ensures text { IsTerm result }
{
    of_number(TermKind::Plain, number)
}

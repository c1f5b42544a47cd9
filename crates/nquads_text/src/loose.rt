// A statement with its escapes resolved, before it is checked.
ghost use Rattle.std.specs.Prelude.{◌≡◌, ◌+◌, ◌≤◌, ◌<◌, ◌^◌, length, false, true, Option, Some, None, Result, Ok, IfOk};
ghost use Rattle.std.specs.Option.{option_map};
ghost use Rattle.rdf_terms.specs.Iri.{has_scheme};
ghost use Rattle.rdf_terms.specs.declared.term.Term.{Term};
ghost use Rattle.rdf_terms.specs.Tag.{lower};
ghost use Rattle.rdf_terms.specs.Datatype.{is_xsd_string, is_lang_string};
ghost use Rattle.rdf_terms.specs.Kinds.{typed_kind};
ghost use Rattle.rdf_terms.specs.Canon.{marks, kind_len, canonical_term};
ghost use Rattle.nquads_text.specs.Escape.{resolved};
ghost use Rattle.nquads_text.specs.Faults.{is_relative_kind, is_relative, is_lang_kind, has_lang_string, has_long_label, is_too_long, some_term, fault_of};
ghost use Rattle.nquads_text.specs.Line.{IsWrittenTag, IsWrittenKind, IsWrittenTerm, IsWrittenGraph, IsWritten, resolved_kind, resolved_literal, resolved_term, resolved_after, resolved_quad, resolved_graph, IsWrittenText};
ghost use Rattle.nquads_text.specs.Grammar.{IsFormItem};
ghost use Rattle.nquads_text.specs.Views.{kind_view, term_view, quad_view, loose_kind, loose_term, loose_quad};

use crate::escape::{copied, resolved};
use crate::fault::Why;
use crate::raw::{RawKind, RawQuad, RawTerm};
use rdf_terms::{LONGEST_LABEL, has_scheme, is_lang_string, is_xsd_string, lowered, marks};
use std::alloc::Global;
use std::str;
use text_base::{OutOfMemory, Text};

/// What follows a lexical form. xsd:string is left out and a tag is in lower case; a datatype may be no IRI with a scheme
/// yet, or rdf:langString.
#[derive(Drop)]
pub enum LooseKind {
    Plain,
    Typed(Text),
    Tagged(Text),
}

/// A term with its escapes resolved. An IRI may lack its scheme, and a label may be too long.
#[derive(Drop)]
pub enum LooseTerm {
    Iri(Text),
    Blank(Text),
    Literal { form: Text, kind: LooseKind },
}

/// A statement of such terms; `fault` says whether it is a quad.
#[derive(Drop)]
pub struct LooseQuad {
    pub subject: LooseTerm,
    pub predicate: LooseTerm,
    pub object: LooseTerm,
    pub graph: Option<LooseTerm>,
}

/// Whether an IRI has a scheme. Most have that of HTTP, which is told without a walk to the colon.
#[tactic(auto, using(crate::proofs::Schemes::http_goes))]
fn is_absolute(text: &str) -> bool
    ensures { result ≡ has_scheme text.now }
{
    let bytes = text.as_bytes();
    if bytes.starts_with(b"http:") {
        return true;
    }
    has_scheme(bytes)
}

fn typed(text: Text) -> LooseKind
    ensures { loose_kind result ≡ typed_kind text }
{
    if is_xsd_string(text.as_str()) {
        LooseKind::Plain
    } else {
        LooseKind::Typed(text)
    }
}

/// A tag in lower case.
fn tag_of(alloc: Global, tag: &[u8]) -> Result<Text, OutOfMemory>
    requires { IsWrittenTag tag.now }
    ensures { IfOk result (λ t. t ≡ lower tag.now) }
{
    lowered(alloc, unsafe { str::from_utf8_unchecked(tag) })
}

fn kind_of(alloc: Global, kind: RawKind<'_>) -> Result<Option<LooseKind>, OutOfMemory>
    requires { IsWrittenKind (kind_view kind) }
    ensures { IfOk result (λ r. option_map loose_kind r ≡ resolved_kind (kind_view kind.entry)) }
{
    match kind {
        RawKind::Plain => Ok(Some(LooseKind::Plain)),
        RawKind::Typed(datatype) => match resolved(alloc, datatype, true)? {
            None => Ok(None),
            Some(text) => Ok(Some(typed(text))),
        },
        RawKind::Tagged(tag) => Ok(Some(LooseKind::Tagged(tag_of(alloc, tag)?))),
    }
}

fn literal_of(
    alloc: Global,
    form: &[u8],
    kind: RawKind<'_>,
) -> Result<Option<LooseTerm>, OutOfMemory>
    requires form { IsWrittenText IsFormItem form.now }
    requires kind { IsWrittenKind (kind_view kind) }
    ensures { IfOk result (λ r. option_map loose_term r ≡ resolved_literal form.now (kind_view kind.entry)) }
{
    match resolved(alloc, form, false)? {
        None => Ok(None),
        Some(form) => match kind_of(alloc, kind)? {
            None => Ok(None),
            Some(kind) => Ok(Some(LooseTerm::Literal { form, kind })),
        },
    }
}

#[tactic(auto, unfolding(crate::specs::Line::resolved_term))]
fn term_of(alloc: Global, term: RawTerm<'_>) -> Result<Option<LooseTerm>, OutOfMemory>
    requires { IsWrittenTerm (term_view term) }
    ensures { IfOk result (λ r. option_map loose_term r ≡ resolved_term (term_view term.entry)) }
{
    match term {
        RawTerm::Iri(text) => match resolved(alloc, text, true)? {
            None => Ok(None),
            Some(text) => Ok(Some(LooseTerm::Iri(text))),
        },
        RawTerm::Blank(label) => Ok(Some(LooseTerm::Blank(copied(alloc, label)?))),
        RawTerm::Literal { form, kind } => literal_of(alloc, form, kind),
    }
}

fn graph_of(
    alloc: Global,
    graph: Option<RawTerm<'_>>,
) -> Result<Option<Option<LooseTerm>>, OutOfMemory>
    requires { IsWrittenGraph (option_map term_view graph) }
    ensures { IfOk result
        (λ r. option_map (option_map loose_term) r ≡ resolved_graph (option_map term_view graph.entry)) }
{
    match graph {
        None => Ok(Some(None)),
        Some(graph) => match term_of(alloc, graph)? {
            None => Ok(None),
            Some(term) => Ok(Some(Some(term))),
        },
    }
}

/// The object and the graph of a raw statement with their escapes resolved.
fn last_of(
    alloc: Global,
    raw: &RawQuad<'_>,
) -> Result<Option<(LooseTerm, Option<LooseTerm>)>, OutOfMemory>
    requires { IsWritten (quad_view raw.now) }
    ensures { IfOk result (λ r. (subject predicate : Term) → option_map
        (λ p. record {
          triple = record { subject = subject; predicate = predicate; object = loose_term p.0 };
          graph = option_map loose_term p.1;
        }) r ≡ resolved_after subject predicate (quad_view raw.now)) }
{
    let Some(object) = term_of(alloc, raw.object)? else {
        return Ok(None);
    };
    // A drop that is written out is one call; at an exit each variant of a term has steps of its own.
    match graph_of(alloc, raw.graph) {
        Ok(Some(graph)) => Ok(Some((object, graph))),
        Ok(None) => {
            drop(object);
            Ok(None)
        }
        Err(fault) => {
            drop(object);
            Err(fault)
        }
    }
}

/// The statement of a subject and a predicate, and of the rest of a raw one with its escapes resolved.
fn loose_after(
    alloc: Global,
    raw: &RawQuad<'_>,
    subject: LooseTerm,
    predicate: LooseTerm,
) -> Result<Option<LooseQuad>, OutOfMemory>
    requires { IsWritten (quad_view raw.now) }
    ensures { IfOk result (λ r. option_map loose_quad r
        ≡ resolved_after (loose_term subject) (loose_term predicate) (quad_view raw.now)) }
{
    match last_of(alloc, raw) {
        Ok(Some((object, graph))) => Ok(Some(LooseQuad {
            subject,
            predicate,
            object,
            graph,
        })),
        Ok(None) => {
            drop(subject);
            drop(predicate);
            Ok(None)
        }
        Err(fault) => {
            drop(subject);
            drop(predicate);
            Err(fault)
        }
    }
}

/// The statement with its escapes resolved, or nothing where one names what it may not.
#[tactic(auto, unfolding(crate::specs::Line::resolved_quad))]
pub fn loose_of(alloc: Global, raw: &RawQuad<'_>) -> Result<Option<LooseQuad>, OutOfMemory>
    requires { IsWritten (quad_view raw.now) }
    ensures { IfOk result (λ r. option_map loose_quad r ≡ resolved_quad (quad_view raw.now)) }
{
    let Some(subject) = term_of(alloc, raw.subject)? else {
        return Ok(None);
    };
    match term_of(alloc, raw.predicate) {
        Ok(Some(predicate)) => loose_after(alloc, raw, subject, predicate),
        Ok(None) => {
            drop(subject);
            Ok(None)
        }
        Err(fault) => {
            drop(subject);
            Err(fault)
        }
    }
}

impl LooseKind {
    fn is_relative(&self) -> bool
        ensures { result ≡ is_relative_kind (loose_kind self.now) }
    {
        match self {
            LooseKind::Plain => false,
            LooseKind::Typed(datatype) => !is_absolute(datatype.as_str()),
            LooseKind::Tagged(_) => false,
        }
    }

    fn is_lang(&self) -> bool
        ensures { result ≡ is_lang_kind (loose_kind self.now) }
    {
        match self {
            LooseKind::Plain => false,
            LooseKind::Typed(datatype) => is_lang_string(datatype.as_str()),
            LooseKind::Tagged(_) => false,
        }
    }

    fn len(&self) -> u128
        ensures value { result ≡ kind_len (loose_kind self.now) }
        ensures small { result ≤ 2 ^ 64 + 4 }
    {
        match self {
            LooseKind::Plain => 0,
            LooseKind::Typed(datatype) => datatype.as_str().len() as u128 + 4,
            LooseKind::Tagged(tag) => tag.as_str().len() as u128 + 1,
        }
    }
}

fn literal_len(form: &str, kind: &LooseKind) -> u128
    ensures { result ≡ length form.now + marks form.now + 2 + kind_len (loose_kind kind.now) }
{
    form.len() as u128 + marks(form.as_bytes()) as u128 + 2 + kind.len()
}

impl LooseTerm {
    fn is_relative(&self) -> bool
        ensures { result ≡ is_relative (loose_term self.now) }
    {
        match self {
            LooseTerm::Iri(text) => !is_absolute(text.as_str()),
            LooseTerm::Blank(_) => false,
            LooseTerm::Literal { form: _, kind } => kind.is_relative(),
        }
    }

    fn has_lang_string(&self) -> bool
        ensures { result ≡ has_lang_string (loose_term self.now) }
    {
        match self {
            LooseTerm::Iri(_) => false,
            LooseTerm::Blank(_) => false,
            LooseTerm::Literal { form: _, kind } => kind.is_lang(),
        }
    }

    #[tactic(auto, using(crate::proofs::Lengths::literal_len_is, crate::proofs::Lengths::iri_len_is))]
    fn len(&self) -> u128
        ensures { result ≡ length (canonical_term (loose_term self.now)) }
    {
        match self {
            LooseTerm::Iri(text) => text.as_str().len() as u128 + 2,
            LooseTerm::Blank(label) => label.as_str().len() as u128 + 2,
            LooseTerm::Literal { form, kind } => literal_len(form.as_str(), kind),
        }
    }

    fn has_long_label(&self) -> bool
        ensures { result ≡ has_long_label (loose_term self.now) }
    {
        match self {
            LooseTerm::Blank(label) => label.as_str().len() > LONGEST_LABEL,
            _ => false,
        }
    }

    /// A bound of the length that is found without counting the bytes that are written with a backslash.
    #[tactic(auto, using(crate::proofs::Lengths::len_bound))]
    fn most(&self) -> u128
        ensures { length (canonical_term (loose_term self.now)) ≤ result }
    {
        match self {
            LooseTerm::Iri(text) => text.as_str().len() as u128 + 2,
            LooseTerm::Blank(label) => label.as_str().len() as u128 + 2,
            LooseTerm::Literal { form, kind } => {
                form.as_str().len() as u128 * 2 + 2 + kind.len()
            }
        }
    }

    fn is_too_long(&self, longest: usize) -> bool
        ensures { result ≡ is_too_long longest (loose_term self.now) }
    {
        (self.most() > longest as u128 && self.len() > longest as u128) || self.has_long_label()
    }
}

impl LooseQuad {
    fn is_relative(&self) -> bool
        ensures { result ≡ some_term is_relative (loose_quad self.now) }
    {
        self.subject.is_relative()
            || self.predicate.is_relative()
            || self.object.is_relative()
            || match &self.graph {
                None => false,
                Some(graph) => graph.is_relative(),
            }
    }

    fn has_lang_string(&self) -> bool
        ensures { result ≡ some_term has_lang_string (loose_quad self.now) }
    {
        self.subject.has_lang_string()
            || self.predicate.has_lang_string()
            || self.object.has_lang_string()
            || match &self.graph {
                None => false,
                Some(graph) => graph.has_lang_string(),
            }
    }

    fn is_too_long(&self, longest: usize) -> bool
        ensures { result ≡ some_term (is_too_long longest) (loose_quad self.now) }
    {
        self.subject.is_too_long(longest)
            || self.predicate.is_too_long(longest)
            || self.object.is_too_long(longest)
            || match &self.graph {
                None => false,
                Some(graph) => graph.is_too_long(longest),
            }
    }

    /// The first fault of the statement.
    pub fn fault(&self, longest: usize) -> Option<Why>
        ensures { result ≡ fault_of longest (loose_quad self.now) }
    {
        if self.is_relative() {
            Some(Why::RelativeIri)
        } else if self.has_lang_string() {
            Some(Why::LangString)
        } else if self.is_too_long(longest) {
            Some(Why::TermTooLong)
        } else {
            None
        }
    }
}

// Terms, triples and quads.
ghost use Rattle.std.specs.Prelude.{◌≡◌, ◌↔◌, false, IsTrue, IfOk, IfErr, OnOk, IsErrOf};
ghost use Rattle.rdf_terms.specs.Iri.{is_iri};
ghost use Rattle.rdf_terms.specs.Label.{is_label};
ghost use Rattle.rdf_terms.specs.Tag.{is_tag, lower};
ghost use Rattle.rdf_terms.specs.Datatype.{is_xsd_string, is_lang_string};

use crate::datatype::{is_lang_string, is_xsd_string};
use crate::iri::is_iri;
use crate::label::is_label;
use crate::tag::{is_tag, lowered};
use crate::{Datatype, IriText, Label, Tag};
use std::alloc::Global;
use text_base::{OutOfMemory, Text, all_three};

/// The kind of a literal (RDF 1.1 Concepts 3.3): plain, whose datatype is xsd:string; typed; or tagged, whose datatype is
/// rdf:langString.
#[derive(Drop)]
pub enum Kind {
    Plain,
    Typed(Datatype),
    Tagged(Tag),
}

/// A term of RDF (RDF 1.1 Concepts 3.1): an IRI, a blank node, or a literal with its lexical form.
pub enum Term {
    Iri(IriText),
    Blank(Label),
    Literal { form: Text, kind: Kind },
}

// Written out, so that who drops one calls this, and does not take it apart at each exit.
impl Drop for Term {
    fn drop(self) {
        match self {
            Term::Iri(_iri) => {}
            Term::Blank(_blank) => {}
            Term::Literal {
                form: _form,
                kind: _kind,
            } => {}
        }
    }
}

/// A generalized triple: any three terms (RDF 1.1 Concepts 7).
#[derive(Drop)]
pub struct Triple {
    pub subject: Term,
    pub predicate: Term,
    pub object: Term,
}

/// A triple and the graph that it stands in; `None` is the default graph.
#[derive(PartialEq, Eq, Drop)]
pub struct Quad {
    pub triple: Triple,
    pub graph: Option<Term>,
}

/// Why a term was not made.
#[derive(Clone, Copy, Debug)]
pub enum TermFault {
    /// The text, or that of the datatype, is no IRI with a scheme.
    Iri,
    /// The text is no label of a blank node.
    Label,
    /// The text is no language tag.
    Tag,
    /// The datatype rdf:langString, which a literal has with a tag alone.
    LangString,
    /// Out of memory.
    OutOfMemory,
}

impl From<OutOfMemory> for TermFault {
    ghost use Rattle.std.specs.Prelude.{◌≡◌};
    ghost use Rattle.rdf_terms.specs.declared.term.TermFault.TheVariants as faults;

    ghost from_gives = { λ _ e. e ≡ faults.OutOfMemory };

    fn from(_: OutOfMemory) -> Self {
        TermFault::OutOfMemory
    }
}

impl PartialEq for Kind {
    ghost use Rattle.rdf_terms.specs.Same.{kind_eq};
    ghost use Rattle.rdf_terms.specs.EqualityLaws.{kind_per};

    ghost eq = { kind_eq };

    ghost laws = { kind_per };

    fn eq(&self, other: &Kind) -> bool {
        match self {
            Kind::Plain => matches!(other, Kind::Plain),
            Kind::Typed(a) => match other {
                Kind::Typed(b) => a == b,
                _ => false,
            },
            Kind::Tagged(a) => match other {
                Kind::Tagged(b) => a == b,
                _ => false,
            },
        }
    }
}

impl Eq for Kind {
    ghost use Rattle.rdf_terms.specs.EqualityLaws.{kind_equiv};

    ghost laws = { kind_equiv };
}

impl PartialEq for Term {
    ghost use Rattle.rdf_terms.specs.Same.{term_eq};
    ghost use Rattle.rdf_terms.specs.EqualityLaws.{term_per};

    ghost eq = { term_eq };

    ghost laws = { term_per };

    fn eq(&self, other: &Term) -> bool {
        match self {
            Term::Iri(a) => match other {
                Term::Iri(b) => a == b,
                _ => false,
            },
            Term::Blank(a) => match other {
                Term::Blank(b) => a == b,
                _ => false,
            },
            Term::Literal { form: f, kind: k } => match other {
                Term::Literal { form: g, kind: l } => f == g && k == l,
                _ => false,
            },
        }
    }
}

impl Eq for Term {
    ghost use Rattle.rdf_terms.specs.EqualityLaws.{term_equiv};

    ghost laws = { term_equiv };
}

impl PartialEq for Triple {
    ghost use Rattle.rdf_terms.specs.Same.{triple_eq};
    ghost use Rattle.rdf_terms.specs.EqualityLaws.{triple_per};

    ghost eq = { triple_eq };

    ghost laws = { triple_per };

    fn eq(&self, other: &Triple) -> bool {
        self.subject == other.subject
            && self.predicate == other.predicate
            && self.object == other.object
    }
}

impl Eq for Triple {
    ghost use Rattle.rdf_terms.specs.EqualityLaws.{triple_equiv};

    ghost laws = { triple_equiv };
}

impl Kind {
    ghost use Rattle.rdf_terms.specs.Kinds.{typed_kind};

    /// The kind of a literal with this datatype. Its one error is out of memory.
    fn of_datatype(alloc: Global, datatype: &str) -> Result<Kind, OutOfMemory>
        requires iri { IsTrue (is_iri datatype.now) }
        requires no_lang_string { is_lang_string datatype.now ≡ false }
        ensures { IfOk result (λ k. k ≡ typed_kind datatype.now) }
    {
        if is_xsd_string(datatype) {
            return Ok(Kind::Plain);
        }
        let text = Text::copy(alloc, datatype)?;
        Ok(Kind::Typed(Datatype::from_text(text)))
    }

    /// The same kind again. Its one error is out of memory.
    pub fn copy(&self, alloc: Global) -> Result<Kind, OutOfMemory>
        ensures { IfOk result (λ t. t ≡ self.now) }
    {
        Ok(match self {
            Kind::Plain => Kind::Plain,
            Kind::Typed(datatype) => Kind::Typed(datatype.copy(alloc)?),
            Kind::Tagged(tag) => Kind::Tagged(tag.copy(alloc)?),
        })
    }
}

impl Triple {
    ghost use Rattle.rdf_terms.specs.Same.{triple_eq};

    /// The same triple again. Its one error is out of memory.
    pub fn copy(&self, alloc: Global) -> Result<Triple, OutOfMemory>
        ensures { IfOk result (λ t. t ≡ self.now) }
    {
        let subject = self.subject.copy(alloc);
        let predicate = self.predicate.copy(alloc);
        let object = self.object.copy(alloc);
        let (subject, predicate, object) = all_three(subject, predicate, object)?;
        Ok(Triple {
            subject,
            predicate,
            object,
        })
    }

    /// Whether two triples are the same.
    pub fn same(&self, other: &Triple) -> bool
        ensures same { IsTrue result ↔ (self.now ≡ other.now) }
        ensures test { result ≡ triple_eq self.now other.now }
    {
        self.subject.same(&other.subject)
            && self.predicate.same(&other.predicate)
            && self.object.same(&other.object)
    }
}

impl Quad {
    /// The same quad again. Its one error is out of memory.
    pub fn copy(&self, alloc: Global) -> Result<Quad, OutOfMemory>
        ensures { IfOk result (λ t. t ≡ self.now) }
    {
        let triple = self.triple.copy(alloc)?;
        match &self.graph {
            None => Ok(Quad {
                triple,
                graph: None,
            }),
            Some(graph) => match graph.copy(alloc) {
                Ok(graph) => Ok(Quad {
                    triple,
                    graph: Some(graph),
                }),
                Err(fault) => {
                    drop(triple);
                    Err(fault)
                }
            },
        }
    }
}

impl Term {
    ghost use Rattle.rdf_terms.specs.Kinds.{typed_kind};
    ghost use Rattle.rdf_terms.specs.Same.{term_eq};

    /// The IRI with this text. `Iri` exactly where the text is no IRI with a scheme; the only other error is out of memory.
    pub fn iri(alloc: Global, text: &str) -> Result<Term, TermFault>
        ensures iri { IfOk result (λ t. (t ≡ Term.Iri text.now) × IsTrue (is_iri text.now)) }
        ensures refused { IsErrOf result TermFault.Iri → is_iri text.now ≡ false }
        ensures memory { IfErr result (λ e. IsTrue (is_iri text.now) → e ≡ TermFault.OutOfMemory) }
        ensures exact { is_iri text.now ≡ false → IsErrOf result TermFault.Iri }
    {
        if !is_iri(text) {
            return Err(TermFault::Iri);
        }
        Ok(Term::Iri(IriText::from_text(Text::copy(alloc, text)?)))
    }

    /// The blank node with this label, which is written without `_:`. `Label` exactly where the text is no label; the only
    /// other error is out of memory.
    pub fn blank(alloc: Global, label: &str) -> Result<Term, TermFault>
        ensures blank { IfOk result (λ t. (t ≡ Term.Blank label.now) × IsTrue (is_label label.now)) }
        ensures refused { IsErrOf result TermFault.Label → is_label label.now ≡ false }
        ensures memory { IfErr result (λ e. IsTrue (is_label label.now) → e ≡ TermFault.OutOfMemory) }
        ensures exact { is_label label.now ≡ false → IsErrOf result TermFault.Label }
    {
        if !is_label(label) {
            return Err(TermFault::Label);
        }
        Ok(Term::Blank(Label::from_text(Text::copy(alloc, label)?)))
    }

    /// The plain literal with this lexical form. Its one error is out of memory.
    pub fn plain(alloc: Global, form: &str) -> Result<Term, OutOfMemory>
        ensures { IfOk result (λ t. t ≡ Term.Literal form.now Kind.Plain) }
    {
        Term::literal(alloc, form, Kind::Plain)
    }

    /// The literal with this lexical form and datatype; with xsd:string that is the plain literal (RDF 1.1 Concepts 3.3). `Iri`
    /// exactly where the datatype is no IRI with a scheme, `LangString` exactly where it is rdf:langString; the only other
    /// error is out of memory.
    pub fn typed(alloc: Global, form: &str, datatype: &str) -> Result<Term, TermFault>
        ensures literal { IfOk result (λ t. t ≡ Term.Literal form.now (typed_kind datatype.now)) }
        ensures valid { OnOk result (IsTrue (is_iri datatype.now) × (is_lang_string datatype.now ≡ false)) }
        ensures iri { IsErrOf result TermFault.Iri → is_iri datatype.now ≡ false }
        ensures only_iri { is_iri datatype.now ≡ false → IsErrOf result TermFault.Iri }
        ensures lang_string { IsErrOf result TermFault.LangString → IsTrue (is_lang_string datatype.now) }
        ensures only_lang_string { IsTrue (is_lang_string datatype.now) → IsErrOf result TermFault.LangString }
        ensures memory { IfErr result (λ e. IsTrue (is_iri datatype.now) → is_lang_string datatype.now ≡ false
            → e ≡ TermFault.OutOfMemory) }
    {
        if is_lang_string(datatype) {
            return Err(TermFault::LangString);
        }
        if !is_iri(datatype) {
            return Err(TermFault::Iri);
        }
        let kind = Kind::of_datatype(alloc, datatype)?;
        Ok(Term::literal(alloc, form, kind)?)
    }

    /// The literal with this lexical form and language tag, which is kept in lower case. `Tag` exactly where the text is no
    /// tag; the only other error is out of memory.
    #[tactic(auto, using(crate::proofs::Tags::lower_is_kept))]
    pub fn tagged(alloc: Global, form: &str, tag: &str) -> Result<Term, TermFault>
        ensures literal { IfOk result (λ t. (t ≡ Term.Literal form.now (Kind.Tagged (lower tag.now)))
            × IsTrue (is_tag tag.now)) }
        ensures refused { IsErrOf result TermFault.Tag → is_tag tag.now ≡ false }
        ensures memory { IfErr result (λ e. IsTrue (is_tag tag.now) → e ≡ TermFault.OutOfMemory) }
        ensures exact { is_tag tag.now ≡ false → IsErrOf result TermFault.Tag }
    {
        if !is_tag(tag) {
            return Err(TermFault::Tag);
        }
        let kind = Kind::Tagged(Tag::from_text(lowered(alloc, tag)?));
        Ok(Term::literal(alloc, form, kind)?)
    }

    /// The literal with this lexical form and kind.
    fn literal(alloc: Global, form: &str, kind: Kind) -> Result<Term, OutOfMemory>
        ensures { IfOk result (λ t. t ≡ Term.Literal form.now kind) }
    {
        match Text::copy(alloc, form) {
            Ok(form) => Ok(Term::Literal { form, kind }),
            Err(fault) => {
                drop(kind);
                Err(fault)
            }
        }
    }

    /// The same term again. Its one error is out of memory.
    pub fn copy(&self, alloc: Global) -> Result<Term, OutOfMemory>
        ensures { IfOk result (λ t. t ≡ self.now) }
    {
        Ok(match self {
            Term::Iri(iri) => Term::Iri(iri.copy(alloc)?),
            Term::Blank(label) => Term::Blank(label.copy(alloc)?),
            Term::Literal { form, kind } => Term::Literal {
                form: Text::copy(alloc, form.as_str())?,
                kind: kind.copy(alloc)?,
            },
        })
    }

    /// Whether two terms are the same: of one class, with one text, and of literals with one kind, datatype and tag, character
    /// by character (RDF 1.1 Concepts 3.2 to 3.4).
    pub fn same(&self, other: &Term) -> bool
        ensures same { IsTrue result ↔ (self.now ≡ other.now) }
        ensures test { result ≡ term_eq self.now other.now }
    {
        self == other
    }
}

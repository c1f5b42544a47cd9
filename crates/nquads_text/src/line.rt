// What a line reads as.
ghost use Rattle.std.specs.Prelude.{◌≡◌, Option, Some, None, Result, Ok, Err};
ghost use Rattle.std.specs.Option.{option_map};
ghost use Rattle.nquads_text.specs.Raw.{line_form};
ghost use Rattle.rdf_terms.specs.Valid.{IsValidKind, IsValidTerm, IsValidGraph, IsValidQuad};
ghost use Rattle.nquads_text.specs.Faults.{fault_of};
ghost use Rattle.nquads_text.specs.Line.{IsWritten, or_fault, quad_of, line_read};
ghost use Rattle.nquads_text.specs.Views.{quad_view, loose_kind, loose_term, loose_quad};
ghost use Rattle.nquads_text.specs.Lines.{LineGives};

use crate::fault::Why;
use crate::loose::{LooseKind, LooseQuad, LooseTerm, loose_of};
use crate::raw::{RawQuad, line_form};
use crate::scan::as_text;
use rdf_terms::{Datatype, IriText, Kind, Label, Quad, Tag, Term, Triple};
use std::alloc::Global;
use text_base::OutOfMemory;

fn kind(kind: LooseKind) -> Kind
    requires { IsValidKind (loose_kind kind) }
    ensures { result ≡ loose_kind kind }
{
    match kind {
        LooseKind::Plain => Kind::Plain,
        LooseKind::Typed(text) => Kind::Typed(Datatype::from_text(text)),
        LooseKind::Tagged(text) => Kind::Tagged(Tag::from_text(text)),
    }
}

fn term(term: LooseTerm) -> Term
    requires { IsValidTerm (loose_term term) }
    ensures { result ≡ loose_term term }
{
    match term {
        LooseTerm::Iri(text) => Term::Iri(IriText::from_text(text)),
        LooseTerm::Blank(text) => Term::Blank(Label::from_text(text)),
        LooseTerm::Literal { form, kind: k } => Term::Literal {
            form,
            kind: kind(k),
        },
    }
}

fn graph(graph: Option<LooseTerm>) -> Option<Term>
    requires { IsValidGraph (option_map loose_term graph) }
    ensures { result ≡ option_map loose_term graph }
{
    match graph {
        None => None,
        Some(graph) => Some(term(graph)),
    }
}

fn quad(quad: LooseQuad) -> Quad
    requires { IsValidQuad (loose_quad quad) }
    ensures { result ≡ loose_quad quad }
{
    Quad {
        triple: Triple {
            subject: term(quad.subject),
            predicate: term(quad.predicate),
            object: term(quad.object),
        },
        graph: graph(quad.graph),
    }
}

/// Why a line is not read.
#[derive(Clone, Copy, Debug)]
pub enum LineFault {
    Bad(Why),
    OutOfMemory,
}

impl From<OutOfMemory> for LineFault {
    ghost use Rattle.std.specs.Prelude.{◌≡◌};
    ghost use Rattle.nquads_text.specs.declared.line.LineFault.TheVariants.{OutOfMemory};

    ghost from_gives = { λ _ e. e ≡ OutOfMemory };

    fn from(_: OutOfMemory) -> Self {
        LineFault::OutOfMemory
    }
}

/// The quad of a statement with its escapes resolved, or its first fault.
fn checked(loose: LooseQuad, longest: usize) -> Result<Quad, LineFault>
    requires { fault_of longest (loose_quad loose) ≡ None → IsValidQuad (loose_quad loose) }
    ensures { LineGives result (or_fault (loose_quad loose) (fault_of longest (loose_quad loose))) }
{
    match loose.fault(longest) {
        Some(why) => {
            drop(loose);
            Err(LineFault::Bad(why))
        }
        None => Ok(quad(loose)),
    }
}

#[tactic(auto, unfolding(crate::specs::Line::quad_of))]
fn quad_of(alloc: Global, raw: &RawQuad<'_>, longest: usize) -> Result<Quad, LineFault>
    requires { IsWritten (quad_view raw.now) }
    ensures { LineGives result (quad_of longest (quad_view raw.now)) }
{
    let found = loose_of(alloc, raw)?;
    match found {
        None => Err(LineFault::Bad(Why::Escape)),
        Some(loose) => checked(loose, longest),
    }
}

/// What a line reads as: nothing, or a quad, or its first fault.
#[tactic(auto, unfolding(crate::specs::Line::line_read))]
pub fn line_read(alloc: Global, line: &[u8], longest: usize) -> Result<Option<Quad>, LineFault>
    ensures { LineGives result (line_read longest line.now) }
{
    if as_text(line).is_none() {
        return Err(LineFault::Bad(Why::Utf8));
    }
    match line_form(line) {
        None => Err(LineFault::Bad(Why::Statement)),
        Some(None) => Ok(None),
        Some(Some(raw)) => {
            let quad = quad_of(alloc, &raw, longest)?;
            Ok(Some(quad))
        }
    }
}

// Explicit forms of terms, and the slots that texts stand for.
ghost use Rattle.std.specs.Prelude.{◌≡◌, ◌∷◌, ◌++◌, IfOk, OnOk, IfErr};
ghost use Rattle.std.specs.String.{string_bytes};
ghost use Rattle.rdf_terms.specs.Valid.{IsNotBlank};
ghost use Rattle.template_fill.specs.Explicit.{Gives, fixed, explicit_form, suffix, slot_of, read_iri, read_literal, suffixed_literal, tagged_literal, typed_literal, marked_literal};

use crate::ValueFault;
use rdf_terms::{Kind, Slot, Term, TermFault};
use std::alloc::{AllocError, Global};
use tpf_base::{OutOfMemory, Text};

/// The explicit form of an IRI or a literal: an IRI as it is; a literal as its lexical form between
/// quotes, without escapes, and then nothing, `@` and its language tag, or `^^` and its datatype
/// (Triple Pattern Fragments, controls: hydra:ExplicitRepresentation). Condition: it is no blank
/// node, which has none. It fails only when memory ran out.
pub fn explicit(alloc: Global, term: &Term) -> Result<Text, OutOfMemory>
    requires { IsNotBlank term.now }
    ensures { IfOk result (λ text. text ≡ explicit_form term.now) }
{
    match term {
        Term::Iri(iri) => Text::copy(alloc, iri.as_str()),
        Term::Literal { form, kind } => Ok(Text::from_string(quoted(alloc, form.as_str(), kind)?)),
        Term::Blank(_) => unreachable!(),
    }
}

/// Appends what follows the second quote of a literal.
fn push_suffix(out: &mut String, kind: &Kind) -> Result<(), AllocError>
    ensures { OnOk result (string_bytes out.new ≡ string_bytes out.old ++ suffix kind.now) }
{
    match kind {
        Kind::Plain => Ok(()),
        Kind::Typed(datatype) => {
            out.push_str("^^")?;
            out.push_str(datatype.as_str())
        }
        Kind::Tagged(tag) => {
            out.push('@')?;
            out.push_str(tag.as_str())
        }
    }
}

/// A form in quotes, and what its kind puts after them.
fn quoted(alloc: Global, form: &str, kind: &Kind) -> Result<String, AllocError>
    ensures { IfOk result (λ text. string_bytes text ≡ 34 ∷ (form.now ++ 34 ∷ suffix kind.now)) }
{
    let mut text = String::from_str(alloc, "\"")?;
    text.push_str(form)?;
    text.push('"')?;
    push_suffix(&mut text, kind)?;
    Ok(text)
}

fn iri(alloc: Global, text: &str) -> Result<Term, ValueFault>
    ensures given { Gives result (read_iri text.now) }
    ensures refused { IfErr (read_iri text.now) (λ fault. result ≡ Err fault) }
{
    match Term::iri(alloc, text) {
        Ok(term) => Ok(term),
        Err(TermFault::Iri) => Err(ValueFault::Iri),
        Err(_) => Err(ValueFault::OutOfMemory),
    }
}

fn tagged(alloc: Global, form: &str, tag: &str) -> Result<Term, ValueFault>
    ensures given { Gives result (tagged_literal form.now tag.now) }
    ensures refused { IfErr (tagged_literal form.now tag.now) (λ fault. result ≡ Err fault) }
{
    match Term::tagged(alloc, form, tag) {
        Ok(term) => Ok(term),
        Err(TermFault::Tag) => Err(ValueFault::Suffix),
        Err(_) => Err(ValueFault::OutOfMemory),
    }
}

fn typed(alloc: Global, form: &str, datatype: &str) -> Result<Term, ValueFault>
    ensures given { Gives result (typed_literal form.now datatype.now) }
    ensures refused { IfErr (typed_literal form.now datatype.now) (λ fault. result ≡ Err fault) }
{
    match Term::typed(alloc, form, datatype) {
        Ok(term) => Ok(term),
        Err(TermFault::Iri) => Err(ValueFault::Suffix),
        Err(TermFault::LangString) => Err(ValueFault::LangString),
        Err(_) => Err(ValueFault::OutOfMemory),
    }
}

/// The literal with this form and what follows the first `^` of its suffix.
fn marked(alloc: Global, form: &str, rest: &str) -> Result<Term, ValueFault>
    ensures given { Gives result (marked_literal form.now rest.now) }
    ensures refused { IfErr (marked_literal form.now rest.now) (λ fault. result ≡ Err fault) }
{
    match rest.strip_prefix('^') {
        Some(datatype) => typed(alloc, form, datatype),
        None => Err(ValueFault::Suffix),
    }
}

/// The literal with this form and what follows its last quote.
fn suffixed(alloc: Global, form: &str, suffix: &str) -> Result<Term, ValueFault>
    ensures given { Gives result (suffixed_literal form.now suffix.now) }
    ensures refused { IfErr (suffixed_literal form.now suffix.now) (λ fault. result ≡ Err fault) }
{
    if suffix.is_empty() {
        return Ok(Term::plain(alloc, form)?);
    }
    if let Some(tag) = suffix.strip_prefix('@') {
        return tagged(alloc, form, tag);
    }
    match suffix.strip_prefix('^') {
        Some(rest) => marked(alloc, form, rest),
        None => Err(ValueFault::Suffix),
    }
}

/// The literal that a text is after its first quote.
fn literal(alloc: Global, text: &str) -> Result<Term, ValueFault>
    ensures given { Gives result (read_literal text.now) }
    ensures refused { IfErr (read_literal text.now) (λ fault. result ≡ Err fault) }
{
    match text.rsplit_once('"') {
        None => Err(ValueFault::Quote),
        Some((form, suffix)) => suffixed(alloc, form, suffix),
    }
}

fn fixed(term: Result<Term, ValueFault>) -> Result<Slot, ValueFault>
    ensures { result ≡ fixed term }
{
    match term {
        Ok(term) => Ok(Slot::Fixed(term)),
        Err(fault) => Err(fault),
    }
}

/// The slot that a text stands for. Nothing, and a text that begins with `?`, is `Any`; any
/// other is an explicit form. A tag is read in lower case.
///
/// `Iri` exactly where the text begins with no quote and is no IRI with a scheme; else
/// `Quote` exactly where it has no second quote; else, of what follows the last quote,
/// `LangString` exactly where it is `^^` and `rdf:langString`, and `Suffix` exactly where it
/// is nothing else that may follow. `OutOfMemory` comes only when memory ran out.
pub fn read_explicit(alloc: Global, text: &str) -> Result<Slot, ValueFault>
    ensures given { Gives result (slot_of text.now) }
    ensures refused { IfErr (slot_of text.now) (λ fault. result ≡ Err fault) }
{
    if text.is_empty() || text.starts_with('?') {
        return Ok(Slot::Any);
    }
    match text.strip_prefix('"') {
        Some(rest) => fixed(literal(alloc, rest)),
        None => fixed(iri(alloc, text)),
    }
}

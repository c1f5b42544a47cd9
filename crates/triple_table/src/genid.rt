// Blank nodes as IRIs of the server's own: Skolem IRIs (RDF 1.1 Concepts 3.5).
ghost use Rattle.std.specs.Prelude.{ℕ, ◌≡◌, ◌≢◌, ◌+◌, ◌<◌, ◌++◌, List, IfOk, MatchOption, IsTrue, string_bytes};
ghost use Rattle.rdf_terms.specs.Label.{is_label};
ghost use Rattle.tpf_base.specs.Addresses.{IsAuthority};
ghost use Rattle.triple_table.specs.Genid.{genid, skolem, skolem_triple};

use rdf_terms::{IriText, Term, Triple};
use std::alloc::Global;
use tpf_base::{OutOfMemory, Text, all_three};

const SCHEME: &str = "http://";

const FOLDER: &str = "/.well-known/genid/";

fn genid_text(alloc: Global, authority: &str, label: &str) -> Result<String, OutOfMemory>
    ensures { IfOk result (λ s. string_bytes s ≡ genid authority.now label.now) }
{
    let mut text = String::new(alloc);
    text.push_str(SCHEME)?;
    text.push_str(authority)?;
    text.push_str(FOLDER)?;
    text.push_str(label)?;
    Ok(text)
}

/// The IRI that stands for the blank node with this label.
fn genid(alloc: Global, authority: &str, label: &str) -> Result<IriText, OutOfMemory>
    requires authority { IsAuthority authority.now }
    requires label { IsTrue (is_label label.now) }
    ensures { IfOk result (λ i. i ≡ genid authority.now label.now) }
{
    let text = Text::from_string(genid_text(alloc, authority, label)?);
    Ok(IriText::from_text(text))
}

/// A term as it is served.
pub(crate) fn skolem(alloc: Global, authority: &str, term: &Term) -> Result<Term, OutOfMemory>
    requires authority { IsAuthority authority.now }
    ensures { IfOk result (λ t. t ≡ skolem authority.now term.now) }
{
    match term {
        Term::Blank(label) => Ok(Term::Iri(genid(alloc, authority, label.as_str())?)),
        _ => term.copy(alloc),
    }
}

/// A triple as it is served.
pub(crate) fn skolem_triple(
    alloc: Global,
    authority: &str,
    triple: &Triple,
) -> Result<Triple, OutOfMemory>
    requires authority { IsAuthority authority.now }
    ensures { IfOk result (λ t. t ≡ skolem_triple authority.now triple.now) }
{
    let subject = skolem(alloc, authority, &triple.subject);
    let predicate = skolem(alloc, authority, &triple.predicate);
    let object = skolem(alloc, authority, &triple.object);
    let (subject, predicate, object) = all_three(subject, predicate, object)?;
    Ok(Triple {
        subject,
        predicate,
        object,
    })
}

/// What follows this prefix in a text that begins with it.
fn after<'a>(text: &'a str, front: &str) -> Option<&'a str>
    ensures { MatchOption result ((rest : List ℕ) → text.now ≢ front.now ++ rest)
        (λ rest. text.now ≡ front.now ++ rest.now) }
{
    text.strip_prefix(front)
}

/// The label that an IRI stands for, if it is one of the authority's genid IRIs.
pub(crate) fn label_part<'a>(iri: &'a str, authority: &str) -> Option<&'a str>
    ensures { MatchOption result ((label : List ℕ) → iri.now ≢ genid authority.now label)
        (λ label. iri.now ≡ genid authority.now label.now) }
{
    let rest = after(iri, SCHEME)?;
    let label = after(rest, authority)?;
    after(label, FOLDER)
}

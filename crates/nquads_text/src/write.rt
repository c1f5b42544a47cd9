// Canonical text (N-Triples, "A Canonical form of N-Triples").
ghost use Rattle.std.specs.Prelude.{◌≡◌, ◌<◌, ◌∷◌, ◌++◌, [], length, take, Option, Some, None, IfOk, IfSome, OnOk, OnErr};
ghost use Rattle.rdf_terms.specs.Canon.{is_marked, canonical_byte, canonical_form, canonical_kind, canonical_term, canonical_graph, canonical_line};
ghost use Rattle.nquads_text.specs.Scan.{first_place};
ghost use Rattle.list_laws.specs.Begins.{Begins};

use rdf_terms::{Kind, Quad, Term, Triple, after_mark, is_marked};
use text_base::OutOfMemory;

#[tactic(auto, using(list_laws::proofs::Begins::same_begins, list_laws::proofs::Begins::more_begins))]
fn push_all(bytes: &[u8], out: &mut Vec<u8>) -> Result<(), OutOfMemory>
    ensures ok { OnOk result (out.new.items ≡ out.old.items ++ bytes.now) }
    ensures front { Begins out.old.items out.new.items }
{
    out.extend_from_slice(bytes)?;
    Ok(())
}

#[tactic(auto, using(list_laws::proofs::Begins::same_begins, list_laws::proofs::Begins::more_begins))]
fn push_one(b: u8, out: &mut Vec<u8>) -> Result<(), OutOfMemory>
    ensures ok { OnOk result (out.new.items ≡ out.old.items ++ b ∷ []) }
    ensures front { Begins out.old.items out.new.items }
{
    out.push(b)?;
    Ok(())
}

fn push_byte(b: u8, out: &mut Vec<u8>) -> Result<(), OutOfMemory>
    ensures ok { OnOk result (out.new.items ≡ out.old.items ++ canonical_byte b) }
    ensures front { Begins out.old.items out.new.items }
{
    if is_marked(b) {
        push_all(&[b'\\', after_mark(b)], out)
    } else {
        push_one(b, out)
    }
}

/// Appends two texts, one after the other.
fn push_two(first: &[u8], last: &[u8], out: &mut Vec<u8>) -> Result<(), OutOfMemory>
    ensures ok { OnOk result (out.new.items ≡ out.old.items ++ (first.now ++ last.now)) }
    ensures front { Begins out.old.items out.new.items }
{
    push_all(first, out)?;
    push_all(last, out)
}

/// Appends three texts, one after another.
fn push_three(
    first: &[u8],
    middle: &[u8],
    last: &[u8],
    out: &mut Vec<u8>,
) -> Result<(), OutOfMemory>
    ensures ok { OnOk result (out.new.items ≡ out.old.items ++ (first.now ++ (middle.now ++ last.now))) }
    ensures front { Begins out.old.items out.new.items }
{
    push_all(first, out)?;
    push_two(middle, last, out)
}

/// The place of the first byte that is written with a backslash.
fn mark_place(form: &[u8]) -> Option<usize>
    ensures place { result ≡ first_place is_marked 0 form.now }
    ensures within { IfSome result (λ n. n < length form.now) }
{
    for (i, b) in form.iter().enumerate() {
        if is_marked(*b) {
            return Some(i);
        }
    }
    None
}

/// Appends the bytes up to the one in place n, which is written with a backslash, and that one. Answers those after it.
fn push_run<'a>(form: &'a [u8], n: usize, out: &mut Vec<u8>) -> Result<&'a [u8], OutOfMemory>
    requires place { first_place is_marked 0 form.now ≡ Some n }
    requires within { n < length form.now }
    ensures ok { IfOk result
        (λ rest. out.new.items ++ canonical_form rest.now ≡ out.old.items ++ canonical_form form.now) }
    ensures shorter { IfOk result (λ rest. length rest.now < length form.now) }
    ensures front { Begins out.old.items out.new.items }
{
    push_all(&form[..n], out)?;
    push_byte(form[n], out)?;
    Ok(&form[n + 1..])
}

#[tactic(auto, using(list_laws::proofs::Begins::begins_on))]
fn push_form(form: &[u8], out: &mut Vec<u8>) -> Result<(), OutOfMemory>
    ensures ok { OnOk result (out.new.items ≡ out.old.items ++ canonical_form form.now) }
    ensures front { Begins out.old.items out.new.items }
{
    let mut rest = form;
    while let Some(n) = mark_place(rest) {
        rest = push_run(rest, n, out)?;
    }
    push_all(rest, out)?;
    Ok(())
}

fn push_iri(text: &str, out: &mut Vec<u8>) -> Result<(), OutOfMemory>
    ensures ok { OnOk result (out.new.items ≡ out.old.items ++ 60 ∷ (text.now ++ 62 ∷ [])) }
    ensures front { Begins out.old.items out.new.items }
{
    push_three(b"<", text.as_bytes(), b">", out)
}

/// The quote that closes a form, and what follows it.
fn push_kind(kind: &Kind, out: &mut Vec<u8>) -> Result<(), OutOfMemory>
    ensures ok { OnOk result (out.new.items ≡ out.old.items ++ 34 ∷ canonical_kind kind.now) }
    ensures front { Begins out.old.items out.new.items }
{
    match kind {
        Kind::Plain => push_one(b'"', out),
        Kind::Typed(datatype) => push_three(b"\"^^<", datatype.as_str().as_bytes(), b">", out),
        Kind::Tagged(tag) => push_two(b"\"@", tag.as_str().as_bytes(), out),
    }
}

fn push_literal(form: &str, kind: &Kind, out: &mut Vec<u8>) -> Result<(), OutOfMemory>
    ensures ok { OnOk result (out.new.items
        ≡ out.old.items ++ 34 ∷ (canonical_form form.now ++ 34 ∷ canonical_kind kind.now)) }
    ensures front { Begins out.old.items out.new.items }
{
    push_one(b'"', out)?;
    push_form(form.as_bytes(), out)?;
    push_kind(kind, out)
}

fn push_label(label: &str, out: &mut Vec<u8>) -> Result<(), OutOfMemory>
    ensures ok { OnOk result (out.new.items ≡ out.old.items ++ 95 ∷ 58 ∷ label.now) }
    ensures front { Begins out.old.items out.new.items }
{
    push_two(b"_:", label.as_bytes(), out)
}

fn push_term(term: &Term, out: &mut Vec<u8>) -> Result<(), OutOfMemory>
    ensures ok { OnOk result (out.new.items ≡ out.old.items ++ canonical_term term.now) }
    ensures front { Begins out.old.items out.new.items }
{
    match term {
        Term::Iri(text) => push_iri(text.as_str(), out),
        Term::Blank(label) => push_label(label.as_str(), out),
        Term::Literal { form, kind } => push_literal(form.as_str(), kind, out),
    }
}

/// A space and a term.
fn push_spaced(term: &Term, out: &mut Vec<u8>) -> Result<(), OutOfMemory>
    ensures ok { OnOk result (out.new.items ≡ out.old.items ++ 32 ∷ canonical_term term.now) }
    ensures front { Begins out.old.items out.new.items }
{
    push_one(b' ', out)?;
    push_term(term, out)
}

#[tactic(auto, using(list_laws::proofs::Begins::itself_begins))]
fn push_graph(graph: &Option<Term>, out: &mut Vec<u8>) -> Result<(), OutOfMemory>
    ensures ok { OnOk result (out.new.items ≡ out.old.items ++ canonical_graph graph.now) }
    ensures front { Begins out.old.items out.new.items }
{
    match graph {
        None => Ok(()),
        Some(graph) => push_spaced(graph, out),
    }
}

fn push_triple(triple: &Triple, out: &mut Vec<u8>) -> Result<(), OutOfMemory>
    ensures ok { OnOk result (out.new.items ≡ out.old.items
        ++ (canonical_term triple.now.subject
        ++ 32 ∷ (canonical_term triple.now.predicate ++ 32 ∷ canonical_term triple.now.object))) }
    ensures front { Begins out.old.items out.new.items }
{
    push_term(&triple.subject, out)?;
    push_spaced(&triple.predicate, out)?;
    push_spaced(&triple.object, out)
}

fn push_quad(quad: &Quad, out: &mut Vec<u8>) -> Result<(), OutOfMemory>
    ensures ok { OnOk result (out.new.items ≡ out.old.items ++ canonical_line quad.now) }
    ensures front { Begins out.old.items out.new.items }
{
    push_triple(&quad.triple, out)?;
    push_graph(&quad.graph, out)?;
    push_all(b" .\n", out)
}

/// Takes back what was appended since `out` had this length, where the writing failed.
#[tactic(auto, using(list_laws::proofs::Begins::cut_back))]
fn taken_back(
    written: Result<(), OutOfMemory>,
    before: usize,
    out: &mut Vec<u8>,
) -> Result<(), OutOfMemory>
    ensures same { result ≡ written }
    ensures ok { OnOk result (out.new.items ≡ out.old.items) }
    ensures err { OnErr result (out.new.items ≡ take before out.old.items) }
{
    if written.is_err() {
        out.truncate(before);
    }
    written
}

/// Appends the canonical text of a term (RDF 1.1 N-Triples 4). After `OutOfMemory`, which comes only when memory ran out,
/// `out` is as before.
#[tactic(auto, using(list_laws::proofs::Begins::cut_back))]
pub fn canonical(term: &Term, out: &mut Vec<u8>) -> Result<(), OutOfMemory>
    ensures ok { OnOk result (out.new.items ≡ out.old.items ++ canonical_term term.now) }
    ensures err { OnErr result (out.new.items ≡ out.old.items) }
{
    let before = out.len();
    let written = push_term(term, out);
    taken_back(written, before, out)
}

/// Appends the canonical line of a quad, its end LF with it. After `OutOfMemory`, which comes only when memory ran out,
/// `out` is as before.
#[tactic(auto, using(list_laws::proofs::Begins::cut_back))]
pub fn write_quad(quad: &Quad, out: &mut Vec<u8>) -> Result<(), OutOfMemory>
    ensures ok { OnOk result (out.new.items ≡ out.old.items ++ canonical_line quad.now) }
    ensures err { OnErr result (out.new.items ≡ out.old.items) }
{
    let before = out.len();
    let written = push_quad(quad, out);
    taken_back(written, before, out)
}

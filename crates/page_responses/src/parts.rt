// Lines that are written in parts, so that none is made whole that is long.
ghost use Rattle.std.specs.Prelude.{◌≡◌, ◌-◌, ◌<◌, ◌≤◌, ◌∷◌, ◌++◌, [], true, List, take, drop, length, nat_lt, slice_index_or, IfOk, OnOk};
ghost use Rattle.std.specs.List.{concat};
ghost use Rattle.rdf_terms.specs.declared.term.Quad.{Quad};
ghost use Rattle.rdf_terms.specs.Canon.{canonical_byte, canonical_kind, canonical_line};
ghost use Rattle.list_laws.specs.Begins.{Begins};
ghost use Rattle.triple_table.specs.Stored.{Stored, IsIdTriple, held_terms, triple_at};
ghost use Rattle.page_responses.specs.declared.limits.TheConstants.{PART};
ghost use Rattle.page_responses.specs.Given.{IsGiven};
ghost use Rattle.page_responses.specs.Lines.{some_quad};
ghost use Rattle.page_responses.specs.PageRests.{IsBegun, begun_text};
ghost use Rattle.page_responses.specs.Parts.{CutsMarks, ended_marks, form_marks, plain_marks, term_marks, triple_marks};

use crate::limits::PART;
use crate::lines::{triple_length, write_triple};
use hydra_controls::{Cut, MetadataLines};
use rdf_terms::{Kind, Term, after_mark, is_marked};
use tpf_base::OutOfMemory;
use triple_table::{IdTriple, Table};

/// The line that was begun, and from which byte of its source on it is left.
#[derive(Clone, Copy)]
pub enum Begun {
    Nothing,
    /// The line of a triple of the table.
    Triple(IdTriple, u128),
    /// The line in this place of the metadata.
    Line(usize, u128),
}

// ---- what the bytes of a source are written as

/// Appends a byte of a literal's form as it is written.
#[tactic(auto, using(list_laws::proofs::Begins::same_begins, list_laws::proofs::Begins::more_begins))]
fn push_byte(b: u8, out: &mut Vec<u8>) -> Result<(), OutOfMemory>
    ensures ok { OnOk result (out.new.items ≡ out.old.items ++ canonical_byte b) }
    ensures front { Begins out.old.items out.new.items }
{
    if is_marked(b) {
        out.extend_from_slice(&[b'\\', after_mark(b)])?;
        return Ok(());
    }
    out.push(b)?;
    Ok(())
}

/// Appends bytes of a literal's form as they are written.
fn push_form(form: &[u8], out: &mut Vec<u8>) -> Result<(), OutOfMemory>
    ensures ok { OnOk result (out.new.items ≡ out.old.items ++ concat (form_marks form.now)) }
    ensures front { Begins out.old.items out.new.items }
{
    for b in form {
        push_byte(*b, out)?;
    }
    Ok(())
}

/// Appends what is cut of a literal's form.
fn cut_form(form: &[u8], cut: &mut Cut, out: &mut Vec<u8>) -> Result<(), OutOfMemory>
    ensures ok { OnOk result (CutsMarks cut.old cut.new (form_marks form.now) out.old.items out.new.items) }
    ensures front { Begins out.old.items out.new.items }
{
    let (from, to) = cut.pass(form.len());
    push_form(&form[from..to], out)
}

/// Appends what is cut of a text that is written as it is.
fn cut_plain(text: &[u8], cut: &mut Cut, out: &mut Vec<u8>) -> Result<(), OutOfMemory>
    ensures ok { OnOk result (CutsMarks cut.old cut.new (plain_marks text.now) out.old.items out.new.items) }
    ensures front { Begins out.old.items out.new.items }
{
    cut.push(text, out)
}

// ---- terms

/// Appends what is cut of an IRI, in its brackets.
fn cut_iri(text: &str, cut: &mut Cut, out: &mut Vec<u8>) -> Result<(), OutOfMemory>
    ensures ok { OnOk result (CutsMarks cut.old cut.new
        (plain_marks (60 ∷ []) ++ (plain_marks text.now ++ plain_marks (62 ∷ []))) out.old.items out.new.items) }
    ensures front { Begins out.old.items out.new.items }
{
    cut_plain(b"<", cut, out)?;
    cut_plain(text.as_bytes(), cut, out)?;
    cut_plain(b">", cut, out)
}

/// Appends what is cut of two texts that are written as they are.
fn cut_both(front: &[u8], text: &str, cut: &mut Cut, out: &mut Vec<u8>) -> Result<(), OutOfMemory>
    ensures ok { OnOk result (CutsMarks cut.old cut.new
        (plain_marks front.now ++ plain_marks text.now) out.old.items out.new.items) }
    ensures front { Begins out.old.items out.new.items }
{
    cut_plain(front, cut, out)?;
    cut_plain(text.as_bytes(), cut, out)
}

/// Appends what is cut of what stands behind the closing quote of a literal.
#[tactic(auto, using(list_laws::proofs::Begins::itself_begins, crate::proofs::PartLaws::cuts_nothing, crate::proofs::PartLaws::tag_cuts))]
fn cut_kind(kind: &Kind, cut: &mut Cut, out: &mut Vec<u8>) -> Result<(), OutOfMemory>
    ensures ok { OnOk result
        (CutsMarks cut.old cut.new (plain_marks (canonical_kind kind.now)) out.old.items out.new.items) }
    ensures front { Begins out.old.items out.new.items }
{
    match kind {
        Kind::Plain => Ok(()),
        Kind::Typed(datatype) => cut_datatype(datatype.as_str(), cut, out),
        Kind::Tagged(tag) => cut_both(b"@", tag.as_str(), cut, out),
    }
}

/// Appends what is cut of a datatype behind the closing quote of a literal.
fn cut_datatype(text: &str, cut: &mut Cut, out: &mut Vec<u8>) -> Result<(), OutOfMemory>
    ensures ok { OnOk result (CutsMarks cut.old cut.new
        (plain_marks (94 ∷ 94 ∷ 60 ∷ (text.now ++ 62 ∷ []))) out.old.items out.new.items) }
    ensures front { Begins out.old.items out.new.items }
{
    cut_both(b"^^<", text, cut, out)?;
    cut_plain(b">", cut, out)
}

/// Appends what is cut of a literal.
fn cut_literal(form: &str, kind: &Kind, cut: &mut Cut, out: &mut Vec<u8>) -> Result<(), OutOfMemory>
    ensures ok { OnOk result (CutsMarks cut.old cut.new
        (plain_marks (34 ∷ []) ++ (form_marks form.now
        ++ (plain_marks (34 ∷ []) ++ plain_marks (canonical_kind kind.now))))
        out.old.items out.new.items) }
    ensures front { Begins out.old.items out.new.items }
{
    cut_plain(b"\"", cut, out)?;
    cut_form(form.as_bytes(), cut, out)?;
    cut_plain(b"\"", cut, out)?;
    cut_kind(kind, cut, out)
}

/// Appends what is cut of a term (N-Triples, "A Canonical form of N-Triples").
fn cut_term(term: &Term, cut: &mut Cut, out: &mut Vec<u8>) -> Result<(), OutOfMemory>
    ensures ok { OnOk result (CutsMarks cut.old cut.new (term_marks term.now) out.old.items out.new.items) }
    ensures front { Begins out.old.items out.new.items }
{
    match term {
        Term::Iri(text) => cut_iri(text.as_str(), cut, out),
        Term::Blank(label) => cut_both(b"_:", label.as_str(), cut, out),
        Term::Literal { form, kind } => cut_literal(form.as_str(), kind, cut, out),
    }
}

/// Appends what is cut of a term and of what stands behind it.
fn cut_ended(term: &Term, end: &[u8], cut: &mut Cut, out: &mut Vec<u8>) -> Result<(), OutOfMemory>
    ensures ok { OnOk result (CutsMarks cut.old cut.new (ended_marks term.now end.now) out.old.items out.new.items) }
    ensures front { Begins out.old.items out.new.items }
{
    cut_term(term, cut, out)?;
    cut_plain(end, cut, out)
}

// ---- lines

/// Whether a line of so many bytes of which none was given is one part.
fn is_short(from: u128, length: u128) -> bool
    ensures { result ≡ true → (from ≡ 0) × (length ≤ PART) }
{
    from == 0 && length <= PART as u128
}

/// Appends a part of the line of a triple of the table, and tells whether more is left.
fn cut_triple(
    table: &Table,
    ids: IdTriple,
    from: u128,
    out: &mut Vec<u8>,
) -> Result<bool, OutOfMemory>
    requires { IsIdTriple (held_terms table.now) ids }
    ensures ok { IfOk result (λ more.
        (more ≡ nat_lt PART (length (triple_marks (triple_at (held_terms table.now) ids)) - from))
        × (out.new.items ≡ out.old.items
        ++ concat (take PART (drop from (triple_marks (triple_at (held_terms table.now) ids)))))) }
    ensures front { Begins out.old.items out.new.items }
{
    let mut cut = Cut::new(from, PART);
    cut_ended(table.term(ids.subject), b" ", &mut cut, out)?;
    cut_ended(table.term(ids.predicate), b" ", &mut cut, out)?;
    cut_ended(table.term(ids.object), b" .\n", &mut cut, out)?;
    Ok(cut.more)
}

/// Appends the next part of the line of a triple of the table, from a byte of its source on, and answers
/// what is left of it. A short line is one part.
pub fn write_triple_part(
    table: &Table,
    ids: IdTriple,
    from: u128,
    out: &mut Vec<u8>,
) -> Result<Begun, OutOfMemory>
    requires ids { IsIdTriple (held_terms table.now) ids }
    requires some { from < length (triple_marks (triple_at (held_terms table.now) ids)) }
    ensures ok { (quads : List Quad) → IfOk result (λ begun.
        IsGiven (begun_text table.now quads (Begun.Triple ids from)) (begun_text table.now quads begun)
        out.old.items out.new.items) }
    ensures begun { (quads : List Quad) → IfOk result (IsBegun table.now quads) }
    ensures front { Begins out.old.items out.new.items }
{
    let length = triple_length(table, ids);
    if is_short(from, length) {
        write_triple(table, ids, out)?;
        return Ok(Begun::Nothing);
    }
    if cut_triple(table, ids, from, out)? {
        Ok(Begun::Triple(ids, from + PART as u128))
    } else {
        Ok(Begun::Nothing)
    }
}

/// Appends the next part of a line of a page's metadata, from a byte on, and answers what is left of it.
#[tactic(auto, using(list_laws::proofs::Begins::itself_begins, list_laws::proofs::Begins::more_begins))]
pub fn write_line_part(
    lines: &MetadataLines,
    place: usize,
    from: u128,
    out: &mut Vec<u8>,
) -> Result<Begun, OutOfMemory>
    requires place { place < length lines.now }
    requires some { from < length (canonical_line (slice_index_or lines.now place some_quad)) }
    ensures ok { (s : Stored) → IfOk result (λ begun. IsGiven (begun_text s lines.now (Begun.Line place from))
        (begun_text s lines.now begun) out.old.items out.new.items) }
    ensures begun { (s : Stored) → IfOk result (IsBegun s lines.now) }
    ensures front { Begins out.old.items out.new.items }
{
    if lines.write_part(place, from, PART, out)? {
        let _length = lines.length(place);
        Ok(Begun::Line(place, from + PART as u128))
    } else {
        Ok(Begun::Nothing)
    }
}

// The lines of a page: their lengths, and the bytes of those of triples.
ghost use Rattle.std.specs.Prelude.{◌≡◌, ◌+◌, ◌*◌, ◌-◌, ◌<◌, ◌≤◌, ◌^◌, ◌++◌, ◌∷◌, [], length, map, true, OnOk};
ghost use Rattle.std.specs.List.{All, concat};
ghost use Rattle.rdf_terms.specs.Canon.{canonical_term, canonical_line};
ghost use Rattle.list_laws.specs.Begins.{Begins};
ghost use Rattle.triple_table.specs.Stored.{IsRange, IsIdTriple, held_terms, listed, triple_at};
ghost use Rattle.template_fill.specs.declared.limits.TheConstants.{LARGEST_PAGE};
ghost use Rattle.template_fill.specs.Bodies.{in_default_graph};
ghost use Rattle.page_responses.specs.Lines.{spaced_at, triple_line, triple_lines};

use nquads_text::canonical;
use rdf_terms::{Kind, Term};
use tpf_base::OutOfMemory;
use triple_table::{IdTriple, Range, Table};

/// The length of the line of a triple of the table: the sum of lengths that the table keeps.
#[tactic(auto, using(crate::proofs::LineLengths::triple_line_length))]
pub fn triple_length(table: &Table, ids: IdTriple) -> u128
    requires { IsIdTriple (held_terms table.now) ids }
    ensures length { result ≡ length (canonical_line (in_default_graph (triple_at (held_terms table.now) ids))) }
    ensures small { result < 2 ^ 70 }
{
    table.canonical_len(ids.subject)
        + table.canonical_len(ids.predicate)
        + table.canonical_len(ids.object)
        + 5
}

/// The length of the lines of a range of the table, which has at most `LARGEST_PAGE` (1000) triples.
#[tactic(auto, using(crate::proofs::LineLengths::next_triple))]
pub fn triples_length(table: &Table, range: &Range) -> u128
    requires range { IsRange table.now range.now }
    requires few { range.now.to - range.now.from ≤ LARGEST_PAGE }
    ensures length { result ≡ length (concat (triple_lines (listed table.now range.now))) }
    ensures small { result ≤ LARGEST_PAGE * 2 ^ 70 }
{
    let mut sum = 0;
    for i in 0..table.count(range) {
        sum += triple_length(table, table.at(range, i));
    }
    sum
}

/// The length of the lines of triples of the table, of which there are at most `LARGEST_PAGE` (1000).
#[tactic(auto, using(crate::proofs::LineLengths::next_ids))]
pub fn listed_length(table: &Table, triples: &[IdTriple]) -> u128
    requires ids { All (IsIdTriple (held_terms table.now)) triples.now }
    requires few { length triples.now ≤ LARGEST_PAGE }
    ensures length { result ≡ length (concat (triple_lines (map (triple_at (held_terms table.now)) triples.now))) }
    ensures small { result ≤ LARGEST_PAGE * 2 ^ 70 }
{
    let mut sum = 0;
    for triple in triples {
        sum += triple_length(table, *triple);
    }
    sum
}

// ---- appending

/// Appends a byte.
#[tactic(auto, using(list_laws::proofs::Begins::same_begins, list_laws::proofs::Begins::more_begins))]
fn append_byte(b: u8, out: &mut Vec<u8>) -> Result<(), OutOfMemory>
    ensures ok { OnOk result (out.new.items ≡ out.old.items ++ b ∷ []) }
    ensures front { Begins out.old.items out.new.items }
{
    out.push(b)?;
    Ok(())
}

/// Appends a text.
#[tactic(auto, using(list_laws::proofs::Begins::same_begins, list_laws::proofs::Begins::more_begins))]
pub fn append(text: &str, out: &mut Vec<u8>) -> Result<(), OutOfMemory>
    ensures ok { OnOk result (out.new.items ≡ out.old.items ++ text.now) }
    ensures front { Begins out.old.items out.new.items }
{
    out.extend_from_slice(text.as_bytes())?;
    Ok(())
}

/// Appends a byte, a text, and the same or another byte and a space.
#[tactic(auto, using(crate::proofs::Appends::enclosed_stands))]
fn append_enclosed(
    opening: u8,
    text: &str,
    closing: u8,
    out: &mut Vec<u8>,
) -> Result<(), OutOfMemory>
    ensures ok { OnOk result (out.new.items ≡ out.old.items ++ ((opening ∷ (text.now ++ closing ∷ [])) ++ 32 ∷ [])) }
    ensures front { Begins out.old.items out.new.items }
{
    append_byte(opening, out)?;
    append(text, out)?;
    append_byte(closing, out)?;
    append_byte(b' ', out)
}

/// Appends a term and a space.
#[tactic(auto, using(list_laws::proofs::Begins::begins_on, list_laws::proofs::Begins::more_begins, list_laws::proofs::Begins::same_begins))]
fn append_term(term: &Term, out: &mut Vec<u8>) -> Result<(), OutOfMemory>
    ensures ok { OnOk result (out.new.items ≡ out.old.items ++ (canonical_term term.now ++ 32 ∷ [])) }
    ensures front { Begins out.old.items out.new.items }
{
    canonical(term, out)?;
    append_byte(b' ', out)
}

/// Whether a literal whose canonical text has so many bytes is plain, and none of its bytes is written with a backslash.
fn is_plain(form: &str, kind: &Kind, bytes: u128) -> bool
    ensures { result ≡ true → (kind.now ≡ Kind.Plain) × (bytes ≡ length form.now + 2) }
{
    match kind {
        Kind::Plain => bytes == form.len() as u128 + 2,
        Kind::Typed(_) => false,
        Kind::Tagged(_) => false,
    }
}

/// Appends the term of the table with this id, and a space. Of an IRI and of a literal without a backslash
/// the text is copied at once.
fn append_at(table: &Table, id: u32, out: &mut Vec<u8>) -> Result<(), OutOfMemory>
    requires { id < length (held_terms table.now) }
    ensures ok { OnOk result (out.new.items ≡ out.old.items ++ spaced_at (held_terms table.now) id) }
    ensures front { Begins out.old.items out.new.items }
{
    let term = table.term(id);
    match term {
        Term::Iri(text) => append_enclosed(b'<', text.as_str(), b'>', out),
        Term::Blank(_) => append_term(term, out),
        Term::Literal { form, kind } => {
            if is_plain(form.as_str(), kind, table.canonical_len(id)) {
                append_enclosed(b'"', form.as_str(), b'"', out)
            } else {
                append_term(term, out)
            }
        }
    }
}

/// Appends the line of a triple of the table.
#[tactic(auto, using(crate::proofs::Appends::line_stands))]
pub fn write_triple(table: &Table, ids: IdTriple, out: &mut Vec<u8>) -> Result<(), OutOfMemory>
    requires { IsIdTriple (held_terms table.now) ids }
    ensures ok { OnOk result (out.new.items ≡ out.old.items ++ triple_line (triple_at (held_terms table.now) ids)) }
    ensures front { Begins out.old.items out.new.items }
{
    append_at(table, ids.subject, out)?;
    append_at(table, ids.predicate, out)?;
    append_at(table, ids.object, out)?;
    append(".\n", out)
}

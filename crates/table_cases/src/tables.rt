// The triples that are served, and their table.
ghost use Rattle.std.specs.Prelude.{◌≡◌, ◌+◌, ◌<◌, ◌≤◌, ◌^◌, All, IfOk, length};
ghost use Rattle.rdf_terms.specs.Triples.{IsRdfQuad};
ghost use Rattle.tpf_base.specs.Addresses.{IsAuthority};
ghost use Rattle.triple_table.specs.Stored.{IsIdPattern, IsRange, triples_in};

use case_rows::{Case, CaseFault, number_or_none, text_of_bytes, word_text};
use nquads_text::{canonical, read_all};
use rdf_terms::{Quad, Slot, Term, Triple};
use std::alloc::Global;
use std::marker::Brand;
use std::sync::ledger::{Blank, Ledger};
use template_fill::read_explicit;
use tpf_base::Steps;
use triple_table::{BuildFault, Choice, IdPattern, Range, Table, served};

/// The authority under which blank nodes are served.
fn host() -> &'static str
    ensures { IsAuthority result.now }
{
    "localhost"
}

/// The quads of N-Quads text.
fn quads_in(alloc: Global, text: &[u8]) -> Result<Vec<Quad>, CaseFault>
    ensures { IfOk result (λ v. All IsRdfQuad v.items) }
{
    match read_all(alloc, text, 1000) {
        Ok(quads) => Ok(quads),
        Err(_) => Err(CaseFault::Row),
    }
}

/// `data`: the quads of N-Quads text.
fn quads_of(alloc: Global, case: &mut Case<'_>) -> Result<Vec<Quad>, CaseFault>
    ensures { IfOk result (λ v. All IsRdfQuad v.items) }
{
    let text = case.bytes(alloc, "data")?;
    quads_in(alloc, text.as_slice())
}

/// `choice`: the graphs that are served: `default`, or all of them.
fn choice_of(alloc: Global, case: &mut Case<'_>) -> Result<Choice, CaseFault> {
    let choice = case.text(alloc, "choice")?;
    match choice.as_str() {
        "default" => Ok(Choice::DefaultGraph),
        "union" => Ok(Choice::Union),
        _ => Err(CaseFault::Row),
    }
}

/// The fault of a label whose Skolem IRI stands in the data.
fn clash_text(alloc: Global, label: &str) -> Result<String, CaseFault> {
    Ok(format!(in alloc; "genid {label}")?)
}

/// A fault as text.
fn fault_text(alloc: Global, fault: &BuildFault) -> Result<String, CaseFault> {
    match fault {
        BuildFault::GenidClash(label) => clash_text(alloc, label.as_str()),
        BuildFault::TooMany => word_text(alloc, "too many"),
        BuildFault::OutOfMemory => Err(CaseFault::OutOfMemory),
    }
}

/// Appends a term in canonical text, with a blank behind it.
fn push_term(term: &Term, out: &mut Vec<u8>) -> Result<(), CaseFault> {
    if canonical(term, out).is_err() {
        return Err(CaseFault::OutOfMemory);
    }
    Ok(out.push(b' ')?)
}

/// Appends a triple, with a line end behind it.
fn push_triple(triple: &Triple, out: &mut Vec<u8>) -> Result<(), CaseFault> {
    push_term(&triple.subject, out)?;
    push_term(&triple.predicate, out)?;
    push_term(&triple.object, out)?;
    Ok(out.push(b'\n')?)
}

/// Triples in canonical text, with a line end behind each.
fn triples_text(alloc: Global, triples: &[Triple]) -> Result<String, CaseFault> {
    let mut out = Vec::new(alloc);
    for triple in triples {
        push_triple(triple, &mut out)?;
    }
    text_of_bytes(out)
}

/// The triples of quads that are served, or the fault.
fn served_text(alloc: Global, quads: &[Quad], choice: &Choice) -> Result<String, CaseFault>
    requires { All IsRdfQuad quads.now }
{
    match served(alloc, quads, choice, host()) {
        Ok(triples) => triples_text(alloc, triples.as_slice()),
        Err(fault) => fault_text(alloc, &fault),
    }
}

/// `data`, `choice`: the triples that are served, or the fault.
pub fn triples(alloc: Global, case: &mut Case<'_>) -> Result<String, CaseFault> {
    let choice = choice_of(alloc, case)?;
    let quads = quads_of(alloc, case)?;
    served_text(alloc, quads.as_slice(), &choice)
}

/// A number of triples as text.
fn length_text(alloc: Global, length: usize) -> Result<String, CaseFault> {
    Ok(format!(in alloc; "{length} triples")?)
}

/// How many triples the table of quads has that may hold so many triples and terms, or the fault.
fn size_text(alloc: Global, quads: &[Quad], choice: &Choice, most: u32) -> Result<String, CaseFault>
    requires { All IsRdfQuad quads.now }
{
    match Table::build(alloc, quads, choice, host(), most) {
        Ok(table) => length_text(alloc, table.len()),
        Err(fault) => fault_text(alloc, &fault),
    }
}

/// `most`: how many triples and terms a table may hold.
fn most_of(case: &mut Case<'_>) -> Result<u32, CaseFault> {
    match u32::try_from(case.number("most")?) {
        Ok(most) => Ok(most),
        Err(_) => Err(CaseFault::Row),
    }
}

/// `data`, `choice`, `most`: how many triples a table has that may hold so many triples and terms, or the fault.
pub fn size(alloc: Global, case: &mut Case<'_>) -> Result<String, CaseFault> {
    let most = most_of(case)?;
    let choice = choice_of(alloc, case)?;
    let quads = quads_of(alloc, case)?;
    size_text(alloc, quads.as_slice(), &choice, most)
}

/// The table of all graphs of quads.
fn built(alloc: Global, quads: &[Quad]) -> Result<Table, CaseFault>
    requires { All IsRdfQuad quads.now }
{
    match Table::build(alloc, quads, &Choice::Union, host(), 100000) {
        Ok(table) => Ok(table),
        Err(_) => Err(CaseFault::Row),
    }
}

/// `data`: the table of all graphs of N-Quads text.
pub fn table_of(alloc: Global, case: &mut Case<'_>) -> Result<Table, CaseFault> {
    let quads = quads_of(alloc, case)?;
    built(alloc, quads.as_slice())
}

/// The term with an explicit form.
fn term_in(alloc: Global, text: &str) -> Result<Term, CaseFault> {
    match read_explicit(alloc, text) {
        Ok(Slot::Fixed(term)) => Ok(term),
        _ => Err(CaseFault::Row),
    }
}

/// `term`: the term with this explicit form.
fn term_of(alloc: Global, case: &mut Case<'_>) -> Result<Box<Term>, CaseFault> {
    let text = case.text(alloc, "term")?;
    let term = term_in(alloc, text.as_str())?;
    Ok(Box::new(alloc, term)?)
}

/// What is asked about a term of a table.
#[derive(Clone, Copy)]
enum Asked {
    /// Its id.
    Id,
    /// How many triples have it as their predicate.
    Predicate,
    /// How many triples have it as their object.
    Object,
}

/// The range of a pattern over fewer than 2048 triples compares at most 26 times.
fn few_comparisons<L: Ledger>(table: &Table, p: &IdPattern, steps: &mut Steps<L>) -> Range
    requires pattern { IsIdPattern table.now p.now }
    requires few { length (triples_in table.now) < 2 ^ 11 }
    ensures range { IsRange table.now result }
    ensures cost { steps.new ≤ steps.old + 26 }
{
    table.range(p, steps)
}

/// How many triples a pattern has, of a table of fewer than 2048.
fn matching<L: Ledger>(
    table: &Table,
    pattern: &IdPattern,
    steps: &mut Steps<L>,
) -> Result<u64, CaseFault>
    requires { IsIdPattern table.now pattern.now }
{
    if table.len() >= 2048 {
        return Err(CaseFault::Row);
    }
    let range = few_comparisons(table, pattern, steps);
    Ok(table.count(&range) as u64)
}

/// What is asked about a term, or nothing where the table does not have it. The term with its id is this one.
fn found<L: Ledger>(
    table: &Table,
    term: &Term,
    asked: Asked,
    steps: &mut Steps<L>,
) -> Result<Option<u64>, CaseFault> {
    let Some(id) = table.id(term, steps) else {
        return Ok(None);
    };
    if *table.term(id) != *term {
        return Err(CaseFault::Differs);
    }
    let (predicate, object) = match asked {
        Asked::Id => return Ok(Some(id as u64)),
        Asked::Predicate => (Some(id), None),
        Asked::Object => (None, Some(id)),
    };
    let pattern = IdPattern {
        subject: None,
        predicate,
        object,
    };
    Ok(Some(matching(table, &pattern, steps)?))
}

/// The same over a new counter.
fn found_from<L: Ledger>(
    table: &Table,
    term: &Term,
    asked: Asked,
    blank: Blank,
) -> Result<Option<u64>, CaseFault>
    requires name { blank.name ≡ L.name }
    requires parts { blank.parts ≡ L.parts }
    requires some { 0 < blank.parts }
{
    let mut steps: Steps<L> = Steps::new(blank);
    found(table, term, asked, &mut steps)
}

fn found_of(table: &Table, term: &Term, asked: Asked) -> Result<Option<u64>, CaseFault> {
    found_from::<Brand>(table, term, asked, Blank::new(1))
}

/// `data`: what is asked about a term in the table of all graphs.
fn found_in(
    alloc: Global,
    case: &mut Case<'_>,
    term: &Term,
    asked: Asked,
) -> Result<Option<u64>, CaseFault> {
    let table = table_of(alloc, case)?;
    found_of(&table, term, asked)
}

/// `data`, `term`: the same of the term.
fn number_of(alloc: Global, case: &mut Case<'_>, asked: Asked) -> Result<Option<u64>, CaseFault> {
    let term = term_of(alloc, case)?;
    found_in(alloc, case, &term, asked)
}

/// `data`, `term`: the id of the term in the table of all graphs, or `none`.
pub fn id(alloc: Global, case: &mut Case<'_>) -> Result<String, CaseFault> {
    number_or_none(alloc, number_of(alloc, case, Asked::Id)?)
}

/// `place`: `predicate` or `object`.
fn place_of(alloc: Global, case: &mut Case<'_>) -> Result<Asked, CaseFault> {
    let place = case.text(alloc, "place")?;
    match place.as_str() {
        "predicate" => Ok(Asked::Predicate),
        "object" => Ok(Asked::Object),
        _ => Err(CaseFault::Row),
    }
}

/// `data`, `place`, `term`: how many triples of the table of all graphs have the term as `predicate` or as `object`,
/// or `none` where it has no id.
pub fn count(alloc: Global, case: &mut Case<'_>) -> Result<String, CaseFault> {
    let asked = place_of(alloc, case)?;
    number_or_none(alloc, number_of(alloc, case, asked)?)
}

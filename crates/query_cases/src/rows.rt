// The rows of blocks.
ghost use Rattle.std.specs.Prelude.{◌≡◌, length, IfOk, OnOk};
ghost use Rattle.std.specs.List.{AllByRecursion};
ghost use Rattle.row_algebra.specs.Algebra.{HaveWidth};

use bgp_core::Row;
use case_rows::CaseFault;
use group_rows::Rows;
use rdf_terms::Term;
use std::alloc::Global;
use std::collections::VecDeque;

/// What stands before a word in the IRI of it.
const FRONT: &str = "http://e/";

/// Binds a name, which has a place and is not bound, to the IRI of a word.
fn bind(alloc: Global, row: &mut Row, name: u32, word: &str) -> Result<(), CaseFault>
    ensures { OnOk result (length row.new ≡ length row.old) }
{
    if name as usize >= row.len() || row.term(name).is_some() {
        return Err(CaseFault::Row);
    }
    let text = format!(in alloc; "{}{word}", FRONT)?;
    let Ok(term) = Term::iri(alloc, text.as_str()) else {
        return Err(CaseFault::Row);
    };
    match row.bind(alloc, name, term) {
        Ok(()) => Ok(()),
        Err(_) => Err(CaseFault::OutOfMemory),
    }
}

/// A row of so many names by its words, one for each name, with `-` for a name that it does not bind.
fn row_of(alloc: Global, names: usize, line: &str) -> Result<Row, CaseFault>
    ensures { IfOk result (λ row. names ≡ length row) }
{
    let mut row = Row::empty(alloc, names);
    let mut name = 0u32;
    for word in line.split(' ') {
        if word != "-" {
            bind(alloc, &mut row, name, word)?;
        }
        name = name.saturating_add(1);
    }
    Ok(row)
}

/// The rows of a block, each on a line.
fn block_of(alloc: Global, names: usize, text: &str) -> Result<Rows, CaseFault>
    ensures { IfOk result (HaveWidth names) }
{
    let mut rows = Vec::new(alloc);
    for line in text.lines() {
        rows.push(row_of(alloc, names, line)?)?;
    }
    Ok(Rows::new(rows))
}

/// The rows of the blocks of a query with so many names.
pub fn blocks_of(alloc: Global, names: usize, texts: &[String]) -> Result<VecDeque<Rows>, CaseFault>
    ensures { IfOk result (λ blocks. AllByRecursion (HaveWidth names) blocks.items) }
{
    let mut blocks = VecDeque::new(alloc);
    for text in texts {
        blocks.push_back(block_of(alloc, names, text.as_str())?)?;
    }
    Ok(blocks)
}

/// The word of a name in a row, or the form of its literal, or `-`.
pub fn word_of(row: &Row, name: u32) -> &str {
    match row.term(name) {
        Some(Term::Iri(iri)) => iri.as_str().strip_prefix(FRONT).unwrap_or("?"),
        Some(Term::Literal { form, .. }) => form.as_str(),
        _ => "-",
    }
}

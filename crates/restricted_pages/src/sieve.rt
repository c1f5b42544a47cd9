// Patterns so sorted that a triple is held against few of them.
ghost use Rattle.std.specs.Prelude.{◌≡◌, ◌<◌, IfOk};
ghost use Rattle.std.specs.List.{list_any};
ghost use Rattle.restricted_pages.specs.Patterns.{fits};
ghost use Rattle.restricted_pages.specs.Cells.{AreCells, IsCell, cell_of, may_match, may_stand};

use crate::patterns::matches_one;
use std::alloc::Global;
use std::marker::Model;
use tpf_base::OutOfMemory;
use triple_table::{IdPattern, IdTriple};

/// How many cells there are: one for each three remainders of the ids of a triple divided by 8.
const CELLS: u32 = 512;

/// The patterns that some triples may match.
#[derive(Drop)]
pub(crate) struct Cell {
    patterns: Vec<IdPattern>,
}

/// Some patterns, which contracts see as their list, and beside them, for each three remainders of the ids of a
/// triple, those whose ids have them too: of 64 patterns eight or fewer, where their ids are spread.
#[derive(Drop)]
pub(crate) struct Sieve {
    patterns: Vec<IdPattern>,
    cells: Vec<Cell>,
}

/// Whether an id with this remainder may stand at this place of a pattern.
fn may_stand(wanted: Option<u32>, remainder: u32) -> bool
    ensures { result ≡ may_stand wanted remainder }
{
    match wanted {
        None => true,
        Some(id) => id % 8 == remainder,
    }
}

/// Whether a triple of this cell may match a pattern.
fn may_match(pattern: &IdPattern, cell: u32) -> bool
    ensures { result ≡ may_match pattern.now cell }
{
    may_stand(pattern.subject, cell / 64)
        && may_stand(pattern.predicate, cell / 8 % 8)
        && may_stand(pattern.object, cell % 8)
}

/// The cell of a triple.
fn cell_of(triple: IdTriple) -> u32
    ensures is { result ≡ cell_of triple }
    ensures within { result < 512 }
{
    triple.subject % 8 * 64 + triple.predicate % 8 * 8 + triple.object % 8
}

/// The patterns that a triple of this cell may match.
fn cell_at(alloc: Global, patterns: &[IdPattern], cell: u32) -> Result<Cell, OutOfMemory>
    ensures { IfOk result (λ made. IsCell patterns.now cell made.patterns.items) }
{
    let mut some = Vec::new(alloc);
    for pattern in patterns {
        if may_match(pattern, cell) {
            some.push(*pattern)?;
        }
    }
    Ok(Cell { patterns: some })
}

/// All cells of some patterns.
fn cells_of(alloc: Global, patterns: &[IdPattern]) -> Result<Vec<Cell>, OutOfMemory>
    ensures { IfOk result (λ cells. AreCells patterns.now cells.items) }
{
    let mut cells = Vec::new(alloc);
    for cell in 0..CELLS {
        let made = cell_at(alloc, patterns, cell)?;
        cells.push(made)?;
    }
    Ok(cells)
}

impl Model for Sieve {
    ghost use Rattle.std.specs.Prelude.{List};
    ghost use Rattle.triple_table.specs.declared.ids.IdPattern.{IdPattern};
    ghost use Rattle.restricted_pages.specs.Cells.{AreCells};

    ghost Value = { List IdPattern };

    ghost view = { λ s. s.patterns.items };

    ghost invariant = { λ s. AreCells s.patterns.items s.cells.items };
}

impl Sieve {
    /// The sieve of some patterns.
    pub(crate) fn new(alloc: Global, patterns: Vec<IdPattern>) -> Result<Sieve, OutOfMemory>
        ensures { IfOk result (λ sieve. sieve ≡ patterns.items) }
    {
        let cells = cells_of(alloc, patterns.as_slice())?;
        Ok(Sieve { patterns, cells })
    }

    /// Its patterns.
    pub(crate) fn patterns(&self) -> &[IdPattern]
        ensures { result.now ≡ self.now }
    {
        self.patterns.as_slice()
    }

    /// Whether a triple matches one of the patterns.
    pub(crate) fn matches(&self, triple: IdTriple) -> bool
        ensures { result ≡ list_any (λ p. fits p triple) self.now }
    {
        let cell = &self.cells[cell_of(triple) as usize];
        matches_one(cell.patterns.as_slice(), triple)
    }
}

// The triples of a fragment that match patterns, one by one, for the case that they are many.
ghost use Rattle.std.specs.Prelude.{◌-◌, ◌<◌, ◌^◌, length, IfOk, OnOk, All};
ghost use Rattle.triple_table.specs.Stored.{IsRange, IsRanking, IsIdPattern, held_terms, listed, triples_in};
ghost use Rattle.restricted_pages.specs.Patterns.{IsMatchAt, IsWalked, TakesNext};

use crate::sieve::Sieve;
use std::alloc::Global;
use tpf_base::OutOfMemory;
use triple_table::{IdTriple, Range, Table};

/// A page that is being filled: how many matching triples still stand before it, how many more it takes, those that
/// it has, and how many matching triples there were so far.
#[derive(Drop)]
pub(crate) struct Part {
    before: u64,
    room: u64,
    pub(crate) triples: Vec<IdTriple>,
    pub(crate) count: u64,
}

impl Part {
    /// The next triple that matches: counted, and taken where it stands on the page.
    fn add(&mut self, triple: IdTriple) -> Result<(), OutOfMemory>
        requires { self.old.count < 2 ^ 64 - 1 }
        ensures { OnOk result (TakesNext triple self.old self.new) }
    {
        self.count += 1;
        if self.before > 0 {
            self.before -= 1;
            return Ok(());
        }
        if self.room == 0 {
            return Ok(());
        }
        self.triples.push(triple)?;
        self.room -= 1;
        Ok(())
    }
}

/// The triple at a place of a range, where it matches one of the patterns.
fn matching_at(table: &Table, range: &Range, i: usize, patterns: &Sieve) -> Option<IdTriple>
    requires range { IsRange table.now range.now }
    requires within { i < length (listed table.now range.now) }
    requires ranking { IsRanking (triples_in table.now) (held_terms table.now) }
    requires ids { All (IsIdPattern table.now) patterns.now }
    ensures { IsMatchAt table.now patterns.now (listed table.now range.now) i result }
{
    let triple = table.at(range, i);
    if patterns.matches(triple) {
        Some(triple)
    } else {
        None
    }
}

/// Of the triples of a range that match one of the patterns those behind the first `before`, at most `size`. Where
/// the walk goes to the range's end, all that match are counted; else it ends where it has those.
pub(crate) fn walked(
    alloc: Global,
    table: &Table,
    range: &Range,
    patterns: &Sieve,
    before: u64,
    size: u64,
    to_end: bool,
) -> Result<Part, OutOfMemory>
    requires range { IsRange table.now range.now }
    requires ranking { IsRanking (triples_in table.now) (held_terms table.now) }
    requires ids { All (IsIdPattern table.now) patterns.now }
    ensures { IfOk result (λ part. IsWalked table.now range.now patterns.now before size to_end part) }
{
    let mut part = Part {
        before,
        room: size,
        triples: Vec::new(alloc),
        count: 0,
    };
    for i in 0..table.count(range) {
        if part.room == 0 && !to_end {
            return Ok(part);
        }
        match matching_at(table, range, i, patterns) {
            Some(triple) => part.add(triple)?,
            None => {}
        }
    }
    Ok(part)
}

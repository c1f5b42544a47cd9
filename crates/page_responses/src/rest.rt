// What is left of the body of an answer that was begun.
ghost use Rattle.std.specs.Prelude.{◌≡◌, [], ◌<◌, length, drop, nat_lt, false, true, IfOk, OnOk};
ghost use Rattle.list_laws.specs.Begins.{Begins};
ghost use Rattle.page_responses.specs.Given.{IsGiven, IsMore};
ghost use Rattle.page_responses.specs.PageRests.{ArePart, GivesLines, HasFewer, IsFirst, IsShortMetadata, after_first, lines_left, page_left, page_text, triples_left};
ghost use Rattle.page_responses.specs.Rests.{IsWithin, is_left, rest_text};

use crate::limits::LONGEST_PART;
use crate::lines::{triple_length, write_triple};
use crate::parts::{Begun, write_line_part, write_triple_part};
use crate::snapshot::Snapshot;
use crate::status::Status;
use hydra_controls::MetadataLines;
use std::marker::Model;
use tpf_base::{OutOfMemory, Text};
use triple_table::{IdTriple, Range, Table};

/// Triples of a page, in their order: a range of the table, or those of a list from a place on.
#[derive(Drop)]
pub enum PageTriples {
    Part(Range),
    Listed { triples: Vec<IdTriple>, next: usize },
}

impl PageTriples {
    /// Whether there is one.
    fn is_left(&self) -> bool
        ensures { result ≡ triples_left self.now }
    {
        match self {
            PageTriples::Part(range) => range.from < range.to,
            PageTriples::Listed { triples, next } => *next < triples.len(),
        }
    }

    /// The ids of the first one.
    #[tactic(auto, using(crate::proofs::RestLaws::listed_first))]
    fn first(&self, table: &Table) -> IdTriple
        requires part { ArePart table.now self.now }
        requires some { triples_left self.now ≡ true }
        ensures { IsFirst table.now self.now result (after_first self.now) }
    {
        match self {
            PageTriples::Part(range) => table.at(range, 0),
            PageTriples::Listed { triples, next } => triples[*next],
        }
    }

    /// Passes the first one.
    fn skip(&mut self)
        requires { triples_left self.old ≡ true }
        ensures { self.new ≡ after_first self.old }
    {
        match self {
            PageTriples::Part(range) => {
                let _end = range.to;
                range.from += 1;
            }
            PageTriples::Listed { triples, next } => {
                let _end = triples.len();
                *next += 1;
            }
        }
    }

    /// Passes the first one, and tells its ids.
    fn pass(&mut self, table: &Table) -> IdTriple
        requires part { ArePart table.now self.old }
        requires some { triples_left self.old ≡ true }
        ensures { IsFirst table.now self.old result self.new }
    {
        let ids = self.first(table);
        self.skip();
        ids
    }

    /// Appends the line of the first one and passes it, where the line has at most so many bytes. Tells
    /// whether it has.
    fn write_short(
        &mut self,
        table: &Table,
        room: usize,
        out: &mut Vec<u8>,
    ) -> Result<bool, OutOfMemory>
        requires part { ArePart table.now self.old }
        requires some { triples_left self.old ≡ true }
        ensures ok { OnOk result (GivesLines room table.now self.old self.new out.old.items out.new.items) }
        ensures fewer { IfOk result (λ short. short ≡ true → HasFewer table.now self.old self.new) }
        ensures part { ArePart table.now self.new }
        ensures front { Begins out.old.items out.new.items }
    {
        let ids = self.first(table);
        if triple_length(table, ids) > room as u128 {
            return Ok(false);
        }
        write_triple(table, ids, out)?;
        self.skip();
        Ok(true)
    }

    /// Appends the first lines, as many as stand whole in so many bytes, and passes their triples.
    fn write_lines(
        &mut self,
        table: &Table,
        room: usize,
        out: &mut Vec<u8>,
    ) -> Result<(), OutOfMemory>
        requires part { ArePart table.now self.old }
        ensures ok { OnOk result (GivesLines room table.now self.old self.new out.old.items out.new.items) }
        ensures part { ArePart table.now self.new }
        ensures front { Begins out.old.items out.new.items }
    {
        let start = out.len();
        while self.is_left() {
            let left = room - (out.len() - start);
            if !self.write_short(table, left, out)? {
                return Ok(());
            }
        }
        Ok(())
    }
}

/// The lines of a page that are left: the rest of the line that was begun, triples, and then the metadata
/// from a place on. The text of a line is made when it is given.
pub struct PageRest {
    snapshot: Snapshot,
    begun: Begun,
    triples: PageTriples,
    metadata: MetadataLines,
    next: usize,
}

// Written out, so that who drops one calls this, and does not take it apart at each exit.
impl Drop for PageRest {
    fn drop(self) {
        let PageRest {
            snapshot: _snapshot,
            begun: _begun,
            triples: _triples,
            metadata: _metadata,
            next: _next,
        } = self;
    }
}

impl Model for PageRest {
    ghost use Rattle.std.specs.Prelude.{drop};
    ghost use Rattle.page_responses.specs.PageRests as rests;

    ghost Value = { rests.PageLines };

    ghost view = { λ p. record { begun = rests.begun_text p.snapshot.table p.metadata p.begun; table = p.snapshot.table; triples = p.triples; quads = drop p.next p.metadata } };

    ghost invariant = { λ p. rests.IsBegun p.snapshot.table p.metadata p.begun };
}

impl PageRest {
    #[tactic(auto, unfolding(crate::specs::PageRests::begun_text))]
    pub(crate) fn new(snapshot: Snapshot, triples: PageTriples, metadata: MetadataLines) -> PageRest
        ensures { result ≡ record { begun = []; table = snapshot.table; triples = triples; quads = metadata } }
    {
        PageRest {
            snapshot,
            begun: Begun::Nothing,
            triples,
            metadata,
            next: 0,
        }
    }

    /// Whether a byte is left of the line that was begun.
    fn is_begun(&self) -> bool
        ensures { result ≡ nat_lt 0 (length self.now.begun) }
    {
        match self.begun {
            Begun::Nothing => false,
            Begun::Triple(_, _) => true,
            Begun::Line(_, _) => true,
        }
    }

    /// Whether triples are left of whose lines no byte was given.
    fn has_triples(&self) -> bool
        ensures { result ≡ triples_left self.now.triples }
    {
        self.triples.is_left()
    }

    /// Whether lines of the metadata are left of which no byte was given.
    #[tactic(auto, using(crate::proofs::RestLaws::quads_are))]
    fn has_quads(&self) -> bool
        ensures { result ≡ nat_lt 0 (length self.now.quads) }
    {
        self.next < self.metadata.count()
    }

    /// Whether lines are left of which no byte was given.
    fn has_lines(&self) -> bool
        ensures { result ≡ lines_left self.now }
    {
        self.has_triples() || self.has_quads()
    }

    fn is_left(&self) -> bool
        ensures { result ≡ page_left self.now }
    {
        self.is_begun() || self.has_lines()
    }

    /// Begins the next line of a triple.
    fn begin_triple(&mut self)
        requires part { ArePart self.old.table self.old.triples }
        requires none { self.old.begun ≡ [] }
        requires some { triples_left self.old.triples ≡ true }
        ensures text { page_text self.new ≡ page_text self.old }
        ensures begun { nat_lt 0 (length self.new.begun) ≡ true }
        ensures part { ArePart self.new.table self.new.triples }
    {
        let ids = self.triples.pass(self.snapshot.table());
        self.begun = Begun::Triple(ids, 0);
    }

    /// Begins the next line of the metadata.
    fn begin_line(&mut self)
        requires none { self.old.begun ≡ [] }
        requires past { triples_left self.old.triples ≡ false }
        requires some { 0 < length self.old.quads }
        ensures text { page_text self.new ≡ page_text self.old }
        ensures begun { nat_lt 0 (length self.new.begun) ≡ true }
        ensures range { self.new.triples ≡ self.old.triples }
        ensures table { self.new.table ≡ self.old.table }
    {
        let _count = self.metadata.count();
        self.begun = Begun::Line(self.next, 0);
        self.next += 1;
    }

    /// Begins the next line.
    #[tactic(auto, using(crate::proofs::RestLaws::quads_left, crate::proofs::RestLaws::part_kept))]
    fn begin(&mut self)
        requires part { ArePart self.old.table self.old.triples }
        requires none { self.old.begun ≡ [] }
        requires some { lines_left self.old ≡ true }
        ensures text { page_text self.new ≡ page_text self.old }
        ensures begun { nat_lt 0 (length self.new.begun) ≡ true }
        ensures part { ArePart self.new.table self.new.triples }
    {
        if self.has_triples() {
            self.begin_triple();
        } else {
            self.begin_line();
        }
    }

    /// Begins the next line, unless a byte is left of the one before.
    #[tactic(auto, using(crate::proofs::RestLaws::no_bytes, crate::proofs::RestLaws::lines_of))]
    fn begin_next(&mut self)
        requires part { ArePart self.old.table self.old.triples }
        requires some { page_left self.old ≡ true }
        ensures text { page_text self.new ≡ page_text self.old }
        ensures begun { nat_lt 0 (length self.new.begun) ≡ true }
        ensures part { ArePart self.new.table self.new.triples }
    {
        if !self.is_begun() {
            self.begin();
        }
    }

    /// Appends the next part of the line that was begun.
    fn go_on(&mut self, out: &mut Vec<u8>) -> Result<(), OutOfMemory>
        requires { nat_lt 0 (length self.old.begun) ≡ true }
        ensures ok { OnOk result (IsGiven (page_text self.old) (page_text self.new) out.old.items out.new.items) }
        ensures range { self.new.triples ≡ self.old.triples }
        ensures table { self.new.table ≡ self.old.table }
        ensures front { Begins out.old.items out.new.items }
    {
        match self.begun {
            Begun::Nothing => Ok(()),
            Begun::Triple(ids, from) => {
                self.begun = write_triple_part(self.snapshot.table(), ids, from, out)?;
                Ok(())
            }
            Begun::Line(place, from) => {
                self.begun = write_line_part(&self.metadata, place, from, out)?;
                Ok(())
            }
        }
    }

    /// Appends the next line or a part of it.
    #[tactic(auto, using(crate::proofs::RestLaws::part_kept))]
    fn give_line(&mut self, out: &mut Vec<u8>) -> Result<(), OutOfMemory>
        requires part { ArePart self.old.table self.old.triples }
        requires some { page_left self.old ≡ true }
        ensures ok { OnOk result (IsGiven (page_text self.old) (page_text self.new) out.old.items out.new.items) }
        ensures part { ArePart self.new.table self.new.triples }
        ensures front { Begins out.old.items out.new.items }
    {
        self.begin_next();
        self.go_on(out)
    }

    /// Appends lines of triples, as many as stand whole in so many bytes, unless a byte is left of the line
    /// that was begun.
    fn give_more(&mut self, room: usize, out: &mut Vec<u8>) -> Result<(), OutOfMemory>
        requires { ArePart self.old.table self.old.triples }
        ensures ok { OnOk result (IsMore room (page_text self.old) (page_text self.new) out.old.items out.new.items) }
        ensures part { ArePart self.new.table self.new.triples }
        ensures front { Begins out.old.items out.new.items }
    {
        match self.begun {
            Begun::Nothing => {
                self.triples.write_lines(self.snapshot.table(), room, out)?;
                Ok(())
            }
            Begun::Triple(_, _) => Ok(()),
            Begun::Line(_, _) => Ok(()),
        }
    }

    /// Appends a part of lines: the next line or a part of it, and the lines of triples behind it that are
    /// no longer together than a part may be.
    #[tactic(auto, using(crate::proofs::RestLaws::given_more, list_laws::proofs::Begins::begins_on))]
    fn give_lines(&mut self, out: &mut Vec<u8>) -> Result<(), OutOfMemory>
        requires part { ArePart self.old.table self.old.triples }
        requires some { page_left self.old ≡ true }
        ensures ok { OnOk result (IsGiven (page_text self.old) (page_text self.new) out.old.items out.new.items) }
        ensures part { ArePart self.new.table self.new.triples }
        ensures front { Begins out.old.items out.new.items }
    {
        let before = out.len();
        self.give_line(out)?;
        self.give_more(LONGEST_PART - (out.len() - before), out)?;
        Ok(())
    }

    /// Whether nothing is left but the metadata, of which no byte was given, and they are one part.
    fn has_short_metadata(&self) -> bool
        ensures { result ≡ true → IsShortMetadata self.now }
    {
        if self.next > 0 {
            return false;
        }
        if self.is_begun() {
            return false;
        }
        if self.has_triples() {
            return false;
        }
        self.metadata.total_length() <= LONGEST_PART as u128
    }

    /// Appends the metadata.
    fn give_metadata(&mut self, out: &mut Vec<u8>) -> Result<(), OutOfMemory>
        requires part { ArePart self.old.table self.old.triples }
        requires some { page_left self.old ≡ true }
        requires short { IsShortMetadata self.old }
        ensures ok { OnOk result (IsGiven (page_text self.old) (page_text self.new) out.old.items out.new.items) }
        ensures part { ArePart self.new.table self.new.triples }
        ensures front { Begins out.old.items out.new.items }
    {
        self.metadata.write_from(self.next, out)?;
        self.next = self.metadata.count();
        Ok(())
    }

    /// Appends the next part.
    fn give(&mut self, out: &mut Vec<u8>) -> Result<(), OutOfMemory>
        requires part { ArePart self.old.table self.old.triples }
        requires some { page_left self.old ≡ true }
        ensures ok { OnOk result (IsGiven (page_text self.old) (page_text self.new) out.old.items out.new.items) }
        ensures part { ArePart self.new.table self.new.triples }
        ensures front { Begins out.old.items out.new.items }
    {
        if self.has_short_metadata() {
            self.give_metadata(out)
        } else {
            self.give_lines(out)
        }
    }
}

/// What is left of a body.
#[derive(Drop)]
pub enum Rest {
    Nothing,
    /// The body of an answer without a page.
    Line(Status),
    /// The body of the answer to a reload.
    Words(Text),
    Page(PageRest),
}

impl Rest {
    /// Whether a byte is left.
    pub fn is_left(&self) -> bool
        ensures { result ≡ is_left self.now }
    {
        match self {
            Rest::Nothing => false,
            Rest::Line(_) => true,
            Rest::Words(_) => true,
            Rest::Page(page) => page.is_left(),
        }
    }

    /// Appends the next part, of 1 to `LONGEST_PART` (16384) bytes. `OutOfMemory` comes only where memory runs out.
    #[tactic(auto, using(crate::proofs::RestLaws::given_page))]
    pub fn give(&mut self, out: &mut Vec<u8>) -> Result<(), OutOfMemory>
        requires range { IsWithin self.old }
        requires some { is_left self.old ≡ true }
        ensures ok { OnOk result (IsGiven (rest_text self.old) (rest_text self.new) out.old.items out.new.items) }
        ensures range { IsWithin self.new }
        ensures front { Begins out.old.items out.new.items }
    {
        match self {
            Rest::Nothing => Ok(()),
            Rest::Line(status) => {
                out.extend_from_slice(status.body().as_bytes())?;
                *self = Rest::Nothing;
                Ok(())
            }
            Rest::Words(text) => {
                out.extend_from_slice(text.as_str().as_bytes())?;
                *self = Rest::Nothing;
                Ok(())
            }
            Rest::Page(page) => page.give(out),
        }
    }

    /// Gives the memory of a body back of which nothing is left.
    #[tactic(auto, using(crate::proofs::RestLaws::rest_done))]
    pub fn settle(&mut self)
        ensures text { rest_text self.new ≡ rest_text self.old }
        ensures left { is_left self.new ≡ is_left self.old }
        ensures range { IsWithin self.old → IsWithin self.new }
    {
        if !self.is_left() {
            *self = Rest::Nothing;
        }
    }
}

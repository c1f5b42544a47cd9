// Where a term stands among those that were gathered: a guess, which spares a search.
ghost use Rattle.std.specs.Prelude.{IfSome};
ghost use Rattle.triple_table.specs.Ranking.{borrowed_terms, StandsAt};

use rdf_terms::Term;
use std::alloc::Global;
use std::hash::{FoldHasher, Hasher};
use tpf_base::OutOfMemory;

/// The slots for each triple, of which more make the loss of a place rarer.
const SLOTS: usize = 2;

/// How many slots in a row a term may take.
const PROBES: usize = 8;

/// The low half of a term's mark, and the place that was noted with it. The high half leads to the slot.
#[derive(Clone, Copy)]
struct Slot {
    mark: u32,
    place: u32,
}

/// A slot in which nothing is noted: the place of none.
const FREE: Slot = Slot {
    mark: 0,
    place: u32::MAX,
};

fn high_half(mark: u64) -> u32 {
    (mark >> 32) as u32
}

pub(crate) fn low_half(mark: u64) -> u32 {
    (mark % 4294967296) as u32
}

/// A number that is the same for the same bytes, and mostly differs for others.
pub(crate) fn mark_of(bytes: &[u8]) -> u64 {
    let mut hasher = FoldHasher::default();
    hasher.write(bytes);
    hasher.finish()
}

/// The mark of a term. Only the text counts, so the literals of one form have one mark.
pub(crate) fn mark(term: &Term) -> u64 {
    let text = match term {
        Term::Iri(iri) => iri.as_str(),
        Term::Blank(label) => label.as_str(),
        Term::Literal { form, kind: _ } => form.as_str(),
    };
    mark_of(text.as_bytes())
}

/// The places of terms by their marks. Each place is compared before it is told, so a place that was
/// lost to another term's costs time alone, and no choice of terms makes the work grow faster than
/// that of a sort.
#[derive(Drop)]
pub(crate) struct Recent {
    slots: Vec<Slot>,
}

impl Recent {
    /// Room for the terms of about so many triples.
    pub(crate) fn new(alloc: Global, triples: usize) -> Result<Recent, OutOfMemory> {
        let slots = triples.saturating_mul(SLOTS).saturating_add(PROBES);
        Ok(Recent {
            slots: vec![in alloc; FREE; slots]?,
        })
    }

    /// The first slot of a mark, found from its high half without a division.
    fn home(&self, mark: u64) -> usize {
        ((high_half(mark) as u64).wrapping_mul(self.slots.len() as u64) >> 32) as usize
    }

    fn slot(&self, at: usize) -> Slot {
        match self.slots.get(at) {
            Some(slot) => *slot,
            None => FREE,
        }
    }

    /// The place of a term with this mark among these terms, if it is noted.
    pub(crate) fn find(&self, terms: &[&Term], term: &Term, mark: u64) -> Option<usize>
        ensures { IfSome result (λ place. StandsAt (borrowed_terms terms.now) place term.now) }
    {
        let home = self.home(mark);
        let low = low_half(mark);
        for probe in 0..PROBES {
            let slot = self.slot(home.wrapping_add(probe));
            if slot.place == u32::MAX {
                return None;
            }
            let place = slot.place as usize;
            if slot.mark == low && place < terms.len() && *terms[place] == *term {
                return Some(place);
            }
        }
        None
    }

    /// Notes a place, in the first free slot of its mark, or else in the first slot of all. A place
    /// beyond all that a slot can hold is not noted.
    pub(crate) fn note(&mut self, mark: u64, place: usize) {
        let at = self.room(mark);
        if place < u32::MAX as usize && at < self.slots.len() {
            self.slots[at] = Slot {
                mark: low_half(mark),
                place: place as u32,
            };
        }
    }

    fn room(&self, mark: u64) -> usize {
        let home = self.home(mark);
        for probe in 0..PROBES {
            let at = home.wrapping_add(probe);
            if at < self.slots.len() && self.slots[at].place == u32::MAX {
                return at;
            }
        }
        home
    }
}

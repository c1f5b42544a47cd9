// The slots of a fragment: what is fixed of a triple, and what is free.
ghost use Rattle.std.specs.Prelude.{◌≡◌, ◌↔◌, IfOk, IsTrue};

use crate::{Term, Triple};
use std::alloc::Global;
use text_base::{OutOfMemory, all_three};

/// One place of a triple pattern: free (a variable), or fixed to a term.
#[derive(PartialEq, Eq, Drop)]
pub enum Slot {
    Any,
    Fixed(Term),
}

/// The three places of a triple pattern (Triple Pattern Fragments, "Fragments").
#[derive(PartialEq, Eq)]
pub struct Slots {
    pub subject: Slot,
    pub predicate: Slot,
    pub object: Slot,
}

// Written out, so that who drops one calls this, and does not take it apart at each exit.
impl Drop for Slots {
    fn drop(self) {
        let Slots {
            subject: _subject,
            predicate: _predicate,
            object: _object,
        } = self;
    }
}

impl Slot {
    ghost use Rattle.rdf_terms.specs.Slots.{MatchesSlot, matches_slot};

    /// The same slot again. Its one error is out of memory.
    pub fn copy(&self, alloc: Global) -> Result<Slot, OutOfMemory>
        ensures { IfOk result (λ t. t ≡ self.now) }
    {
        Ok(match self {
            Slot::Any => Slot::Any,
            Slot::Fixed(term) => Slot::Fixed(term.copy(alloc)?),
        })
    }

    /// Whether a term may stand here.
    pub fn matches(&self, term: &Term) -> bool
        ensures matches { IsTrue result ↔ MatchesSlot self.now term.now }
        ensures test { result ≡ matches_slot self.now term.now }
    {
        match self {
            Slot::Any => true,
            Slot::Fixed(fixed) => fixed.same(term),
        }
    }
}

impl Slots {
    ghost use Rattle.rdf_terms.specs.Slots.{Matches, matches};

    /// The same slots again. Its one error is out of memory.
    pub fn copy(&self, alloc: Global) -> Result<Slots, OutOfMemory>
        ensures { IfOk result (λ t. t ≡ self.now) }
    {
        let subject = self.subject.copy(alloc);
        let predicate = self.predicate.copy(alloc);
        let object = self.object.copy(alloc);
        let (subject, predicate, object) = all_three(subject, predicate, object)?;
        Ok(Slots {
            subject,
            predicate,
            object,
        })
    }

    /// Whether a triple has the fixed terms at their places.
    pub fn matches(&self, triple: &Triple) -> bool
        ensures matches { IsTrue result ↔ Matches self.now triple.now }
        ensures test { result ≡ matches self.now triple.now }
    {
        self.subject.matches(&triple.subject)
            && self.predicate.matches(&triple.predicate)
            && self.object.matches(&triple.object)
    }
}

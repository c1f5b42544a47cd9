// The triple patterns of a query.
ghost use Rattle.std.specs.Prelude.{ℕ, ◌≡◌, ◌++◌, ◌∷◌, List, None, map, IfOk, OnOk};
ghost use Rattle.pattern_parser.specs.declared.item.Item.{Item};
ghost use Rattle.pattern_parser.specs.Triples.{triples_after};

use crate::item::Item;
use bgp_core::{Part, Pattern};
use std::alloc::Global;
use text_base::OutOfMemory;

/// The subject and the verb that hold, and the patterns so far.
#[derive(Drop)]
struct Reading {
    subject: Option<Part>,
    verb: Option<Part>,
    patterns: Vec<Pattern>,
}

/// A pattern. Its subject and verb are copied, since others may share them.
fn pattern_of(
    alloc: Global,
    subject: &Part,
    verb: &Part,
    object: Part,
) -> Result<Pattern, OutOfMemory>
    ensures { IfOk result (λ p. p ≡ record { subject = subject.now; predicate = verb.now; object = object }) }
{
    // A drop that is written out is one call; at an exit each variant of a part has steps of its own.
    let subject = match subject.copy(alloc) {
        Ok(subject) => subject,
        Err(fault) => {
            drop(object);
            return Err(fault);
        }
    };
    match verb.copy(alloc) {
        Ok(predicate) => Ok(Pattern {
            subject,
            predicate,
            object,
        }),
        Err(fault) => {
            drop(subject);
            drop(object);
            Err(fault)
        }
    }
}

impl Reading {
    /// Takes a term or name.
    fn take_part(&mut self, alloc: Global, part: Part) -> Result<(), OutOfMemory>
        ensures { OnOk result ((at : ℕ) (rest : List Item)
            → self.new.patterns.items ++ map (λ p. p.pattern) (triples_after self.new.subject self.new.verb rest)
            ≡ self.old.patterns.items
            ++ map (λ p. p.pattern) (triples_after self.old.subject self.old.verb (Item.Part part at ∷ rest))) }
    {
        match &self.subject {
            None => {
                drop(self.subject.replace(part));
                drop(self.verb.take());
            }
            Some(subject) => match &self.verb {
                None => drop(self.verb.replace(part)),
                Some(verb) => {
                    let pattern = pattern_of(alloc, subject, verb, part)?;
                    self.patterns.push(pattern)?;
                }
            },
        }
        Ok(())
    }

    /// Takes one more item.
    fn take(&mut self, alloc: Global, item: Item) -> Result<(), OutOfMemory>
        ensures { OnOk result ((rest : List Item)
            → self.new.patterns.items ++ map (λ p. p.pattern) (triples_after self.new.subject self.new.verb rest)
            ≡ self.old.patterns.items
            ++ map (λ p. p.pattern) (triples_after self.old.subject self.old.verb (item ∷ rest))) }
    {
        match item {
            Item::Part(part, _) => return self.take_part(alloc, part),
            Item::Dot => {
                drop(self.subject.take());
                drop(self.verb.take());
            }
            Item::Semicolon => drop(self.verb.take()),
            Item::Comma => {}
        }
        Ok(())
    }
}

/// The triple patterns of some items. `OutOfMemory` comes only where memory runs out.
pub fn patterns(alloc: Global, items: Vec<Item>) -> Result<Vec<Pattern>, OutOfMemory>
    ensures { IfOk result (λ v. v.items ≡ map (λ p. p.pattern) (triples_after None None items.items)) }
{
    let mut reading = Reading {
        subject: None,
        verb: None,
        patterns: Vec::new(alloc),
    };
    for item in items {
        if let Err(fault) = reading.take(alloc, item) {
            drop(reading);
            return Err(fault);
        }
    }
    let Reading {
        subject,
        verb,
        patterns,
    } = reading;
    drop(subject);
    drop(verb);
    Ok(patterns)
}

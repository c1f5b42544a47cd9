// The names of a query, numbered by their first place.
ghost use Rattle.std.specs.Prelude.{◌≡◌, ◌<◌, ◌+◌, ◌^◌, ◌-◌, ◌++◌, ◌∷◌, [], length, OnOk, IfOk, None};
ghost use Rattle.std.specs.Str.{bytes_eq};
ghost use Rattle.pattern_parser.specs.Names.{anonymous, place_of, number, with_text};

use std::alloc::Global;
use std::collections::BTreeMap;
use text_base::{OutOfMemory, Text};

/// The names of a query in the order of their numbers, and a map that has the number of each text
/// but that of an anonymous node.
#[derive(Drop)]
pub struct Names {
    pub texts: Vec<Text>,
    pub places: BTreeMap<String, u32>,
}

#[tactic(auto, unfolding(crate::specs::Names::anonymous))]
fn is_anonymous(text: &str) -> bool
    ensures { result ≡ bytes_eq text.now anonymous }
{
    text == "_:[]"
}

impl Names {
    ghost use Rattle.pattern_parser.specs.Numbers.{AreNumbered};

    /// No names.
    pub fn new(alloc: Global) -> Names
        ensures texts { result.texts.items ≡ [] }
        ensures numbered { AreNumbered result }
    {
        Names {
            texts: Vec::new(alloc),
            places: BTreeMap::new(alloc),
        }
    }

    /// The number of a text among the names, if it is one that is not anonymous.
    fn place_of(&self, text: &str) -> Option<u32>
        requires { AreNumbered self.now }
        ensures { result ≡ place_of self.now.texts.items text.now }
    {
        if is_anonymous(text) {
            None
        } else {
            self.places.get(text).copied()
        }
    }

    /// One more name.
    fn push(&mut self, alloc: Global, text: &str) -> Result<u32, OutOfMemory>
        requires numbered { AreNumbered self.old }
        requires few { length self.old.texts.items < 2 ^ 32 - 1 }
        requires new { place_of self.old.texts.items text.now ≡ None }
        ensures number { IfOk result (λ n. n ≡ length self.old.texts.items) }
        ensures names { OnOk result (self.new.texts.items ≡ self.old.texts.items ++ text.now ∷ []) }
        ensures numbered { OnOk result (AreNumbered self.new) }
    {
        let number = self.texts.len() as u32;
        let copy = Text::copy(alloc, text)?;
        self.texts.push(copy)?;
        if !is_anonymous(text) {
            let _ = self.places.insert(String::from_str(alloc, text)?, number)?;
        }
        Ok(number)
    }

    /// The number that a name has or takes. `OutOfMemory` comes only where memory runs out.
    pub fn number(&mut self, alloc: Global, text: &str) -> Result<u32, OutOfMemory>
        requires numbered { AreNumbered self.old }
        requires few { length self.old.texts.items < 2 ^ 32 - 1 }
        ensures number { IfOk result (λ n. n ≡ number self.old.texts.items text.now) }
        ensures names { OnOk result (self.new.texts.items ≡ with_text self.old.texts.items text.now) }
        ensures numbered { OnOk result (AreNumbered self.new) }
    {
        match self.place_of(text) {
            Some(number) => Ok(number),
            None => self.push(alloc, text),
        }
    }
}

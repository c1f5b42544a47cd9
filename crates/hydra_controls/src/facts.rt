// What the metadata of a page speak of.
ghost use Rattle.std.specs.Prelude.{◌≡◌, ◌≤◌, ◌∷◌, ◌++◌, codes, length, if◌then◌else◌};
ghost use Rattle.hydra_controls.specs.LineTexts.{text_of};
ghost use Rattle.hydra_controls.specs.Facts.{mark_of, page_text, quads_of};

use crate::text_parts::TextParts;

/// What the metadata of a page speak of: the texts of the base and of the address of page 1, whether
/// that has a place that is fixed, the numbers of the page and of the last one, how many triples the
/// fragment has, and the version of the data.
#[derive(Clone, Copy)]
pub struct PageFacts<'a> {
    pub base: &'a str,
    pub first: &'a str,
    pub fixed: bool,
    pub number: u64,
    pub last: u64,
    pub count: u64,
    pub version: u64,
}

/// What stands in front of the number of a page above 1.
fn page_mark(fixed: bool) -> &'static str
    ensures { result.now ≡ mark_of fixed ∷ codes "page=" }
{
    if fixed { "&page=" } else { "?page=" }
}

/// How many links a test leaves.
fn one_if(there: bool) -> usize
    ensures { result ≡ (if there then 1 else 0) }
{
    if there { 1 } else { 0 }
}

impl<'a> PageFacts<'a> {
    /// The address of a page, and a text behind it.
    pub fn page_then(self, number: u64, end: &'a str) -> TextParts<'a>
        ensures { text_of result ≡ page_text self.entry.first.now self.entry.fixed number ++ end.now }
    {
        if number == 1 {
            return TextParts::new(self.first, end);
        }
        TextParts {
            front: self.first,
            middle: page_mark(self.fixed),
            number: Some(number),
            end,
        }
    }

    /// How many statements there are.
    #[tactic(auto, using(crate::proofs::TableLaws::quads_size))]
    pub fn quad_count(self) -> usize
        ensures count { result ≡ length (quads_of self.entry) }
        ensures few { result ≤ 21 }
    {
        19 + one_if(self.number < self.last) + one_if(1 < self.number)
    }
}

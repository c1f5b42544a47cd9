// The lines of a page's metadata as a whole.
ghost use Rattle.std.specs.Prelude.{◌≡◌, ◌++◌, drop, OnOk};
ghost use Rattle.list_laws.specs.Begins.{Begins};
ghost use Rattle.hydra_controls.specs.Facts.{AreFacts, quads_of};
ghost use Rattle.hydra_controls.specs.Lines.{IsLength, lines_text};

use crate::facts::PageFacts;
use tpf_base::OutOfMemory;

impl<'a> PageFacts<'a> {
    /// How many bytes all lines have, found without making them.
    pub(crate) fn total_length(self) -> u128
        requires { AreFacts self }
        ensures { IsLength result (quads_of self.entry) }
    {
        let mut sum = 0;
        for i in 0..self.quad_count() {
            sum += self.line(i).length();
        }
        sum
    }

    /// Appends the lines from a place on.
    #[tactic(auto, using(list_laws::proofs::Begins::itself_begins, list_laws::proofs::Begins::begins_on))]
    pub(crate) fn append_from(self, place: usize, out: &mut Vec<u8>) -> Result<(), OutOfMemory>
        requires { AreFacts self }
        ensures ok { OnOk result (out.new.items ≡ out.old.items ++ lines_text (drop place (quads_of self.entry))) }
        ensures front { Begins out.old.items out.new.items }
    {
        for i in place..self.quad_count() {
            self.line(i).append(out)?;
        }
        Ok(())
    }
}

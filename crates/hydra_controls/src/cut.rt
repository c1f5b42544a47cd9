// A part of a text that is written in parts.
ghost use Rattle.std.specs.Prelude.{◌≡◌, ◌≤◌, ◌+◌, ◌-◌, false, min, OnOk};
ghost use Rattle.list_laws.specs.Begins.{Begins};
ghost use Rattle.hydra_controls.specs.Cuts.{Cuts, cut_behind};

use tpf_base::OutOfMemory;

/// Which bytes of a text are written that is given in parts, one after another: so many behind the first
/// ones. So a long text is written in pieces, of which none is longer than the caller says.
#[derive(Clone, Copy)]
pub struct Cut {
    /// How many bytes are still passed over.
    pub skip: u128,
    /// How many bytes are still written.
    pub room: usize,
    /// Whether there was no room for some bytes.
    pub more: bool,
}

impl Cut {
    /// At most `room` bytes behind the first `skip`.
    pub fn new(skip: u128, room: usize) -> Cut
        ensures { result ≡ record { skip = skip; room = room; more = false } }
    {
        Cut {
            skip,
            room,
            more: false,
        }
    }

    /// From which place of a part of so many bytes it is written, and up to which.
    #[tactic(auto, using(crate::proofs::CutLaws::behind_all, crate::proofs::CutLaws::behind_some, crate::proofs::CutLaws::behind_rest))]
    pub fn pass(&mut self, count: usize) -> (usize, usize)
        ensures behind { self.new ≡ cut_behind self.old count }
        ensures order { result.0 ≤ result.1 }
        ensures within { result.1 ≤ count }
        ensures from { result.0 ≡ min self.old.skip count }
        ensures long { result.1 - result.0 ≡ min self.old.room (count - self.old.skip) }
    {
        if self.skip >= count as u128 {
            self.skip -= count as u128;
            return (count, count);
        }
        let from = self.skip as usize;
        let left = count - from;
        self.skip = 0;
        if left > self.room {
            let to = from + self.room;
            self.room = 0;
            self.more = true;
            (from, to)
        } else {
            self.room -= left;
            (from, count)
        }
    }

    /// Appends what is written of the next part.
    #[tactic(auto, using(list_laws::proofs::Begins::same_begins, list_laws::proofs::Begins::more_begins))]
    pub fn push(&mut self, text: &[u8], out: &mut Vec<u8>) -> Result<(), OutOfMemory>
        ensures ok { OnOk result (Cuts self.old self.new text.now out.old.items out.new.items) }
        ensures front { Begins out.old.items out.new.items }
    {
        let (from, to) = self.pass(text.len());
        out.extend_from_slice(&text[from..to])?;
        Ok(())
    }
}

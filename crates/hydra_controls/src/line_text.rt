// Lines of quads as the texts that they are written with.
ghost use Rattle.std.specs.Prelude.{◌≡◌, ◌<◌, ◌^◌, ◌++◌, length, OnOk};
ghost use Rattle.list_laws.specs.Begins.{Begins};
ghost use Rattle.hydra_controls.specs.Cuts.{Cuts};
ghost use Rattle.hydra_controls.specs.LineTexts.{text_of_line};

use crate::cut::Cut;
use crate::text_parts::{TextParts, append};
use tpf_base::OutOfMemory;

/// A canonical line as few texts: what stands in front of its subject's text, that text and what stands
/// behind it, the same of its object, and the same of its graph, with the end of the line.
#[derive(Clone, Copy)]
pub(crate) struct LineText<'a> {
    pub opening: &'a str,
    pub subject: TextParts<'a>,
    pub object: TextParts<'a>,
    pub graph: TextParts<'a>,
}

impl<'a> LineText<'a> {
    /// How many bytes it has.
    #[tactic(auto, using(crate::proofs::TermLaws::line_length))]
    pub(crate) fn length(self) -> u128
        ensures length { result ≡ length (text_of_line self.entry) }
        ensures small { result < 2 ^ 70 }
    {
        self.opening.len() as u128
            + self.subject.length()
            + self.object.length()
            + self.graph.length()
    }

    /// Appends it.
    pub(crate) fn append(self, out: &mut Vec<u8>) -> Result<(), OutOfMemory>
        ensures ok { OnOk result (out.new.items ≡ out.old.items ++ text_of_line self.entry) }
        ensures front { Begins out.old.items out.new.items }
    {
        append(self.opening, out)?;
        self.subject.append(out)?;
        self.object.append(out)?;
        self.graph.append(out)
    }

    /// Appends what is written of it.
    pub(crate) fn write(self, cut: &mut Cut, out: &mut Vec<u8>) -> Result<(), OutOfMemory>
        ensures ok { OnOk result (Cuts cut.old cut.new (text_of_line self.entry) out.old.items out.new.items) }
        ensures front { Begins out.old.items out.new.items }
    {
        cut.push(self.opening.as_bytes(), out)?;
        self.subject.write(cut, out)?;
        self.object.write(cut, out)?;
        self.graph.write(cut, out)?;
        Ok(())
    }
}

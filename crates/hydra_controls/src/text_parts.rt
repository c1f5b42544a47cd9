// Texts in parts, of which one may be the digits of a number.
ghost use Rattle.std.specs.Prelude.{◌≡◌, ◌≤◌, ◌<◌, ◌^◌, ◌++◌, length, OnOk};
ghost use Rattle.list_laws.specs.Begins.{Begins};
ghost use Rattle.tpf_base.specs.Decimals.{decimal_text};
ghost use Rattle.hydra_controls.specs.Cuts.{Cuts};
ghost use Rattle.hydra_controls.specs.LineTexts.{digits_of, text_of};

use crate::cut::Cut;
use itoa::Buffer;
use tpf_base::OutOfMemory;

/// A text in four parts: two texts, the digits of a number if there is one, and a text.
#[derive(Clone, Copy)]
pub struct TextParts<'a> {
    pub front: &'a str,
    pub middle: &'a str,
    pub number: Option<u64>,
    pub end: &'a str,
}

// ---- appending

/// Appends a text; an empty one costs nothing.
pub(crate) fn append(text: &str, out: &mut Vec<u8>) -> Result<(), OutOfMemory>
    ensures ok { OnOk result (out.new.items ≡ out.old.items ++ text.now) }
    ensures front { Begins out.old.items out.new.items }
{
    if text.is_empty() {
        return Ok(());
    }
    out.extend_from_slice(text.as_bytes())?;
    Ok(())
}

/// Appends the digits of a number.
fn append_number(number: u64, out: &mut Vec<u8>) -> Result<(), OutOfMemory>
    ensures ok { OnOk result (out.new.items ≡ out.old.items ++ decimal_text number) }
    ensures front { Begins out.old.items out.new.items }
{
    let mut digits = Buffer::new();
    append(digits.format(number), out)
}

/// Appends the digits of a number, if there is one.
#[tactic(auto, using(list_laws::proofs::Begins::itself_begins, crate::proofs::WholeLaws::nothing_appended))]
fn append_digits(number: Option<u64>, out: &mut Vec<u8>) -> Result<(), OutOfMemory>
    ensures ok { OnOk result (out.new.items ≡ out.old.items ++ digits_of number) }
    ensures front { Begins out.old.items out.new.items }
{
    match number {
        None => Ok(()),
        Some(number) => append_number(number, out),
    }
}

// ---- appending a part

/// Appends what is written of the digits of a number.
fn push_number(number: u64, cut: &mut Cut, out: &mut Vec<u8>) -> Result<(), OutOfMemory>
    ensures ok { OnOk result (Cuts cut.old cut.new (decimal_text number) out.old.items out.new.items) }
    ensures front { Begins out.old.items out.new.items }
{
    let mut digits = Buffer::new();
    cut.push(digits.format(number).as_bytes(), out)?;
    Ok(())
}

/// Appends what is written of the digits of a number, if there is one.
#[tactic(auto, using(list_laws::proofs::Begins::itself_begins, crate::proofs::CutLaws::cuts_nothing))]
fn push_digits(number: Option<u64>, cut: &mut Cut, out: &mut Vec<u8>) -> Result<(), OutOfMemory>
    ensures ok { OnOk result (Cuts cut.old cut.new (digits_of number) out.old.items out.new.items) }
    ensures front { Begins out.old.items out.new.items }
{
    match number {
        None => Ok(()),
        Some(number) => push_number(number, cut, out),
    }
}

// ---- lengths

/// How many digits a number has.
fn number_length(number: u64) -> usize
    ensures length { result ≡ length (decimal_text number) }
    ensures small { result ≤ 40 }
{
    let mut digits = Buffer::new();
    digits.format(number).len()
}

/// How many digits a number has, or 0 where there is none.
fn digits_length(number: Option<u64>) -> usize
    ensures length { result ≡ length (digits_of number) }
    ensures small { result ≤ 40 }
{
    match number {
        None => 0,
        Some(number) => number_length(number),
    }
}

impl<'a> TextParts<'a> {
    /// Two texts.
    pub fn new(front: &'a str, end: &'a str) -> TextParts<'a>
        ensures { text_of result ≡ front.now ++ end.now }
    {
        TextParts {
            front,
            middle: "",
            number: None,
            end,
        }
    }

    /// The digits of a number, and a text.
    pub fn numbered(number: u64, end: &'a str) -> TextParts<'a>
        ensures { text_of result ≡ decimal_text number ++ end.now }
    {
        TextParts {
            front: "",
            middle: "",
            number: Some(number),
            end,
        }
    }

    /// How many bytes the text has.
    #[tactic(auto, using(crate::proofs::TermLaws::text_length))]
    pub(crate) fn length(self) -> u128
        ensures length { result ≡ length (text_of self.entry) }
        ensures small { result < 2 ^ 66 }
    {
        self.front.len() as u128
            + self.middle.len() as u128
            + digits_length(self.number) as u128
            + self.end.len() as u128
    }

    /// Appends the text.
    pub(crate) fn append(self, out: &mut Vec<u8>) -> Result<(), OutOfMemory>
        ensures ok { OnOk result (out.new.items ≡ out.old.items ++ text_of self.entry) }
        ensures front { Begins out.old.items out.new.items }
    {
        append(self.front, out)?;
        append(self.middle, out)?;
        append_digits(self.number, out)?;
        append(self.end, out)
    }

    /// Appends what is written of the text.
    pub(crate) fn write(self, cut: &mut Cut, out: &mut Vec<u8>) -> Result<(), OutOfMemory>
        ensures ok { OnOk result (Cuts cut.old cut.new (text_of self.entry) out.old.items out.new.items) }
        ensures front { Begins out.old.items out.new.items }
    {
        cut.push(self.front.as_bytes(), out)?;
        cut.push(self.middle.as_bytes(), out)?;
        push_digits(self.number, cut, out)?;
        cut.push(self.end.as_bytes(), out)?;
        Ok(())
    }
}

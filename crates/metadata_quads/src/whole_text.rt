// Texts in parts, made whole.
ghost use Rattle.std.specs.Prelude.{◌≡◌, ◌++◌, IfOk, OnOk};
ghost use Rattle.std.specs.String.{string_bytes};
ghost use Rattle.tpf_base.specs.Decimals.{decimal_text};
ghost use Rattle.hydra_controls.specs.LineTexts.{digits_of, text_of};

use hydra_controls::TextParts;
use itoa::Buffer;
use std::alloc::Global;
use tpf_base::{OutOfMemory, Text};

/// Adds the digits of a number, if there is one.
fn add_digits(text: &mut String, number: Option<u64>) -> Result<(), OutOfMemory>
    ensures { OnOk result (string_bytes text.new ≡ string_bytes text.old ++ digits_of number) }
{
    match number {
        None => Ok(()),
        Some(number) => add_number(text, number),
    }
}

/// Adds the digits of a number.
fn add_number(text: &mut String, number: u64) -> Result<(), OutOfMemory>
    ensures { OnOk result (string_bytes text.new ≡ string_bytes text.old ++ decimal_text number) }
{
    let mut digits = Buffer::new();
    text.push_str(digits.format(number))?;
    Ok(())
}

/// Adds the parts to a text.
#[tactic(auto, using(hydra_controls::proofs::WholeLaws::text_whole))]
fn add_to(parts: TextParts<'_>, text: &mut String) -> Result<(), OutOfMemory>
    ensures { OnOk result (string_bytes text.new ≡ string_bytes text.old ++ text_of parts.entry) }
{
    text.push_str(parts.front)?;
    text.push_str(parts.middle)?;
    add_digits(text, parts.number)?;
    text.push_str(parts.end)?;
    Ok(())
}

/// The whole text.
pub(crate) fn text(alloc: Global, parts: TextParts<'_>) -> Result<Text, OutOfMemory>
    ensures { IfOk result (λ text. text ≡ text_of parts.entry) }
{
    let mut text = String::with_capacity(alloc, parts.front.len() + parts.end.len())?;
    add_to(parts, &mut text)?;
    Ok(Text::from_string(text))
}

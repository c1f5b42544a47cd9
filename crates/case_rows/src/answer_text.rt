// Answers as texts.
ghost use Rattle.std.specs.Prelude.{◌≡◌, IfOk, if◌then◌else◌, codes, decimal};
ghost use Rattle.std.specs.String.{string_bytes};

use crate::CaseFault;
use std::alloc::Global;
use std::fmt::Debug;
use std::str;

/// A word as an answer.
pub fn word_text(alloc: Global, word: &str) -> Result<String, CaseFault>
    ensures { IfOk result (λ text. string_bytes text ≡ word.now) }
{
    Ok(String::from_str(alloc, word)?)
}

/// `true` or `false`.
pub fn truth_text(alloc: Global, is_so: bool) -> Result<String, CaseFault>
    ensures { IfOk result (λ text. string_bytes text ≡ (if is_so then codes "true" else codes "false")) }
{
    word_text(alloc, if is_so { "true" } else { "false" })
}

/// A number as an answer.
pub fn number_text(alloc: Global, number: u64) -> Result<String, CaseFault>
    ensures { IfOk result (λ text. string_bytes text ≡ decimal number) }
{
    Ok(format!(in alloc; "{number}")?)
}

/// A number, or `none`.
pub fn number_or_none(alloc: Global, number: Option<u64>) -> Result<String, CaseFault> {
    match number {
        Some(number) => number_text(alloc, number),
        None => word_text(alloc, "none"),
    }
}

/// Numbers with a blank between each two.
pub fn numbers_text(alloc: Global, numbers: &[u64]) -> Result<String, CaseFault> {
    let mut out = String::new(alloc);
    for (i, number) in numbers.iter().enumerate() {
        if i > 0 {
            out.push(' ')?;
        }
        push_number(alloc, *number, &mut out)?;
    }
    Ok(out)
}

/// Appends a number.
pub fn push_number(alloc: Global, number: u64, out: &mut String) -> Result<(), CaseFault> {
    let digits = number_text(alloc, number)?;
    Ok(out.push_str(digits.as_str())?)
}

/// What a value is called in the code.
pub fn debug_text<T: Debug>(alloc: Global, value: &T) -> Result<String, CaseFault> {
    Ok(format!(in alloc; "{value:?}")?)
}

/// The text that bytes are. Other bytes make the row wrong.
pub fn text_of_bytes(bytes: Vec<u8>) -> Result<String, CaseFault> {
    match String::from_utf8(bytes) {
        Ok(text) => Ok(text),
        Err(_) => Err(CaseFault::Row),
    }
}

/// Bytes as an answer: `no text` for those that are none.
pub fn bytes_text(alloc: Global, bytes: &[u8]) -> Result<String, CaseFault> {
    word_text(alloc, str::from_utf8(bytes).unwrap_or("no text"))
}

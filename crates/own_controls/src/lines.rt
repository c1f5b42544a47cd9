// Lines of a page's metadata, compared.
ghost use Rattle.std.specs.Prelude.{ℕ, ◌≡◌, ◌++◌, List, IfSome};
ghost use Rattle.own_controls.specs.Lines.{line_text, lines_text};

use crate::piece::{behind, behind_bytes, behind_two};

/// A line by the pieces that it is written of, one after another; behind them stands what all lines end with.
#[derive(Clone, Copy)]
pub(crate) struct LineText<'a> {
    pub(crate) opening: &'a str,
    pub(crate) one: &'a str,
    pub(crate) middle: &'a str,
    pub(crate) other: &'a str,
    pub(crate) closing: &'a str,
}

/// A line of one piece.
pub(crate) fn fixed(text: &str) -> LineText<'_>
    ensures { (ending : List ℕ) → line_text ending result ≡ text.entry.now ++ ending }
{
    LineText {
        opening: text,
        one: "",
        middle: "",
        other: "",
        closing: "",
    }
}

/// A line of three pieces.
pub(crate) fn with_one<'a>(opening: &'a str, one: &'a str, closing: &'a str) -> LineText<'a>
    ensures { (ending : List ℕ) → line_text ending result
        ≡ opening.entry.now ++ (one.entry.now ++ (closing.entry.now ++ ending)) }
{
    LineText {
        opening,
        one,
        middle: closing,
        other: "",
        closing: "",
    }
}

/// A line of five pieces.
pub(crate) fn with_two<'a>(
    opening: &'a str,
    one: &'a str,
    middle: &'a str,
    other: &'a str,
    closing: &'a str,
) -> LineText<'a>
    ensures { (ending : List ℕ) → line_text ending result ≡ opening.entry.now
        ++ (one.entry.now ++ (middle.entry.now ++ (other.entry.now ++ (closing.entry.now ++ ending)))) }
{
    LineText {
        opening,
        one,
        middle,
        other,
        closing,
    }
}

/// What stands behind the line.
fn behind_line<'a>(bytes: &'a [u8], ending: &[u8], line: &LineText) -> Option<&'a [u8]>
    ensures { IfSome result (λ rest. bytes.now ≡ line_text ending.now line.now ++ rest.now) }
{
    let from_middle = behind_two(bytes, line.opening, line.one)?;
    let from_closing = behind_two(from_middle, line.middle, line.other)?;
    let from_ending = behind(from_closing, line.closing)?;
    behind_bytes(from_ending, ending)
}

/// What stands behind the lines.
pub(crate) fn behind_lines<'a>(
    bytes: &'a [u8],
    ending: &[u8],
    lines: &[LineText],
) -> Option<&'a [u8]>
    ensures { IfSome result (λ rest. bytes.now ≡ lines_text ending.now lines.now ++ rest.now) }
{
    let mut rest = bytes;
    for line in lines {
        rest = behind_line(rest, ending, line)?;
    }
    Some(rest)
}

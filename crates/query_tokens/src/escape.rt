// Escapes in IRIs and strings.
ghost use Rattle.std.specs.Prelude.{◌≡◌, ◌≤◌, ◌<◌, take};
ghost use Rattle.std.specs.Char.{is_ascii_hexdigit};
ghost use Rattle.std.specs.List.{list_all};
ghost use Rattle.query_tokens.specs.Escapes.{hex_digit, hex_after, is_scalar, is_iri_char, may_stand, is_numeric, character_of, is_escape, good_escapes, has_good_escapes};

use crate::kind::PieceKind;

fn is_scalar(n: u32) -> bool
    ensures { result ≡ is_scalar n }
{
    char::from_u32(n).is_some()
}

fn is_iri_char(n: u32) -> bool
    ensures { result ≡ is_iri_char n }
{
    is_scalar(n)
        && !(n <= 32
            || n == 60
            || n == 62
            || n == 34
            || n == 123
            || n == 125
            || n == 124
            || n == 94
            || n == 96
            || n == 92)
}

fn may_stand(in_iri: bool, n: u32) -> bool
    ensures { result ≡ may_stand in_iri n }
{
    if in_iri { is_iri_char(n) } else { is_scalar(n) }
}

/// The value of a hexadecimal digit, and 0 for any other character.
fn hex_digit(c: char) -> u32
    ensures value { result ≡ hex_digit c }
    ensures small { result < 16 }
{
    c.to_digit(16).unwrap_or(0)
}

/// The number that hexadecimal digits spell. Any other character counts as 0, and a number past
/// U+10FFFF as 0x110000.
pub fn hex_value(digits: &[char]) -> u32
    ensures value { result ≡ hex_after 0 digits.now }
    ensures small { result ≤ 0x110000 }
{
    let mut n: u32 = 0;
    for c in digits {
        n = (n * 16 + hex_digit(*c)).min(0x110000);
    }
    n
}

/// The first `n` characters, or all where there are fewer.
pub fn first_chars(chars: &[char], n: usize) -> &[char]
    ensures { result.now ≡ take n chars.now }
{
    if n < chars.len() { &chars[..n] } else { chars }
}

fn are_hex_digits(chars: &[char]) -> bool
    ensures { result ≡ list_all is_ascii_hexdigit chars.now }
{
    chars.iter().all(|c| c.is_ascii_hexdigit())
}

fn is_numeric(in_iri: bool, count: usize, chars: &[char]) -> bool
    ensures { result ≡ is_numeric in_iri count chars.now }
{
    let digits = first_chars(chars, count);
    digits.len() == count && are_hex_digits(digits) && may_stand(in_iri, hex_value(digits))
}

/// The character that a backslash and this character stand for in a string (ECHAR; SPARQL 1.1,
/// section 19.8), by its number, or 0 where the two are no such escape.
pub fn character_of(c: char) -> u32
    ensures { result ≡ character_of c }
{
    match c {
        't' => 9,
        'b' => 8,
        'n' => 10,
        'r' => 13,
        'f' => 12,
        '"' | '\'' | '\\' => u32::from(c),
        _ => 0,
    }
}

#[tactic(auto, unfolding(crate::specs::Escapes::is_escape))]
fn is_escape(in_iri: bool, chars: &[char]) -> bool
    ensures { result ≡ is_escape in_iri chars.now }
{
    match chars {
        [] => false,
        ['u', rest @ ..] => is_numeric(in_iri, 4, rest),
        ['U', rest @ ..] => is_numeric(in_iri, 8, rest),
        [c, ..] => !in_iri && character_of(*c) != 0,
    }
}

fn good_escapes(in_iri: bool, chars: &[char]) -> bool
    ensures { result ≡ good_escapes in_iri 0 chars.now }
{
    let mut passed = false;
    for (i, c) in chars.iter().enumerate() {
        if passed {
            passed = false;
        } else if *c == '\\' {
            if !is_escape(in_iri, &chars[i + 1..]) {
                return false;
            }
            passed = true;
        }
    }
    true
}

/// Whether each escape of a token of this kind may stand there: in an IRI a numeric one of a
/// character that IRIREF may hold, in a string ECHAR or a numeric one of any character, which no
/// surrogate is. Tokens of other kinds have none of these (SPARQL 1.1, sections 19.2 and 19.8).
#[tactic(auto, unfolding(crate::specs::Escapes::has_good_escapes))]
pub fn has_good_escapes(kind: PieceKind, chars: &[char]) -> bool
    ensures { result ≡ has_good_escapes kind chars.now }
{
    match kind {
        PieceKind::Iri => good_escapes(true, chars),
        PieceKind::Str => good_escapes(false, chars),
        _ => true,
    }
}

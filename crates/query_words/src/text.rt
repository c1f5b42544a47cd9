// The texts inside tokens.
ghost use Rattle.std.specs.Prelude.{◌≡◌, ◌+◌, ◌≤◌, ◌<◌, length, drop, IfOk, codes};
ghost use Rattle.std.specs.Str.{encode_utf8_all, bytes_eq, chars};
ghost use Rattle.query_tokens.specs.declared.piece.TheConstants.{LONGEST_QUERY};
ghost use Rattle.query_tokens.specs.Escapes.{resolved, escape_value, escape_length, character_or};
ghost use Rattle.query_words.specs.Texts.{same_word, inside, colon, unescaped, resolved_text, prefix_text, local_text};

use query_tokens::escape::{character_of, first_chars, hex_value};
use std::alloc::Global;
use text_base::{OutOfMemory, Text};

/// The characters of a text. `OutOfMemory` comes only where memory runs out, here and below.
pub fn decode(alloc: Global, text: &str) -> Result<Vec<char>, OutOfMemory>
    ensures { IfOk result (λ v. v.items ≡ chars text.now) }
{
    Ok(text.chars().collect(alloc)?)
}

/// Whether characters are a word, with its ASCII letters in any case. The word is in lower case.
#[tactic(auto, unfolding(crate::specs::Texts::same_word))]
pub fn same_word(word: &[u8], text: &[char]) -> bool
    ensures { result ≡ same_word word.now text.now }
{
    if word.len() != text.len() {
        return false;
    }
    for (i, c) in text.iter().enumerate() {
        if c.to_ascii_lowercase() as u32 != u32::from(word[i]) {
            return false;
        }
    }
    true
}

/// Whether characters are the word `a`, in lower case.
pub fn is_a(text: &[char]) -> bool
    ensures { result ≡ bytes_eq text.now (codes "a") }
{
    text == ['a'].as_slice()
}

/// The characters after the first `n`, or none where there are fewer.
fn chars_from(chars: &[char], n: usize) -> &[char]
    ensures { result.now ≡ drop n chars.now }
{
    if n < chars.len() {
        &chars[n..]
    } else {
        &chars[chars.len()..]
    }
}

/// The characters but the first and the last.
fn inside(chars: &[char]) -> &[char]
    ensures { result.now ≡ inside chars.now }
{
    first_chars(chars_from(chars, 1), chars.len().saturating_sub(2))
}

/// How many characters stand before the first colon.
fn colon(chars: &[char]) -> usize
    ensures value { result ≡ colon chars.now }
    ensures within { result ≤ length chars.now }
{
    for (i, c) in chars.iter().enumerate() {
        if *c == ':' {
            return i;
        }
    }
    chars.len()
}

/// The text of some characters, as UTF-8.
pub fn text_of(alloc: Global, chars: &[char]) -> Result<Text, OutOfMemory>
    ensures { IfOk result (λ t. t ≡ encode_utf8_all chars.now) }
{
    let mut text = String::new(alloc);
    for c in chars {
        text.push(*c)?;
    }
    Ok(Text::from_string(text))
}

/// The text of some characters after the first; empty where there is none.
pub fn text_after_first(alloc: Global, chars: &[char]) -> Result<Text, OutOfMemory>
    ensures { IfOk result (λ t. t ≡ encode_utf8_all (drop 1 chars.now)) }
{
    text_of(alloc, chars_from(chars, 1))
}

/// The name of the prefix of a prefixed name, which is what stands before its first colon.
pub fn prefix_text(alloc: Global, chars: &[char]) -> Result<Text, OutOfMemory>
    ensures { IfOk result (λ t. t ≡ prefix_text chars.now) }
{
    text_of(alloc, first_chars(chars, colon(chars)))
}

fn unescaped_text(alloc: Global, chars: &[char]) -> Result<Text, OutOfMemory>
    ensures { IfOk result (λ t. t ≡ encode_utf8_all (unescaped chars.now)) }
{
    let mut text = String::new(alloc);
    for c in chars {
        if *c != '\\' {
            text.push(*c)?;
        }
    }
    Ok(Text::from_string(text))
}

/// The local part of a prefixed name of at most `LONGEST_QUERY` characters (262144): what stands behind
/// its first colon, without the backslashes of its escapes and with each `%` and its two digits as they
/// are (PN_LOCAL; SPARQL 1.1, section 19.8).
pub fn local_text(alloc: Global, chars: &[char]) -> Result<Text, OutOfMemory>
    requires { length chars.now ≤ LONGEST_QUERY }
    ensures { IfOk result (λ t. t ≡ local_text chars.now) }
{
    unescaped_text(alloc, chars_from(chars, colon(chars) + 1))
}

fn character_or(n: u32) -> char
    ensures { result ≡ character_or n }
{
    match char::from_u32(n) {
        Some(c) => c,
        None => '\u{FFFD}',
    }
}

/// The character that an escape stands for, by what follows its backslash.
#[tactic(auto, unfolding(query_tokens::specs::Escapes::escape_value))]
fn escape_value(rest: &[char]) -> char
    ensures { result ≡ escape_value rest.now }
{
    match rest {
        [] => '\u{FFFD}',
        ['u', digits @ ..] => character_or(hex_value(first_chars(digits, 4))),
        ['U', digits @ ..] => character_or(hex_value(first_chars(digits, 8))),
        [c, ..] => character_or(character_of(*c)),
    }
}

/// How many characters of an escape follow its backslash.
#[tactic(auto, unfolding(query_tokens::specs::Escapes::escape_length))]
fn escape_length(rest: &[char]) -> usize
    ensures { result ≡ escape_length rest.now }
{
    match rest {
        [] => 0,
        ['u', ..] => 5,
        ['U', ..] => 9,
        [_, ..] => 1,
    }
}

fn resolve(alloc: Global, chars: &[char]) -> Result<Text, OutOfMemory>
    ensures { IfOk result (λ t. t ≡ encode_utf8_all (resolved chars.now)) }
{
    let mut text = String::new(alloc);
    let mut skip = 0;
    for (i, c) in chars.iter().enumerate() {
        if skip > 0 {
            skip -= 1;
        } else if *c == '\\' {
            let rest = &chars[i + 1..];
            text.push(escape_value(rest))?;
            skip = escape_length(rest);
        } else {
            text.push(*c)?;
        }
    }
    Ok(Text::from_string(text))
}

/// The text of an IRI or a string: its characters but the first and the last, with each escape
/// resolved (SPARQL 1.1, sections 19.2 and 19.8). A numeric escape of no character gives U+FFFD and
/// any other that is no ECHAR U+0000, but no token has one of these.
pub fn resolved_text(alloc: Global, chars: &[char]) -> Result<Text, OutOfMemory>
    ensures { IfOk result (λ t. t ≡ resolved_text chars.now) }
{
    resolve(alloc, inside(chars))
}

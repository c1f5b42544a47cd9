// The texts of a row.
use crate::CaseFault;
use crate::names::Names;
use json::Value;
use std::alloc::Global;
use std::str;

/// How deep lists and repeats stand in one another at most.
pub const DEPTH: usize = 8;

/// The member of a value that is a text.
fn text_of<'a>(value: &Value<'a>, member: &str) -> Option<&'a str> {
    match value.get(member) {
        Some(value) => value.as_str(),
        None => None,
    }
}

/// Appends the text with a name.
fn push_named(names: &Names, name: &str, out: &mut Vec<u8>) -> Result<(), CaseFault> {
    match names.find(name) {
        Some(text) => Ok(out.extend_from_slice(text.as_bytes())?),
        None => Err(CaseFault::Row),
    }
}

/// Appends the texts whose names are the letters.
fn push_letters(
    alloc: Global,
    names: &Names,
    letters: &str,
    out: &mut Vec<u8>,
) -> Result<(), CaseFault> {
    for letter in letters.chars() {
        let mut name = String::new(alloc);
        name.push(letter)?;
        push_named(names, name.as_str(), out)?;
    }
    Ok(())
}

/// The number that a digit of a hexadecimal number stands for.
fn digit(byte: u8) -> Result<u8, CaseFault> {
    match byte {
        b'0'..=b'9' => Ok(byte - b'0'),
        b'a'..=b'f' => Ok(byte - b'a' + 10),
        _ => Err(CaseFault::Row),
    }
}

/// Appends the bytes whose two digits each stand one behind the other.
fn push_hex(digits: &[u8], out: &mut Vec<u8>) -> Result<(), CaseFault> {
    for pair in digits.chunks(2) {
        let [high, low] = pair else {
            return Err(CaseFault::Row);
        };
        out.push(digit(*high)? << 4 | digit(*low)?)?;
    }
    Ok(())
}

/// Appends bytes so many times.
fn push_times(once: &[u8], times: u64, out: &mut Vec<u8>) -> Result<(), CaseFault> {
    for _ in 0..times {
        out.extend_from_slice(once)?;
    }
    Ok(())
}

/// Appends a text with a number where it has `{n}`.
fn push_numbered(text: &str, number: &str, out: &mut Vec<u8>) -> Result<(), CaseFault> {
    let mut is_first = true;
    for part in text.split("{n}") {
        if !is_first {
            out.extend_from_slice(number.as_bytes())?;
        }
        out.extend_from_slice(part.as_bytes())?;
        is_first = false;
    }
    Ok(())
}

/// Appends a text for each of so many numbers.
fn push_numbers(
    alloc: Global,
    once: &[u8],
    from: u64,
    count: u64,
    out: &mut Vec<u8>,
) -> Result<(), CaseFault> {
    let Ok(text) = str::from_utf8(once) else {
        return Err(CaseFault::Row);
    };
    for number in from..from.saturating_add(count) {
        push_numbered(text, number.to_string(alloc)?.as_str(), out)?;
    }
    Ok(())
}

/// The member of a part that is a number.
fn number_of(part: &Value<'_>, member: &str) -> Option<u64> {
    match part.get(member) {
        Some(value) => value.as_u64(),
        None => None,
    }
}

/// Appends what a part makes of a text.
fn push_made(
    alloc: Global,
    part: &Value<'_>,
    once: &[u8],
    out: &mut Vec<u8>,
) -> Result<(), CaseFault> {
    if let Some(times) = number_of(part, "times") {
        return push_times(once, times, out);
    }
    let count = number_of(part, "numbers").ok_or(CaseFault::Row)?;
    let from = number_of(part, "from").unwrap_or(0);
    push_numbers(alloc, once, from, count, out)
}

/// A text as it is written where it is made of no other.
#[derive(Clone, Copy)]
enum Plain<'a> {
    /// Its own letters.
    Text(&'a str),
    /// The name of it.
    Name(&'a str),
    /// Letters, each of which is a name.
    Letters(&'a str),
    /// The digits of its bytes.
    Digits(&'a str),
}

/// The text that a value is, if it is made of no other.
fn plain_of<'a>(value: &Value<'a>) -> Option<Plain<'a>> {
    if let Some(text) = value.as_str() {
        return Some(Plain::Text(text));
    }
    if let Some(name) = text_of(value, "name") {
        return Some(Plain::Name(name));
    }
    if let Some(letters) = text_of(value, "letters") {
        return Some(Plain::Letters(letters));
    }
    match text_of(value, "hex") {
        Some(digits) => Some(Plain::Digits(digits)),
        None => None,
    }
}

/// Appends a text that is made of no other.
fn push_plain(
    alloc: Global,
    names: &Names,
    plain: Plain<'_>,
    out: &mut Vec<u8>,
) -> Result<(), CaseFault> {
    match plain {
        Plain::Text(text) => Ok(out.extend_from_slice(text.as_bytes())?),
        Plain::Name(name) => push_named(names, name, out),
        Plain::Letters(letters) => push_letters(alloc, names, letters, out),
        Plain::Digits(digits) => push_hex(digits.as_bytes(), out),
    }
}

/// Appends the bytes that a value of a row stands for.
pub fn push_text(
    alloc: Global,
    names: &Names,
    value: &Value<'_>,
    depth: usize,
    out: &mut Vec<u8>,
) -> Result<(), CaseFault> {
    if depth == 0 {
        return Err(CaseFault::Row);
    }
    if let Some(plain) = plain_of(value) {
        return push_plain(alloc, names, plain, out);
    }
    if let Value::Array(parts) = value {
        for part in parts {
            push_text(alloc, names, part, depth - 1, out)?;
        }
        return Ok(());
    }
    let Some(of) = value.get("of") else {
        return Err(CaseFault::Row);
    };
    let mut once = Vec::new(alloc);
    match push_text(alloc, names, of, depth - 1, &mut once) {
        Ok(()) => push_made(alloc, value, once.as_slice(), out),
        Err(fault) => Err(fault),
    }
}

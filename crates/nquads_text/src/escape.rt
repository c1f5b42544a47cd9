// The text that stands between two marks, its escapes resolved.
ghost use Rattle.std.specs.Prelude.{◌≡◌, ◌<◌, ◌≤◌, ◌++◌, ◌∷◌, [], length, not, ◌||◌, ◌==◌, Option, Some, None, MatchOption, IfOk, IfSome, OnOk, IsTrue};
ghost use Rattle.std.specs.Char.{encode_utf8, digit_value};
ghost use Rattle.rdf_terms.specs.Iri.{is_iri_byte};
ghost use Rattle.std.specs.Str.{IsUtf8};
ghost use Rattle.nquads_text.specs.Meaning.{short_value, is_scalar, is_nameable, IsItem};
ghost use Rattle.nquads_text.specs.declared.scan.Awaits.TheVariants.{Item};
ghost use Rattle.nquads_text.specs.Scan.{first_place};
ghost use Rattle.nquads_text.specs.Escape.{more_digits, with_named, after_digit, resolve_step, ComesTo, resolve_from, resolved};
ghost use Rattle.nquads_text.specs.Line.{IsWrittenText};

use crate::scan::{Awaits, digits_left, is_item};
use memchr::memchr;
use rdf_terms::is_iri_byte;
use std::alloc::Global;
use std::{char, str};
use text_base::{OutOfMemory, Text};

fn short_value(b: u8) -> u8
    ensures { result ≡ short_value b }
{
    match b {
        b't' => b'\t',
        b'b' => b'\x08',
        b'n' => b'\n',
        b'r' => b'\r',
        b'f' => b'\x0C',
        _ => b,
    }
}

fn digit_value(b: u8) -> u32
    ensures value { result ≡ digit_value b }
    ensures small { result ≤ 36 }
{
    match b {
        b'0'..=b'9' => (b - b'0') as u32,
        b'A'..=b'Z' => (b - b'A' + 10) as u32,
        b'a'..=b'z' => (b - b'a' + 10) as u32,
        _ => 36,
    }
}

fn more_digits(value: u32, b: u8) -> u32
    requires { value ≤ 0x110000 }
    ensures value { result ≡ more_digits value b }
    ensures small { result ≤ 0x110000 }
{
    let more = value * 16 + digit_value(b);
    if more < 0x110000 { more } else { 0x110000 }
}

fn is_scalar(code: u32) -> bool
    ensures { result ≡ is_scalar code }
{
    code < 0xD800 || (0xE000 <= code && code <= 0x10FFFF)
}

fn is_allowed(iri: bool, code: u32) -> bool
    ensures { result ≡ (not iri || is_iri_byte code) }
{
    !iri || code >= 128 || is_iri_byte(code as u8)
}

fn is_nameable(iri: bool, code: u32) -> bool
    ensures { result ≡ is_nameable iri code }
{
    is_scalar(code) && is_allowed(iri, code)
}

fn push_char(out: &mut Vec<u8>, code: u32) -> Result<(), OutOfMemory>
    ensures { OnOk result (IsTrue (is_scalar code) → out.new.items ≡ out.old.items ++ encode_utf8 code) }
{
    let mut room = [0u8; 4];
    match char::from_u32(code) {
        None => Ok(()),
        Some(c) => {
            let text = c.encode_utf8(&mut room);
            out.extend_from_slice(text.as_bytes())?;
            Ok(())
        }
    }
}

/// Where a reading of escapes stands: what it awaits, and the value of the digits so far.
#[derive(Clone, Copy)]
struct Place {
    awaits: Awaits,
    value: u32,
}

/// The place before an item.
fn before_item() -> Place
    ensures { result ≡ record { awaits = Item; value = 0 } }
{
    Place {
        awaits: Awaits::Item,
        value: 0,
    }
}

fn name(out: &mut Vec<u8>, iri: bool, code: u32) -> Result<Option<Place>, OutOfMemory>
    ensures { IfOk result (λ r. MatchOption r (with_named iri out.old.items code ≡ None) (λ p.
        (with_named iri out.old.items code ≡ Some (out.new.items, p.awaits, p.value)) × (p.value ≡ 0))) }
{
    if !is_nameable(iri, code) {
        return Ok(None);
    }
    push_char(out, code)?;
    Ok(Some(before_item()))
}

fn push(out: &mut Vec<u8>, b: u8) -> Result<Option<Place>, OutOfMemory>
    ensures { IfOk result (λ r. (r ≡ Some (record { awaits = Item; value = 0 }))
        × (out.new.items ≡ out.old.items ++ b ∷ [])) }
{
    out.push(b)?;
    Ok(Some(before_item()))
}

fn digit(out: &mut Vec<u8>, iri: bool, more: u8, value: u32) -> Result<Option<Place>, OutOfMemory>
    requires { value ≤ 0x110000 }
    ensures { IfOk result (ComesTo (after_digit iri out.old.items more value) out.new.items) }
{
    if more == 0 {
        name(out, iri, value)
    } else {
        Ok(Some(Place {
            awaits: Awaits::Digits(more - 1),
            value,
        }))
    }
}

fn resolve_step(
    out: &mut Vec<u8>,
    iri: bool,
    place: Place,
    b: u8,
) -> Result<Option<Place>, OutOfMemory>
    requires { place.value ≤ 0x110000 }
    ensures { IfOk result (ComesTo (resolve_step iri out.old.items place.awaits place.value b) out.new.items) }
{
    match place.awaits {
        Awaits::Item => {
            if b == b'\\' {
                Ok(Some(Place {
                    awaits: Awaits::Escape,
                    value: 0,
                }))
            } else {
                push(out, b)
            }
        }
        Awaits::Escape => match b {
            b'u' => Ok(Some(Place {
                awaits: digits_left(4),
                value: 0,
            })),
            b'U' => Ok(Some(Place {
                awaits: digits_left(8),
                value: 0,
            })),
            _ => push(out, short_value(b)),
        },
        Awaits::Digits(more) => digit(out, iri, more, more_digits(place.value, b)),
    }
}

/// Appends what the item at the front stands for, and answers the bytes after it, or nothing where it names what it may not.
fn resolve_item<'a>(
    out: &mut Vec<u8>,
    iri: bool,
    bytes: &'a [u8],
) -> Result<Option<&'a [u8]>, OutOfMemory>
    ensures value { IfOk result (λ r. MatchOption r (resolve_from iri out.old.items Item 0 bytes.now ≡ None)
        (λ rest. resolve_from iri out.old.items Item 0 bytes.now ≡ resolve_from iri out.new.items Item 0 rest.now)) }
    ensures shorter { IfOk result (λ r. IfSome r (λ rest. 0 < length bytes.now → length rest.now < length bytes.now)) }
{
    let mut place = before_item();
    for (i, b) in bytes.iter().enumerate() {
        match resolve_step(out, iri, place, *b)? {
            None => return Ok(None),
            Some(next) => place = next,
        }
        if is_item(place.awaits) {
            return Ok(Some(&bytes[i + 1..]));
        }
    }
    Ok(Some(&[]))
}

/// The place of the first backslash.
fn backslash(bytes: &[u8]) -> Option<usize>
    ensures place { result ≡ first_place (λ b. b == 92) 0 bytes.now }
    ensures within { IfSome result (λ n. n < length bytes.now) }
{
    memchr(b'\\', bytes)
}

fn resolve_all(alloc: Global, bytes: &[u8], iri: bool) -> Result<Option<Vec<u8>>, OutOfMemory>
    ensures { IfOk result (λ r. MatchOption r (resolve_from iri [] Item 0 bytes.now ≡ None)
        (λ v. resolve_from iri [] Item 0 bytes.now ≡ Some v.items)) }
{
    let mut out = Vec::with_capacity(alloc, bytes.len())?;
    let mut rest = bytes;
    while let Some(n) = backslash(rest) {
        let (run, escape) = rest.split_at(n);
        out.extend_from_slice(run)?;
        match resolve_item(&mut out, iri, escape)? {
            None => return Ok(None),
            Some(after) => rest = after,
        }
    }
    out.extend_from_slice(rest)?;
    Ok(Some(out))
}

/// The text that these bytes of UTF-8 are.
pub fn copied(alloc: Global, bytes: &[u8]) -> Result<Text, OutOfMemory>
    requires { IsUtf8 bytes.now }
    ensures { IfOk result (λ t. t ≡ bytes.now) }
{
    Text::copy(alloc, unsafe { str::from_utf8_unchecked(bytes) })
}

#[tactic(auto, unfolding(crate::specs::Escape::resolved))]
fn resolved_slowly(alloc: Global, bytes: &[u8], iri: bool) -> Result<Option<Text>, OutOfMemory>
    requires { IsWrittenText (IsItem iri) bytes.now }
    ensures { IfOk result (λ r. r ≡ resolved iri bytes.now) }
{
    match resolve_all(alloc, bytes, iri)? {
        None => Ok(None),
        Some(out) => {
            let string = unsafe { String::from_utf8_unchecked(out) };
            Ok(Some(Text::from_string(string)))
        }
    }
}

/// The text, or nothing where an escape names what it may not.
pub fn resolved(alloc: Global, bytes: &[u8], iri: bool) -> Result<Option<Text>, OutOfMemory>
    requires { IsWrittenText (IsItem iri) bytes.now }
    ensures { IfOk result (λ r. r ≡ resolved iri bytes.now) }
{
    match backslash(bytes) {
        None => Ok(Some(copied(alloc, bytes)?)),
        Some(_) => resolved_slowly(alloc, bytes, iri),
    }
}

// The parts of an address as they are written.
ghost use Rattle.std.specs.Prelude.{◌≡◌, ◌<◌, ◌≤◌, ◌++◌, codes, Option, Some, None, true, false, length, MatchOption, IfSome};
ghost use Rattle.std.specs.List.{list_all, prefix_len};
ghost use Rattle.std.specs.Str.Parse.{digits_value};
ghost use Rattle.std.specs.Char.{is_ascii_digit};
ghost use Rattle.tpf_base.specs.Addresses.{is_host_byte, is_address_byte, is_path_byte, is_host};
ghost use Rattle.template_fill.specs.Configurations.{is_written_path};
ghost use Rattle.template_fill.specs.ReadAddress.{IsSpelled, Spells, SpellsPort, SpellsDigits, opened, port_digits, is_rest, is_port_text, after_scheme, port_part, read_spelled};
ghost use Rattle.template_fill.specs.Spelled.{spelled_of};

use tpf_base::HIGHEST_PORT;

/// The parts of an address as they are written.
#[derive(Clone, Copy)]
pub struct SpelledAddress<'a> {
    pub host: &'a [u8],
    pub port: u16,
    /// What follows the authority: nothing, or a path or a query with its mark.
    pub rest: &'a [u8],
}

fn is_host_byte(b: u8) -> bool
    ensures { result ≡ is_host_byte b }
{
    b.is_ascii_alphanumeric() || b == b'-' || b == b'.'
}

/// Whether a path or a query may hold this byte.
pub fn is_address_byte(b: u8) -> bool
    ensures { result ≡ is_address_byte b }
{
    b > b' '
        && b < 127
        && !matches!(
            b,
            b'"' | b'#' | b'<' | b'>' | b'\\' | b'^' | b'`' | b'{' | b'|' | b'}'
        )
}

fn is_path_byte(b: u8) -> bool
    ensures { result ≡ is_path_byte b }
{
    is_address_byte(b) && b != b'?'
}

fn are_path_bytes(bytes: &[u8]) -> bool
    ensures { result ≡ list_all is_path_byte bytes.now }
{
    bytes.iter().all(|b| is_path_byte(*b))
}

/// Whether bytes are a path of an address that is written: `/` and characters of a path (RFC 3986,
/// section 3.3, with the characters that an address may have here).
pub fn is_written_path(bytes: &[u8]) -> bool
    ensures { result ≡ is_written_path bytes.now }
{
    match bytes {
        [b'/', ..] => are_path_bytes(&bytes[1..]),
        _ => false,
    }
}

pub fn are_address_bytes(bytes: &[u8]) -> bool
    ensures { result ≡ list_all is_address_byte bytes.now }
{
    bytes.iter().all(|b| is_address_byte(*b))
}

fn host_len(bytes: &[u8]) -> usize
    ensures len { result ≡ prefix_len is_host_byte bytes.now }
    ensures within { result ≤ length bytes.now }
{
    for (i, b) in bytes.iter().enumerate() {
        if !is_host_byte(*b) {
            return i;
        }
    }
    bytes.len()
}

fn digits_len(bytes: &[u8]) -> usize
    ensures len { result ≡ prefix_len is_ascii_digit bytes.now }
    ensures within { result ≤ length bytes.now }
{
    for (i, b) in bytes.iter().enumerate() {
        if !b.is_ascii_digit() {
            return i;
        }
    }
    bytes.len()
}

fn are_host_bytes(bytes: &[u8]) -> bool
    ensures { result ≡ list_all is_host_byte bytes.now }
{
    bytes.iter().all(|b| is_host_byte(*b))
}

fn is_host(bytes: &[u8]) -> bool
    ensures { result ≡ is_host bytes.now }
{
    1 <= bytes.len() && bytes.len() <= 255 && are_host_bytes(bytes)
}

#[tactic(auto, unfolding(crate::specs::ReadAddress::after_scheme))]
fn after_scheme(text: &[u8]) -> Option<&[u8]>
    ensures part { MatchOption result (after_scheme text.now ≡ None)
        (λ rest. after_scheme text.now ≡ Some rest.now) }
    ensures text { IfSome result (λ rest. text.now ≡ codes "http://" ++ rest.now) }
{
    if text.starts_with(b"http://") {
        Some(&text[7..])
    } else {
        None
    }
}

/// The number of a port, unless it has a leading zero or is above `HIGHEST_PORT`.
fn port_number(digits: &[u8]) -> Option<u16>
    requires { list_all is_ascii_digit digits.now ≡ true }
    ensures value { MatchOption result (is_port_text digits.now ≡ false)
        (λ port. (is_port_text digits.now ≡ true) × (port ≡ digits_value 10 digits.now)) }
    ensures positive { IfSome result (λ port. 0 < port) }
{
    if digits.is_empty() || digits[0] == b'0' {
        return None;
    }
    let mut port: usize = 0;
    for digit in digits {
        port = port * 10 + usize::from(*digit - b'0');
        if port > HIGHEST_PORT {
            return None;
        }
    }
    Some(port as u16)
}

/// What stands after an x at the front.
fn opened(bytes: &[u8], x: u8) -> Option<&[u8]>
    ensures { MatchOption result (opened x bytes.now ≡ None) (λ rest. opened x bytes.now ≡ Some rest.now) }
{
    match bytes {
        [b, rest @ ..] if *b == x => Some(rest),
        _ => None,
    }
}

/// The port of the digits at the front, and what follows them.
fn port_digits(bytes: &[u8]) -> Option<(u16, &[u8])>
    ensures part { MatchOption result (port_digits bytes.now ≡ None)
        (λ p. port_digits bytes.now ≡ Some (p.0, p.1.now)) }
    ensures spelled { IfSome result (λ p. SpellsDigits bytes.now p.0 p.1.now) }
{
    let (digits, rest) = bytes.split_at(digits_len(bytes));
    let port = port_number(digits)?;
    Some((port, rest))
}

/// The port after a host, 80 where none is written, and what follows it.
#[tactic(auto, unfolding(crate::specs::ReadAddress::port_part))]
fn port_part(bytes: &[u8]) -> Option<(u16, &[u8])>
    ensures part { MatchOption result (port_part bytes.now ≡ None)
        (λ p. port_part bytes.now ≡ Some (p.0, p.1.now)) }
    ensures spelled { IfSome result (λ p. SpellsPort bytes.now p.0 p.1.now) }
{
    match opened(bytes, b':') {
        None => Some((80, bytes)),
        Some(after) => {
            let (port, rest) = port_digits(after)?;
            Some((port, rest))
        }
    }
}

fn is_rest(bytes: &[u8]) -> bool
    ensures { result ≡ is_rest bytes.now }
{
    match bytes {
        [] => true,
        [first, after @ ..] => (*first == b'/' || *first == b'?') && are_address_bytes(after),
    }
}

/// The parts of an address, or `None` where the text is none.
#[tactic(auto, unfolding(crate::specs::ReadAddress::read_spelled))]
pub fn read_spelled(text: &[u8]) -> Option<SpelledAddress<'_>>
    ensures parts { MatchOption result (read_spelled text.now ≡ None)
        (λ s. read_spelled text.now ≡ Some (spelled_of s)) }
    ensures spelled { IfSome result (λ s. IsSpelled (spelled_of s)) }
    ensures text { IfSome result (λ s. Spells text.now (spelled_of s)) }
{
    let after = after_scheme(text)?;
    let (host, after_host) = after.split_at(host_len(after));
    if !is_host(host) {
        return None;
    }
    let (port, rest) = port_part(after_host)?;
    if is_rest(rest) {
        Some(SpelledAddress { host, port, rest })
    } else {
        None
    }
}

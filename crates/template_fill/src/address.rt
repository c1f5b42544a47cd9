// Addresses of the Web.
ghost use Rattle.std.specs.Prelude.{◌≡◌, ◌==◌, ◌+◌, ◌<◌, ◌≤◌, ◌↔◌, ◌++◌, true, map, take, drop, length, is_some, IsTrue, IfOk, OnOk, IsErrOf};
ghost use Rattle.std.specs.String.{string_bytes};
ghost use Rattle.std.specs.List.{list_all, list_any};
ghost use Rattle.std.specs.Char.{to_ascii_lowercase, is_ascii};
ghost use Rattle.rdf_terms.specs.Iri.{is_iri};
ghost use Rattle.tpf_base.specs.Addresses.{Address, IsAddress, is_host_byte, authority_of, target_of, address_text};
ghost use Rattle.template_fill.specs.Forms.{mark_behind};
ghost use Rattle.template_fill.specs.ReadAddress.{IsSpelled, is_rest, rooted, normal};
ghost use Rattle.template_fill.specs.Spelled.{spelled_of};
ghost use Rattle.template_fill.specs.WebAddress.{Extends, port_text, IsNoAddress};
ghost use Rattle.template_fill.specs.Authorities.{ShareAuthority};

use crate::AddressFault;
use crate::spelled::{SpelledAddress, read_spelled};
use std::alloc::{AllocError, Global};
use std::marker::Model;
use std::str;
use tpf_base::OutOfMemory;

/// An address of a page: `http://`, a host, a port, and a target of path and query
/// (RFC 3986, section 3). It is kept in the normal form: the host is in lower case,
/// port 80 is not written, and the path is not empty (sections 6.2.2.1 and 6.2.3).
///
/// Contracts see it by its parts, of which `address_text` gives the text.
pub struct WebAddress {
    text: String,
    host_len: usize,
    authority_len: usize,
    port: u16,
}

// Written out, so that who drops one calls this, and does not take it apart at each exit.
impl Drop for WebAddress {
    fn drop(self) {
        let WebAddress {
            text: _text,
            host_len: _host_len,
            authority_len: _authority_len,
            port: _port,
        } = self;
    }
}

impl Model for WebAddress {
    ghost use Rattle.std.specs.String.{string_bytes};
    ghost use Rattle.tpf_base.specs.Addresses.{Address};
    ghost use Rattle.template_fill.specs.WebAddress.{kept_address, IsKept};

    ghost Value = { Address };

    ghost view = { λ a. kept_address (string_bytes a.text) a.host_len a.authority_len a.port };

    ghost invariant = { λ a. IsKept (string_bytes a.text) a.host_len a.authority_len a.port };
}

/// A text of ASCII.
pub(crate) fn ascii_text(bytes: &[u8]) -> &str
    requires { list_all is_ascii bytes.now ≡ true }
    ensures { result.now ≡ bytes.now }
{
    match str::from_utf8(bytes) {
        Ok(text) => text,
        Err(_) => unreachable!(),
    }
}

/// A part of a text of ASCII.
fn ascii_part(text: &str, from: usize, len: usize) -> &str
    requires ascii { list_all is_ascii text.now ≡ true }
    requires within { from + len ≤ length text.now }
    ensures { result.now ≡ take len (drop from text.now) }
{
    let rest = &text[from..];
    &rest[..len]
}

/// Appends a host in lower case.
fn push_host(out: &mut String, host: &[u8]) -> Result<(), AllocError>
    requires { list_all is_host_byte host.now ≡ true }
    ensures { OnOk result (string_bytes out.new ≡ string_bytes out.old ++ map to_ascii_lowercase host.now) }
{
    for b in host {
        out.push(char::from(b.to_ascii_lowercase()))?;
    }
    Ok(())
}

/// Appends `:` and the port, unless that is 80.
fn push_port(alloc: Global, out: &mut String, port: u16) -> Result<(), AllocError>
    ensures { OnOk result (string_bytes out.new ≡ string_bytes out.old ++ port_text port) }
{
    if port != 80 {
        let digits = port.to_string(alloc)?;
        out.push(':')?;
        out.push_str(digits.as_str())?;
    }
    Ok(())
}

/// Appends the target that follows an authority; an empty path is written `/`.
fn push_target(out: &mut String, rest: &[u8]) -> Result<(), AllocError>
    requires { is_rest rest.now ≡ true }
    ensures { OnOk result (string_bytes out.new ≡ string_bytes out.old ++ rooted rest.now) }
{
    match rest {
        [b'/', ..] => {}
        _ => out.push('/')?,
    }
    out.push_str(ascii_text(rest))?;
    Ok(())
}

impl WebAddress {
    /// The address with these parts in the normal form.
    pub(crate) fn normal(alloc: Global, parts: &SpelledAddress) -> Result<WebAddress, AllocError>
        requires { IsSpelled (spelled_of parts.now) }
        ensures { IfOk result (λ a. a ≡ normal (spelled_of parts.now)) }
    {
        let mut text = String::from_str(alloc, "http://")?;
        push_host(&mut text, parts.host)?;
        push_port(alloc, &mut text, parts.port)?;
        let front = text.as_str();
        let authority_len = front.len() - 7;
        push_target(&mut text, parts.rest)?;
        Ok(WebAddress {
            text,
            host_len: parts.host.len(),
            authority_len,
            port: parts.port,
        })
    }

    /// The address that a text is. `BadAddress` exactly where it is none, as with another scheme, a fragment
    /// identifier, no host or one of more than 255 characters, or a port that is 0, above `HIGHEST_PORT`
    /// (65535) or has a leading zero. `OutOfMemory` comes only when memory ran out.
    pub fn read(alloc: Global, text: &str) -> Result<WebAddress, AddressFault>
        ensures read { IfOk result (λ a. IsAddress text.now a) }
        ensures refused { IsErrOf result AddressFault.BadAddress ↔ IsNoAddress text.now }
    {
        match read_spelled(text.as_bytes()) {
            None => Err(AddressFault::BadAddress),
            Some(parts) => match WebAddress::normal(alloc, &parts) {
                Ok(address) => Ok(address),
                Err(_) => Err(AddressFault::OutOfMemory),
            },
        }
    }

    /// The address whose text is that of this one and more of a target after it.
    pub(crate) fn extended(&self, text: String) -> WebAddress
        requires { Extends self.now (string_bytes text) }
        ensures address { IsAddress (string_bytes text) result }
        ensures text { address_text result ≡ string_bytes text }
        ensures authority { ShareAuthority self.now result }
    {
        WebAddress {
            text,
            host_len: self.host_len,
            authority_len: self.authority_len,
            port: self.port,
        }
    }

    /// An address is that of its own text. The call does nothing; it tells a proof of it.
    pub fn is_valid(&self)
        ensures { IsAddress (address_text self.now) self.now }
    {
        let _text = self.text();
    }

    /// The whole text, in the normal form.
    pub fn text(&self) -> &str
        ensures text { result.now ≡ address_text self.now }
        ensures address { IsAddress result.now self.now }
        ensures iri { IsTrue (is_iri result.now) }
    {
        self.text.as_str()
    }

    /// The host, in lower case.
    pub fn host(&self) -> &str
        ensures { result.now ≡ self.now.host }
    {
        ascii_part(self.text.as_str(), 7, self.host_len)
    }

    /// The port, 80 where the text names none.
    pub fn port(&self) -> u16
        ensures { result ≡ self.now.port }
    {
        self.port
    }

    /// The host, with `:` and the port unless that is 80.
    pub fn authority(&self) -> &str
        ensures { result.now ≡ authority_of self.now }
    {
        ascii_part(self.text.as_str(), 7, self.authority_len)
    }

    /// The path with its query: what a request for this address asks for.
    pub fn target(&self) -> &str
        ensures { result.now ≡ target_of self.now }
    {
        let text = self.text.as_str();
        let from = 7 + self.authority_len;
        ascii_part(text, from, text.len() - from)
    }

    /// Whether the address has a `?`.
    pub fn has_query(&self) -> bool
        ensures query { result ≡ is_some self.now.query }
        ensures text { result ≡ list_any (λ b. b == 63) (address_text self.now) }
    {
        let text = self.text.as_str();
        let from = 7 + self.authority_len;
        let target = ascii_part(text, from, text.len() - from);
        target.as_bytes().contains(&b'?')
    }

    /// The mark before a further pair of the query: `&` where the address has a `?`, and `?` else.
    pub(crate) fn further_mark(&self) -> char
        ensures mark { result ≡ mark_behind (address_text self.now) }
        ensures ascii { result < 128 }
    {
        if self.has_query() { '&' } else { '?' }
    }

    /// Whether the authorities are the same text.
    pub fn same_authority(&self, other: &WebAddress) -> bool
        ensures { IsTrue result ↔ (authority_of self.now ≡ authority_of other.now) }
    {
        self.authority() == other.authority()
    }

    /// The same address again. It fails only when memory ran out.
    pub fn copy(&self, alloc: Global) -> Result<WebAddress, OutOfMemory>
        ensures { IfOk result (λ a. a ≡ self.now) }
    {
        Ok(WebAddress {
            text: String::from_str(alloc, self.text.as_str())?,
            host_len: self.host_len,
            authority_len: self.authority_len,
            port: self.port,
        })
    }
}

// Addresses.
use crate::slots::rows_of;
use case_rows::{Case, CaseFault, debug_text, truth_text, word_text};
use case_slots::slots_of;
use std::alloc::Global;
use template_fill::{AddressFault, WebAddress, page_address};
use text_base::OutOfMemory;

/// A member that is an address.
pub fn address_of(
    alloc: Global,
    case: &mut Case<'_>,
    member: &str,
) -> Result<WebAddress, CaseFault> {
    let text = case.text(alloc, member)?;
    match WebAddress::read(alloc, text.as_str()) {
        Ok(address) => Ok(address),
        Err(AddressFault::BadAddress) => Err(CaseFault::Row),
        Err(AddressFault::OutOfMemory) => Err(CaseFault::OutOfMemory),
    }
}

/// The text of an address that a call gave.
pub fn given(alloc: Global, address: Result<WebAddress, OutOfMemory>) -> Result<String, CaseFault> {
    match address {
        Ok(address) => word_text(alloc, address.text()),
        Err(_) => Err(CaseFault::OutOfMemory),
    }
}

/// Texts with a blank between each two.
pub fn spaced(alloc: Global, texts: &[&str]) -> Result<String, CaseFault> {
    Ok(texts.join(alloc, " ")?)
}

/// The normal form of an address, its authority, host, port and target.
fn parts_text(alloc: Global, address: &WebAddress) -> Result<String, CaseFault> {
    let text = address.text();
    let authority = address.authority();
    let host = address.host();
    let port = address.port();
    let target = address.target();
    Ok(format!(in alloc; "{text} {authority} {host} {port} {target}")?)
}

/// The same of its copy.
fn copy_text(alloc: Global, address: &WebAddress) -> Result<String, CaseFault> {
    match address.copy(alloc) {
        Ok(copy) => parts_text(alloc, &copy),
        Err(_) => Err(CaseFault::OutOfMemory),
    }
}

/// `text`: the normal form, the authority, the host, the port and the target of a copy of the address, or the fault.
pub fn address(alloc: Global, case: &mut Case<'_>) -> Result<String, CaseFault> {
    let text = case.text(alloc, "text")?;
    match WebAddress::read(alloc, text.as_str()) {
        Ok(found) => copy_text(alloc, &found),
        Err(fault) => debug_text(alloc, &fault),
    }
}

/// `one`, `other`: whether they share the authority.
pub fn same_authority(alloc: Global, case: &mut Case<'_>) -> Result<String, CaseFault> {
    let one = address_of(alloc, case, "one")?;
    let other = address_of(alloc, case, "other")?;
    truth_text(alloc, one.same_authority(&other))
}

/// `subject`, `predicate`, `object`, `rows`: the address of the page with this number.
fn page_at(
    alloc: Global,
    case: &mut Case<'_>,
    base: &WebAddress,
    page: u64,
) -> Result<String, CaseFault> {
    let slots = slots_of(alloc, case)?;
    let rows = rows_of(alloc, case)?;
    given(alloc, page_address(alloc, base, &slots, &rows, page))
}

/// `base`, `subject`, `predicate`, `object`, `rows`, `page`: the address of the page.
pub fn page(alloc: Global, case: &mut Case<'_>) -> Result<String, CaseFault> {
    let page = case.number("page")?;
    let base = address_of(alloc, case, "base")?;
    page_at(alloc, case, &base, page)
}

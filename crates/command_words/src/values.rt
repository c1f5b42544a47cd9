// Values in words: numbers, addresses, paths and graphs.
ghost use Rattle.std.specs.Prelude.{◌≡◌, ◌<◌, ◌≤◌, Some, None, IfOk, IfSome, MatchOption, option_map, false};
ghost use Rattle.std.specs.List.{list_all};
ghost use Rattle.rdf_terms.specs.Iri.{is_digit};
ghost use Rattle.command_words.specs.Commands.{is_number, number_after, number_of, number_or, count_of, url_of, base_of, without_query, reload_of, is_true, rows_beside, seed_beside, choice_of};

use crate::LONGEST_TYPED;
use rdf_terms::is_iri;
use std::alloc::Global;
use template_fill::{AddressFault, WebAddress, is_written_path};
use tpf_base::{HIGHEST_NUMBER, OutOfMemory, Text};
use triple_table::Choice;

fn are_digits(text: &[u8]) -> bool
    ensures { result ≡ list_all is_digit text.now }
{
    text.iter().all(|b| b.is_ascii_digit())
}

fn is_number(text: &[u8]) -> bool
    ensures { result ≡ is_number text.now }
{
    are_digits(text) && (text.len() >= 1 && text.len() <= 19)
}

/// The number that digits write, where it is not above a bound.
#[tactic(auto, using(crate::proofs::Numbers::number_after_least))]
fn value_up_to(digits: &[u8], high: u64) -> Option<u64>
    ensures { MatchOption result (high < number_after 0 digits.now)
        (λ n. (n ≡ number_after 0 digits.now) × (n ≤ high)) }
{
    let most = u128::from(high);
    let mut n: u128 = 0;
    for b in digits {
        if n > most {
            return None;
        }
        n = n * 10 + u128::from(b.saturating_sub(b'0'));
    }
    if n > most { None } else { Some(n as u64) }
}

/// The number that a text of 1 to 19 digits is, where it is in a range.
pub fn number_of(text: &str, low: u64, high: u64) -> Option<u64>
    ensures value { result ≡ number_of low high text.now }
    ensures within { IfSome result (λ n. n ≤ high) }
{
    if !is_number(text.as_bytes()) {
        return None;
    }
    match value_up_to(text.as_bytes(), high) {
        Some(n) => { if n >= low { Some(n) } else { None } }
        None => None,
    }
}

/// The number that a text is, or the usual one where there is none.
pub fn number_or(text: Option<&str>, low: u64, high: u64, usual: u64) -> Option<u64>
    requires { usual ≤ high }
    ensures value { result ≡ number_or low high usual (option_map (λ t. t.now) text.entry) }
    ensures within { IfSome result (λ n. n ≤ high) }
{
    match text {
        None => Some(usual),
        Some(text) => number_of(text, low, high),
    }
}

/// The number that a text is, if there is one.
pub fn count_of(text: Option<&str>, low: u64, high: u64) -> Option<Option<u64>>
    ensures { result ≡ count_of low high (option_map (λ t. t.now) text.entry) }
{
    let Some(text) = text else {
        return Some(None);
    };
    match number_of(text, low, high) {
        Some(n) => Some(Some(n)),
        None => None,
    }
}

/// The address that a text of at most `LONGEST_TYPED` bytes is.
pub fn url_of(alloc: Global, text: &str) -> Result<Option<WebAddress>, OutOfMemory>
    ensures { IfOk result (λ o. o ≡ url_of text.now) }
{
    if text.len() > LONGEST_TYPED {
        return Ok(None);
    }
    match WebAddress::read(alloc, text) {
        Ok(address) => Ok(Some(address)),
        Err(AddressFault::BadAddress) => Ok(None),
        Err(AddressFault::OutOfMemory) => Err(OutOfMemory),
    }
}

fn without_query(address: Option<WebAddress>) -> Option<WebAddress>
    ensures value { result ≡ without_query address }
    ensures plain { IfSome result (λ a. a.query ≡ None) }
{
    let Some(address) = address else {
        return None;
    };
    if address.has_query() {
        None
    } else {
        Some(address)
    }
}

/// The address without a query that a text of at most `LONGEST_TYPED` bytes is.
pub fn base_of(alloc: Global, text: &str) -> Result<Option<WebAddress>, OutOfMemory>
    ensures value { IfOk result (λ o. o ≡ base_of text.now) }
    ensures plain { IfOk result (λ o. IfSome o (λ a. a.query ≡ None)) }
{
    let address = url_of(alloc, text)?;
    Ok(without_query(address))
}

/// The path of a reload, if there is one, which the base does not have.
pub fn reload_of(
    alloc: Global,
    base: &WebAddress,
    path: Option<&str>,
) -> Result<Option<Option<Text>>, OutOfMemory>
    requires { base.now.query ≡ None }
    ensures { IfOk result (λ o. o ≡ reload_of base.now (option_map (λ p. p.now) path.entry)) }
{
    let Some(path) = path else {
        return Ok(Some(None));
    };
    if is_written_path(path.as_bytes()) && path != base.target() {
        let copy = Text::copy(alloc, path)?;
        Ok(Some(Some(copy)))
    } else {
        Ok(None)
    }
}

/// Whether a flag is given: its value is then `true`.
pub fn is_true(value: Option<&str>) -> bool
    ensures { result ≡ is_true (option_map (λ v. v.now) value.entry) }
{
    match value {
        None => false,
        Some(value) => value == "true",
    }
}

/// Whether rows are read; `None` where there is the path of a reload beside them.
pub fn rows_beside(reload: &Option<Text>, rows: bool) -> Option<bool>
    ensures { result ≡ rows_beside reload.now rows }
{
    if rows && reload.is_some() {
        None
    } else {
        Some(rows)
    }
}

/// The seed that a text is, or 0 where there is none; `None` also for each text beside blocks of rows.
pub fn seed_beside(in_blocks: bool, text: Option<&str>) -> Option<u64>
    ensures { result ≡ seed_beside in_blocks (option_map (λ t. t.now) text.entry) }
{
    if !in_blocks {
        return number_or(text, 0, HIGHEST_NUMBER, 0);
    }
    match text {
        None => Some(0),
        Some(_) => None,
    }
}

fn named(alloc: Global, name: &str) -> Result<Option<Choice>, OutOfMemory>
    ensures { IfOk result (λ o. o ≡ choice_of (Some name.now) false) }
{
    if is_iri(name) {
        let copy = Text::copy(alloc, name)?;
        Ok(Some(Choice::Named(copy)))
    } else {
        Ok(None)
    }
}

/// The graphs chosen by the value of `--graph` and by `--union`.
pub fn choice_of(
    alloc: Global,
    graph: Option<&str>,
    union: bool,
) -> Result<Option<Choice>, OutOfMemory>
    ensures { IfOk result (λ o. o ≡ choice_of (option_map (λ v. v.now) graph.entry) union) }
{
    match graph {
        None => Ok(Some(if union {
            Choice::Union
        } else {
            Choice::DefaultGraph
        })),
        Some(name) => { if union { Ok(None) } else { named(alloc, name) } }
    }
}

// Runs of bytes that stand for themselves in an IRI or in a form, found sixteen at a time.
ghost use Rattle.std.specs.Prelude.{◌≡◌, ◌+◌, ◌≤◌, length};
ghost use Rattle.rdf_terms.specs.Iri.{is_iri_byte};
ghost use Rattle.nquads_text.specs.Grammar.{is_form_byte};
ghost use Rattle.nquads_text.specs.Runs.{PassesIn, PassesFrom, first_set};

use crate::scan::{is_form_byte, is_iri_byte};
use std::simd::prelude::*;

/// How many bytes are looked at together.
const LANES: usize = 16;

/// The place of the lowest bit that is set, or the number of lanes.
#[inline(always)]
fn first_set(mask: u64) -> usize
    ensures { result ≡ first_set mask LANES }
{
    if mask == 0 {
        LANES
    } else {
        mask.trailing_zeros() as usize
    }
}

/// How many bytes of sixteen, from the first, an IRI may hold.
#[inline(always)]
fn iri_run(bytes: &[u8], at: usize) -> usize
    requires { at + LANES ≤ length bytes.now }
    ensures { PassesIn is_iri_byte bytes.now at LANES result }
{
    let lanes = u8x16::from_slice(&bytes[at..]);
    // < and > differ in one bit, and so do \ and ^.
    let paired = lanes | u8x16::splat(2);
    let stops = lanes.simd_le(u8x16::splat(b' '))
        | paired.simd_eq(u8x16::splat(b'>'))
        | paired.simd_eq(u8x16::splat(b'^'))
        | lanes.simd_eq(u8x16::splat(b'"'))
        | lanes.simd_eq(u8x16::splat(b'`'))
        | (lanes - u8x16::splat(b'{')).simd_lt(u8x16::splat(3));
    first_set(stops.to_bitmask())
}

/// How many bytes of sixteen, from the first, stand for themselves in a form.
#[inline(always)]
fn form_run(bytes: &[u8], at: usize) -> usize
    requires { at + LANES ≤ length bytes.now }
    ensures { PassesIn is_form_byte bytes.now at LANES result }
{
    let lanes = u8x16::from_slice(&bytes[at..]);
    let stops = lanes.simd_eq(u8x16::splat(b'"'))
        | lanes.simd_eq(u8x16::splat(b'\\'))
        | lanes.simd_eq(u8x16::splat(b'\n'))
        | lanes.simd_eq(u8x16::splat(b'\r'));
    first_set(stops.to_bitmask())
}

fn few_of_iri(bytes: &[u8], from: usize) -> usize
    requires { from ≤ length bytes.now }
    ensures { PassesFrom is_iri_byte bytes.now from result }
{
    let mut at = from;
    while at < bytes.len() && is_iri_byte(bytes[at]) {
        at += 1;
    }
    at
}

fn few_of_form(bytes: &[u8], from: usize) -> usize
    requires { from ≤ length bytes.now }
    ensures { PassesFrom is_form_byte bytes.now from result }
{
    let mut at = from;
    while at < bytes.len() && is_form_byte(bytes[at]) {
        at += 1;
    }
    at
}

/// The end of a run, from the front, of bytes that an IRI may hold.
pub fn iri_run_end(bytes: &[u8]) -> usize
    ensures { PassesFrom is_iri_byte bytes.now 0 result }
{
    let mut at = 0;
    while bytes.len() - at >= LANES {
        let run = iri_run(bytes, at);
        at += run;
        if run < LANES {
            return at;
        }
    }
    few_of_iri(bytes, at)
}

/// The end of a run, from the front, of bytes that stand for themselves in a form.
pub fn form_run_end(bytes: &[u8]) -> usize
    ensures { PassesFrom is_form_byte bytes.now 0 result }
{
    let mut at = 0;
    while bytes.len() - at >= LANES {
        let run = form_run(bytes, at);
        at += run;
        if run < LANES {
            return at;
        }
    }
    few_of_form(bytes, at)
}

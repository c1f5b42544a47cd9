// A reply that comes in two pieces, and what is kept of one whose link ends too soon.
use crate::exchanges::told_over;
use crate::told::answer_of;
use crate::wires::add_piece;
use case_rows::{Case, CaseFault};
use script_wire::Script;
use std::alloc::Global;
use tpf_base::{Failing, OutOfMemory};

/// What is told of the request.
const SENT: &str = " [GET /d?s=a HTTP/1.1\r\nHost: e:81\r\nAccept: application/n-quads\r\n\r\n]";

/// What an exchange comes to on whose link these pieces come, and then the end.
fn told_of(alloc: Global, limit: u64, pieces: &[&[u8]]) -> Result<String, OutOfMemory> {
    let mut copies = Vec::new(alloc);
    for piece in pieces {
        add_piece(alloc, piece, &mut copies)?;
    }
    let script = Script {
        after: 0,
        pieces: copies,
        ends: true,
        most: 65536,
    };
    told_over(alloc, limit, false, script, Failing::Never)
}

/// Whether a reply is told so that comes in these two pieces, and of the first one alone, if that is asked for, that the
/// reply is cut and all of it is kept.
fn agrees_at(
    alloc: Global,
    limit: u64,
    front: &[u8],
    back: &[u8],
    fronts: bool,
    wanted: &str,
) -> Result<bool, OutOfMemory> {
    if told_of(alloc, limit, &[front, back])?.as_str() != wanted {
        return Ok(false);
    }
    if !fronts || back.is_empty() {
        return Ok(true);
    }
    let cut = told_of(alloc, limit, &[front])?;
    match cut.as_str().strip_prefix("cut ") {
        Some(rest) => Ok(rest.as_bytes().strip_prefix(front) == Some(SENT.as_bytes())),
        None => Ok(false),
    }
}

/// Whether it is so wherever the reply is cut.
fn agree(
    alloc: Global,
    limit: u64,
    reply: &[u8],
    fronts: bool,
    wanted: &str,
) -> Result<bool, OutOfMemory> {
    for at in 0..=reply.len() {
        let (front, back) = reply.split_at(at);
        if !agrees_at(alloc, limit, front, back, fronts, wanted)? {
            return Ok(false);
        }
    }
    Ok(true)
}

/// What a reply comes to, and whether something else comes of it in two pieces.
fn told_cut(alloc: Global, limit: u64, reply: &[u8], fronts: bool) -> Result<String, OutOfMemory> {
    let mut told = told_of(alloc, limit, &[reply])?;
    if !agree(alloc, limit, reply, fronts, told.as_str())? {
        told.push_str(", and otherwise where it is cut")?;
    }
    Ok(told)
}

/// `limit`, `reply`, `fronts`: what an exchange comes to on whose link the reply comes, and then the end, which is the same
/// where the reply is cut in two at any place. With `fronts` each front of it alone is `cut`, and kept.
pub fn cuts(alloc: Global, case: &mut Case<'_>) -> Result<String, CaseFault> {
    let limit = case.number("limit")?;
    let fronts = case.flag("fronts")?;
    let reply = case.bytes(alloc, "reply")?;
    answer_of(told_cut(alloc, limit, reply.as_slice(), fronts))
}

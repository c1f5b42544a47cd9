// A pool over a wire of scripts.
ghost use Rattle.std.specs.Prelude.{[], IfOk};
ghost use Rattle.tpf_base.specs.Links.{WireState};
ghost use Rattle.request_pool.specs.Owned.{SuitsWire};

use crate::ending::add_run;
use crate::stepping::put_all;
use crate::told::{add_requests, answer_of};
use crate::wires::{add_piece, failing_of, scripted};
use case_rows::{Case, CaseFault, word_text};
use request_pool::Pool;
use script_wire::{Script, ScriptWire};
use std::alloc::Global;
use tpf_base::{Bytes, Failing, MOST_LINKS, OutOfMemory};

const KEPT: &str =
    "HTTP/1.1 200 OK\r\nContent-Type: application/n-quads\r\nContent-Length: 1\r\n\r\nx";

const CLOSED: &str =
    "HTTP/1.1 200 OK\r\nContent-Type: application/n-quads\r\nConnection: close\r\nContent-Length: 1\r\n\r\nx";

const FRONT: &str =
    "HTTP/1.1 200 OK\r\nContent-Type: application/n-quads\r\nContent-Length: 1\r\n\r\n";

const REFUSED: &str = "HTTP/1.1 404 Not Found\r\nContent-Length: 0\r\n\r\n";

/// A pool, the asks that it holds, and what its wire does.
#[derive(Drop)]
struct Asks {
    links: u32,
    retries: u32,
    budget: u64,
    /// After how many steps it is closed, or one more is made.
    steps: u32,
    closes: bool,
    /// A letter for the host of each ask.
    hosts: String,
    /// A word for each link of the wire, with letters for what comes on it.
    wire: String,
}

/// The piece that a letter stands for, and how often it comes: a reply that keeps the link, one that closes it, the front
/// of one, one that is refused, and no byte.
fn piece_of(letter: char) -> (&'static str, u32) {
    match letter {
        'k' => (KEPT, 1),
        'c' => (CLOSED, 1),
        'f' => (FRONT, 1),
        'x' => (REFUSED, 1),
        'w' => ("", 499),
        'a' | '.' => ("", 0),
        _ => ("", 1),
    }
}

/// Adds the pieces that a letter stands for.
fn add_pieces(alloc: Global, letter: char, pieces: &mut Vec<Bytes>) -> Result<(), OutOfMemory> {
    let (piece, times) = piece_of(letter);
    for _ in 0..times {
        add_piece(alloc, piece.as_bytes(), pieces)?;
    }
    Ok(())
}

/// The script of one of so many links. It begins with an `a` where its first piece comes once all
/// of them had a byte sent, and ends with a point where the link ends.
fn script(alloc: Global, word: &str, links: u64) -> Result<Script, OutOfMemory> {
    let after = if word.starts_with('a') { links } else { 0 };
    let ends = word.ends_with('.');
    let mut pieces = Vec::new(alloc);
    for letter in word.chars() {
        add_pieces(alloc, letter, &mut pieces)?;
    }
    Ok(Script {
        after,
        pieces,
        ends,
        most: 65536,
    })
}

/// The scripts of links, by a word for each.
fn scripts(alloc: Global, words: &str) -> Result<Vec<Script>, OutOfMemory> {
    let links = words.split_whitespace().count() as u64;
    let mut scripts = Vec::new(alloc);
    for word in words.split_whitespace() {
        scripts.push(script(alloc, word, links)?)?;
    }
    Ok(scripts)
}

/// A pool that holds the asks.
fn pool_of(alloc: Global, asks: &Asks) -> Result<Pool, OutOfMemory>
    ensures suits { IfOk result (λ pool. (wire : WireState) → SuitsWire pool wire) }
{
    let links = asks.links.clamp(1, MOST_LINKS);
    let mut pool = Pool::new(alloc, links, asks.retries, asks.budget, 100);
    put_all(alloc, &mut pool, asks.hosts.as_bytes())?;
    Ok(pool)
}

/// Adds what comes of asks on a wire, and the paths that were asked for on each link.
fn add_told(
    alloc: Global,
    asks: &Asks,
    wire: &mut ScriptWire,
    told: &mut String,
) -> Result<(), OutOfMemory> {
    let mut pool = pool_of(alloc, asks)?;
    add_run(alloc, &mut pool, wire, asks.steps, asks.closes, told)?;
    add_requests(wire, false, told)
}

/// What comes of asks on a wire that fails these calls.
fn told_of(alloc: Global, asks: &Asks, failing: Failing) -> Result<String, OutOfMemory> {
    let scripts = scripts(alloc, asks.wire.as_str())?;
    let mut wire = scripted(alloc, scripts, failing)?;
    let mut told = String::new(alloc);
    add_told(alloc, asks, &mut wire, &mut told)?;
    Ok(told)
}

/// The member that is a number of 32 bits, or another where the row lacks it.
fn count_of(case: &mut Case<'_>, member: &str, other: u64) -> Result<u32, CaseFault> {
    match u32::try_from(case.number_if(member)?.unwrap_or(other)) {
        Ok(count) => Ok(count),
        Err(_) => Err(CaseFault::Row),
    }
}

/// `links`, `retries`, `budget`, `steps`, `closes`, `hosts`, `wire`: a pool, its asks and its wire.
fn asks_of(alloc: Global, case: &mut Case<'_>) -> Result<Asks, CaseFault> {
    let links = count_of(case, "links", 1)?;
    let retries = count_of(case, "retries", 0)?;
    let budget = case.number_if("budget")?.unwrap_or(9);
    let steps = count_of(case, "steps", 10_000)?;
    let closes = case.flag("closes")?;
    let hosts = case.text(alloc, "hosts")?;
    let wire = case.text(alloc, "wire")?;
    Ok(Asks {
        links,
        retries,
        budget,
        steps,
        closes,
        hosts,
        wire,
    })
}

/// `links`, `retries`, `budget`, `hosts`, `wire`, `fails`, `dials`: what comes of a pool of which so many exchanges may be
/// in flight (1), whose asks may be tried again so often (0) and which may start so many exchanges (9), where it holds an
/// ask for each letter of `hosts`: the tickets in the order in which their replies came, the end, the next step, and the
/// paths that were asked for on each link. `wire` has a word for each link, with letters for what comes on it: `k` and
/// `c` a reply that keeps the link or closes it, `f` the front of one, `x` one that is refused, `-` no byte, and `w` that
/// 499 times; it begins with `a` where this comes once a byte was sent on each link, and a point ends it where the link
/// ends. With `closes` the pool is closed after so many `steps`, and it is told what comes of one more ask. With `end`
/// nothing is told but `idle`, where it ends so.
pub fn pool(alloc: Global, case: &mut Case<'_>) -> Result<String, CaseFault> {
    let end = case.flag("end")?;
    let asks = asks_of(alloc, case)?;
    let failing = failing_of(alloc, case)?;
    let told = answer_of(told_of(alloc, &asks, failing))?;
    if end && told.as_str().contains("idle; idle") {
        return word_text(alloc, "idle");
    }
    Ok(told)
}

// A connection, and what it gives.
ghost use Rattle.std.specs.Prelude.{◌≡◌, ◌<◌, true};
ghost use Rattle.tpf_server.specs.Conversation.{wants_reload};

use crate::servers::table_of;
use case_rows::{CaseFault, bytes_text};
use std::alloc::Global;
use std::str;
use tpf_base::HIGHEST_NUMBER;
use tpf_server::{Connection, Reloaded, Server};

/// Feeds a piece.
fn feed_piece(server: &Server, connection: &mut Connection, piece: &[u8]) -> Result<(), CaseFault> {
    match connection.feed(server, piece) {
        Ok(()) => Ok(()),
        Err(_) => Err(CaseFault::OutOfMemory),
    }
}

/// Feeds bytes in pieces of a length.
pub fn feed(
    server: &Server,
    connection: &mut Connection,
    bytes: &[u8],
    length: usize,
) -> Result<(), CaseFault> {
    for piece in bytes.chunks(length.max(1)) {
        feed_piece(server, connection, piece)?;
    }
    Ok(())
}

/// Has some of what is owed made, and says how many bytes are pending then.
pub fn fill(server: &Server, connection: &mut Connection) -> Result<usize, CaseFault> {
    match connection.fill(server) {
        Ok(()) => Ok(connection.pending().len()),
        Err(_) => Err(CaseFault::OutOfMemory),
    }
}

/// Appends at most so many of the bytes that are pending, which are taken, and says how many.
fn take_pending(
    connection: &mut Connection,
    most: usize,
    out: &mut Vec<u8>,
) -> Result<usize, CaseFault> {
    let n = connection.pending().len().min(most);
    out.extend_from_slice(&connection.pending()[..n])?;
    connection.take(n);
    Ok(n)
}

/// Takes so many bytes, and fewer where no more are owed.
pub fn taken(
    alloc: Global,
    server: &Server,
    connection: &mut Connection,
    count: usize,
) -> Result<String, CaseFault> {
    let mut out = Vec::new(alloc);
    for _ in 0..count {
        let most = count.saturating_sub(out.len());
        let _ = fill(server, connection)?;
        if take_pending(connection, most, &mut out)? == 0 {
            break;
        }
    }
    bytes_text(alloc, out.as_slice())
}

/// What is pending, as a text.
pub fn pending_text(connection: &Connection) -> &str {
    str::from_utf8(connection.pending()).unwrap_or("")
}

/// Takes at most a thousand bytes of those that are pending, and says how many are pending before, and how many are
/// taken.
fn take_thousand(
    server: &Server,
    connection: &mut Connection,
) -> Result<(usize, usize), CaseFault> {
    let _ = fill(server, connection)?;
    let pending = connection.pending().len();
    let n = pending.min(1000);
    connection.take(n);
    Ok((pending, n))
}

/// The most bytes that are pending while all that is owed is taken a thousand bytes at a time, and how many there are
/// in all.
pub fn taken_slowly(
    server: &Server,
    connection: &mut Connection,
) -> Result<(usize, usize), CaseFault> {
    let mut most = 0usize;
    let mut all = 0usize;
    for _ in 0..1000 {
        let (pending, n) = take_thousand(server, connection)?;
        most = most.max(pending);
        all = all.saturating_add(n);
    }
    Ok((most, all))
}

/// The next version of the server, with these data.
pub fn read_again(alloc: Global, server: &mut Server, data: &str) -> Result<(), CaseFault> {
    if server.version() >= HIGHEST_NUMBER {
        return Err(CaseFault::Row);
    }
    let table = table_of(alloc, data)?;
    match server.reload(table) {
        Ok(_) => Ok(()),
        Err(_) => Err(CaseFault::OutOfMemory),
    }
}

/// Tells the outcome of the reload that is waited for, which is no version.
fn told(server: &Server, connection: &mut Connection, failed: bool) -> Result<(), CaseFault>
    requires { wants_reload connection.old ≡ true }
{
    let outcome = if failed {
        Reloaded::Failed
    } else {
        Reloaded::OutOfMemory
    };
    match connection.reloaded(server, outcome) {
        Ok(()) => Ok(()),
        Err(_) => Err(CaseFault::OutOfMemory),
    }
}

/// Tells that the version that is served now was read.
fn told_version(server: &Server, connection: &mut Connection) -> Result<(), CaseFault>
    requires { wants_reload connection.old ≡ true }
{
    let version = server.version();
    match connection.reloaded(server, Reloaded::Version(version)) {
        Ok(()) => Ok(()),
        Err(_) => Err(CaseFault::OutOfMemory),
    }
}

/// The outcome of a reload: `failed`, `memory`, or the data of the next version.
pub fn reload(
    alloc: Global,
    server: &mut Server,
    connection: &mut Connection,
    text: &str,
) -> Result<(), CaseFault> {
    if !connection.wants_reload() {
        return Err(CaseFault::Row);
    }
    if text == "failed" || text == "memory" {
        return told(server, connection, text == "failed");
    }
    read_again(alloc, server, text)?;
    told_version(server, connection)
}

/// How a connection stands.
pub fn standing(connection: &Connection) -> &'static str {
    if connection.wants_reload() {
        return "waits";
    }
    if connection.owes() || !connection.pending().is_empty() {
        return "owes";
    }
    if connection.closing() {
        return "ended";
    }
    "open"
}

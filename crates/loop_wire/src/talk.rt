// What the wire does with a connection.
ghost use Rattle.std.specs.Prelude.{◌≡◌, ◌<◌, ◌≤◌, [], length, take, false, OnOk};
ghost use Rattle.loop_wire.specs.Response.{Continues, Stays};

use crate::RespondsAt;
use connections::Reloaded;
use tpf_base::OutOfMemory;

/// Answers each reload request that waits as one that failed, since this wire has no other data.
fn refuse_reloads<C: RespondsAt>(connection: &mut C, server: &C::Server) -> Result<(), OutOfMemory>
    requires { C.Suits server.now connection.old }
    ensures suits { OnOk result (C.Suits server.now connection.new) }
    ensures wants { OnOk result (C.kind.wants connection.new ≡ false) }
    ensures stays { OnOk result (Stays C.kind (C.Server.serving server.now) connection.old connection.new) }
{
    // No memory holds so many requests: the loop ends with its first test that finds none.
    for _ in 0..u64::MAX {
        if !connection.wants_reload() {
            return Ok(());
        }
        connection.reloaded(server, Reloaded::Failed)?;
    }
    Err(OutOfMemory)
}

/// Feeds bytes that were sent.
pub fn feed<C: RespondsAt>(
    connection: &mut C,
    server: &C::Server,
    piece: &[u8],
) -> Result<(), OutOfMemory>
    requires { C.Suits server.now connection.old }
    ensures suits { OnOk result (C.Suits server.now connection.new) }
    ensures feeds { OnOk result (Continues C.kind (C.Server.serving server.now) piece.now []
        connection.old connection.new) }
{
    refuse_reloads(connection, server)?;
    connection.feed(server, piece)?;
    Ok(())
}

/// Makes bytes of the response, unless none is owed.
pub fn prepare<C: RespondsAt>(connection: &mut C, server: &C::Server) -> Result<(), OutOfMemory>
    requires { C.Suits server.now connection.old }
    ensures suits { OnOk result (C.Suits server.now connection.new) }
    ensures stays { OnOk result (Stays C.kind (C.Server.serving server.now) connection.old connection.new) }
    ensures wants { OnOk result (C.kind.wants connection.new ≡ false) }
    ensures owes { OnOk result (C.kind.pending connection.new ≡ [] → C.kind.owes connection.new ≡ false) }
{
    refuse_reloads(connection, server)?;
    connection.fill(server)?;
    Ok(())
}

/// Takes a prefix of what is pending into the start of the buffer, at most so many bytes, and answers
/// how many.
pub fn hand_out<C: RespondsAt>(connection: &mut C, most: usize, to: &mut [u8]) -> usize
    requires some { 0 < length (C.kind.pending connection.old) }
    requires most { 0 < most }
    requires room { 0 < length to.old }
    ensures moved { 0 < result }
    ensures most { result ≤ most }
    ensures within { result ≤ length to.new }
    ensures pending { result ≤ length (C.kind.pending connection.old) }
    ensures bytes { take result to.new ≡ take result (C.kind.pending connection.old) }
    ensures suits { (server : C.Server) → C.Suits server connection.old → C.Suits server connection.new }
    ensures takes { (serving : _)
        → Continues C.kind serving [] (take result (C.kind.pending connection.old)) connection.old connection.new }
{
    let pending = connection.pending();
    let n = pending.len().min(to.len()).min(most);
    to[..n].copy_from_slice(&pending[..n]);
    connection.take(n);
    n
}

// One step of one connection.
ghost use Rattle.std.specs.Prelude.{ℕ, ◌≡◌, ◌≢◌, ◌<◌, ◌≤◌, [], length, OnOk, Some, true, false, ◌↔◌, is_ok};
ghost use Rattle.tpf_base.specs.Links.{WireState, Sending, Receiving};
ghost use Rattle.tpf_base.specs.Calls.{Closes, Sends};
ghost use Rattle.connections.specs.Versions.{Serving, SupplyState};
ghost use Rattle.connections.specs.Kinds.{Takes, IsOutcome};
ghost use Rattle.serve_loop.specs.Traffic.{moment};
ghost use Rattle.serve_loop.specs.Asks.{AnswersAt};
ghost use Rattle.serve_loop.specs.declared.live.TheConstants.{MOST_RECEIVED};
ghost use Rattle.serve_loop.specs.Calls.{HasCalled, CallsOnly, GoesOnSpeaking, IsPrepared, IsQuiet, StepsLive, front_of, left_by};
ghost use Rattle.serve_loop.specs.Steps.{Supplies, StepsOn, StepsLink, Makes, Prepares, AnswersPiece, Hears, IsReady};

use crate::live::{Live, MOST_SENT, Stepped};
use connections::{Converses, Reloaded, Serves, Supply};
use tpf_base::{Fault, HIGHEST_NUMBER, Moved, OutOfMemory, Wire};

/// How a receive came out.
#[derive(Clone, Copy)]
pub enum Received {
    Fed,
    End,
    NotYet,
    Failed,
    Starved,
}

/// Makes the supply's next table the next version.
fn reload<V: Serves, S: Supply<V>>(server: &mut V, supply: &mut S) -> Reloaded
    ensures outcome { IsOutcome (V.serving server.new) result }
    ensures supplies { (wire : WireState) → Supplies (S.may supply.old) result
        (moment (V.serving server.old) (S.state supply.old) wire)
        (moment (V.serving server.new) (S.state supply.new) wire) }
    ensures follows { V.Follows server.old server.new }
    ensures keeps { S.Keeps supply.old supply.new }
    ensures same { (data_set : V.Data) → S.may supply.new data_set ↔ S.may supply.old data_set }
{
    if server.version() == HIGHEST_NUMBER {
        return Reloaded::Failed;
    }
    match supply.next() {
        Ok(table) => match server.reload(table) {
            Ok(version) => Reloaded::Version(version),
            Err(_) => Reloaded::OutOfMemory,
        },
        Err(Fault::Failed) => Reloaded::Failed,
        Err(Fault::OutOfMemory) => Reloaded::OutOfMemory,
    }
}

/// Sends a prefix of what is pending, at most `MOST_SENT` bytes.
fn send_pending<C: Converses, W: Wire>(live: &mut Live<C>, wire: &mut W) -> Moved
    requires is_open { ((W.state wire.old).links live.old.link).is_open ≡ true }
    requires some { 0 < length (C.kind.pending live.old.connection) }
    ensures sends { Sends live.old.link (front_of (C.kind.pending live.old.connection)) (W.state wire.old)
        (W.state wire.new) result }
    ensures moved { (n : ℕ) → result ≡ Moved.Moved n → Takes C.kind n live.old.connection live.new.connection }
    ensures still { ((n : ℕ) → result ≢ Moved.Moved n) → live.new ≡ live.old }
    ensures link { live.new.link ≡ live.old.link }
    ensures suits { (server : C.Server) → C.Suits server live.old.connection → C.Suits server live.new.connection }
{
    let pending = live.connection.pending();
    let most = MOST_SENT.min(pending.len());
    let moved = wire.send(live.link, &pending[..most]);
    if let Moved::Moved(n) = moved {
        live.connection.take(n);
    }
    moved
}

/// Feeds bytes to the connection, and makes bytes of the response: so those of several links are made one
/// after another and then sent one after another, and the other ends are woken together.
fn feed<C: Converses>(
    live: &mut Live<C>,
    server: &C::Server,
    piece: &[u8],
) -> Result<(), OutOfMemory>
    requires suits { C.Suits server.now live.old.connection }
    requires idle { C.kind.wants live.old.connection ≡ false }
    ensures answers { OnOk result (AnswersPiece C.kind (C.Server.serving server.now) piece.now
        live.old.connection live.new.connection) }
    ensures link { live.new.link ≡ live.old.link }
    ensures suits { OnOk result (C.Suits server.now live.new.connection) }
{
    live.connection.feed(server, piece)?;
    make(live, server)
}

/// Receives bytes by the buffer, feeds them to the connection, and makes bytes of the response.
fn receive<C: Converses, W: Wire>(
    live: &mut Live<C>,
    buffer: &mut [u8],
    server: &C::Server,
    wire: &mut W,
) -> Received
    requires room { 0 < length buffer.old }
    requires most { length buffer.old ≤ MOST_RECEIVED }
    requires is_open { ((W.state wire.old).links live.old.link).is_open ≡ true }
    requires suits { C.Suits server.now live.old.connection }
    requires idle { C.kind.wants live.old.connection ≡ false }
    ensures room { length buffer.new ≡ length buffer.old }
    ensures hears { Hears C.kind (C.Server.serving server.now) live.old.link live.old.connection live.new.connection
        (W.state wire.old) (W.state wire.new) result }
    ensures link { live.new.link ≡ live.old.link }
    ensures suits { result ≢ Received.Starved → C.Suits server.now live.new.connection }
{
    match wire.recv(live.link, buffer) {
        Moved::Moved(n) => match feed(live, server, &buffer[..n]) {
            Ok(()) => Received::Fed,
            Err(_) => Received::Starved,
        },
        Moved::End => Received::End,
        Moved::NotYet => Received::NotYet,
        Moved::Failed => Received::Failed,
        Moved::OutOfMemory => Received::Starved,
    }
}

/// Answers a waiting reload request by the supply's next table.
fn answer_reload<C: Converses, S: Supply<C::Server>>(
    live: &mut Live<C>,
    server: &mut C::Server,
    supply: &mut S,
) -> Result<(), OutOfMemory>
    requires suits { C.Suits server.old live.old.connection }
    requires wants { C.kind.wants live.old.connection ≡ true }
    ensures prepares { (wire : WireState) → Prepares C.kind (S.may supply.old) live.old live.new (is_ok result)
        (moment (C.Server.serving server.old) (S.state supply.old) wire)
        (moment (C.Server.serving server.new) (S.state supply.new) wire) }
    ensures asks { (wire : WireState) → AnswersAt C.kind (S.may supply.old) (Some live.old)
        (moment (C.Server.serving server.old) (S.state supply.old) wire)
        (moment (C.Server.serving server.new) (S.state supply.new) wire) }
    ensures link { live.new.link ≡ live.old.link }
    ensures owes { OnOk result (C.kind.owes live.new.connection ≡ true) }
    ensures suits { OnOk result (C.Suits server.new live.new.connection) }
    ensures follows { C.Server.Follows server.old server.new }
    ensures keeps { S.Keeps supply.old supply.new }
    ensures same { (data_set : C.Server.Data) → S.may supply.new data_set ↔ S.may supply.old data_set }
{
    let outcome = reload(server, supply);
    live.connection.reloaded(server, outcome)
}

/// Makes further bytes of the response, unless as many are pending as one call sends.
fn make<C: Converses>(live: &mut Live<C>, server: &C::Server) -> Result<(), OutOfMemory>
    requires suits { C.Suits server.now live.old.connection }
    ensures makes { OnOk result (Makes C.kind (C.Server.serving server.now) live.old.connection live.new.connection) }
    ensures link { live.new.link ≡ live.old.link }
    ensures suits { OnOk result (C.Suits server.now live.new.connection) }
{
    if live.connection.pending().len() >= MOST_SENT {
        return Ok(());
    }
    live.connection.fill(server)
}

/// Answers a reload request where one waits, and makes bytes of the response.
fn prepare<C: Converses, S: Supply<C::Server>>(
    live: &mut Live<C>,
    server: &mut C::Server,
    supply: &mut S,
) -> Result<(), OutOfMemory>
    requires suits { C.Suits server.old live.old.connection }
    ensures prepares { (wire : WireState) → Prepares C.kind (S.may supply.old) live.old live.new (is_ok result)
        (moment (C.Server.serving server.old) (S.state supply.old) wire)
        (moment (C.Server.serving server.new) (S.state supply.new) wire) }
    ensures asks { (wire : WireState) → AnswersAt C.kind (S.may supply.old) (Some live.old)
        (moment (C.Server.serving server.old) (S.state supply.old) wire)
        (moment (C.Server.serving server.new) (S.state supply.new) wire) }
    ensures link { live.new.link ≡ live.old.link }
    ensures ready { OnOk result (IsReady C.kind live.new.connection) }
    ensures prepared { OnOk result (IsPrepared C.kind live.old.connection live.new.connection) }
    ensures suits { OnOk result (C.Suits server.new live.new.connection) }
    ensures follows { C.Server.Follows server.old server.new }
    ensures keeps { S.Keeps supply.old supply.new }
    ensures same { (data_set : C.Server.Data) → S.may supply.new data_set ↔ S.may supply.old data_set }
{
    if live.connection.wants_reload() {
        answer_reload(live, server, supply)?;
        return make(live, server);
    }
    make(live, server)
}

/// Whether a connection closes, and all of its response was sent.
fn is_over<C: Converses>(connection: &C) -> bool
    ensures quiet { result ≡ true → IsQuiet C.kind connection.now }
    ensures closes { result ≡ true → C.kind.closing connection.now ≡ true }
    ensures goes_on { result ≡ false → C.kind.closing connection.now ≡ true → IsQuiet C.kind connection.now → ⊥ }
{
    connection.closing() && !connection.owes() && connection.pending().is_empty()
}

/// Closes the link of a connection that ended so, and says how.
fn close<W: Wire>(link: u64, stepped: Stepped, wire: &mut W) -> Stepped
    requires { ((W.state wire.old).links link).is_open ≡ true }
    ensures stepped { result ≡ stepped }
    ensures closes { Closes link (W.state wire.old) (W.state wire.new) }
{
    wire.close(link);
    stepped
}

/// Sends what is pending. A link that fails is closed, and that of a connection that closes too, once all
/// was sent on it.
fn send_step<C: Converses, W: Wire>(live: &mut Live<C>, wire: &mut W) -> Stepped
    requires is_open { ((W.state wire.old).links live.old.link).is_open ≡ true }
    requires some { 0 < length (C.kind.pending live.old.connection) }
    ensures steps { (served : Serving C.Server.Data C.Server.Settings) (supply : SupplyState C.Server.Data) →
        StepsLink C.kind live.old.link live.old.connection live.new.connection result
        (moment served supply (W.state wire.old))
        (moment served supply (W.state wire.new)) }
    ensures called { HasCalled result live.old.link (W.state wire.old) (W.state wire.new) Sending }
    ensures lasts { left_by result live.new ≡ Some live.new → C.kind.closing live.new.connection ≡ true →
        IsQuiet C.kind live.new.connection → ⊥ }
    ensures only { CallsOnly live.old.link (W.state wire.old) (W.state wire.new) }
    ensures kept { live.new.link ≡ live.old.link }
    ensures is_open { left_by result live.new ≡ Some live.new →
        ((W.state wire.new).links live.old.link).is_open ≡ true }
    ensures suits { (server : C.Server) → C.Suits server live.old.connection → C.Suits server live.new.connection }
{
    match send_pending(live, wire) {
        Moved::Moved(_) => {
            if is_over(&live.connection) {
                return close(live.link, Stepped::Ended, wire);
            }
            Stepped::Moved
        }
        Moved::NotYet => Stepped::Still,
        Moved::OutOfMemory => close(live.link, Stepped::Starved, wire),
        Moved::Failed => close(live.link, Stepped::Ended, wire),
        Moved::End => close(live.link, Stepped::Ended, wire),
    }
}

/// Receives, feeds, and makes bytes of the response. A link that fails is closed, and one that has ended too:
/// nothing is owed on it.
fn receive_step<C: Converses, W: Wire>(
    live: &mut Live<C>,
    buffer: &mut [u8],
    server: &C::Server,
    wire: &mut W,
) -> Stepped
    requires room { 0 < length buffer.old }
    requires most { length buffer.old ≤ MOST_RECEIVED }
    requires is_open { ((W.state wire.old).links live.old.link).is_open ≡ true }
    requires suits { C.Suits server.now live.old.connection }
    requires ready { IsReady C.kind live.old.connection }
    requires none { C.kind.pending live.old.connection ≡ [] }
    ensures room { length buffer.new ≡ length buffer.old }
    ensures steps { (supply : SupplyState C.Server.Data) →
        StepsLink C.kind live.old.link live.old.connection live.new.connection result
        (moment (C.Server.serving server.now) supply (W.state wire.old))
        (moment (C.Server.serving server.now) supply (W.state wire.new)) }
    ensures called { HasCalled result live.old.link (W.state wire.old) (W.state wire.new) Receiving }
    ensures only { CallsOnly live.old.link (W.state wire.old) (W.state wire.new) }
    ensures kept { live.new.link ≡ live.old.link }
    ensures is_open { left_by result live.new ≡ Some live.new →
        ((W.state wire.new).links live.old.link).is_open ≡ true }
    ensures suits { left_by result live.new ≡ Some live.new → C.Suits server.now live.new.connection }
{
    match receive(live, buffer, server, wire) {
        Received::Fed => Stepped::Moved,
        Received::NotYet => Stepped::Still,
        Received::End => close(live.link, Stepped::Ended, wire),
        Received::Failed => close(live.link, Stepped::Ended, wire),
        Received::Starved => close(live.link, Stepped::Starved, wire),
    }
}

/// Steps a connection: answers a reload request where one waits, makes bytes of the response, and then
/// sends what is pending; where nothing is, it ends the connection if that closes, and receives if not, and
/// makes bytes of the response to what came. A connection that closes ends with the last byte that is sent.
pub fn step<C: Converses, S: Supply<C::Server>, W: Wire>(
    live: &mut Live<C>,
    buffer: &mut [u8],
    server: &mut C::Server,
    supply: &mut S,
    wire: &mut W,
) -> Stepped
    requires room { 0 < length buffer.old }
    requires most { length buffer.old ≤ MOST_RECEIVED }
    requires is_open { ((W.state wire.old).links live.old.link).is_open ≡ true }
    requires suits { C.Suits server.old live.old.connection }
    ensures room { length buffer.new ≡ length buffer.old }
    ensures steps { StepsOn C.kind (S.may supply.old) live.old live.new result
        (moment (C.Server.serving server.old) (S.state supply.old) (W.state wire.old))
        (moment (C.Server.serving server.new) (S.state supply.new) (W.state wire.new)) }
    ensures asks { (same : WireState) → AnswersAt C.kind (S.may supply.old) (Some live.old)
        (moment (C.Server.serving server.old) (S.state supply.old) same)
        (moment (C.Server.serving server.new) (S.state supply.new) same) }
    ensures called { StepsLive C.kind live.old.connection result live.old.link (W.state wire.old) (W.state wire.new) }
    ensures lasts { left_by result live.new ≡ Some live.new →
        GoesOnSpeaking C.kind live.old.connection live.new.connection }
    ensures only { CallsOnly live.old.link (W.state wire.old) (W.state wire.new) }
    ensures kept { live.new.link ≡ live.old.link }
    ensures is_open { left_by result live.new ≡ Some live.new →
        ((W.state wire.new).links live.old.link).is_open ≡ true }
    ensures suits { left_by result live.new ≡ Some live.new → C.Suits server.new live.new.connection }
    ensures follows { C.Server.Follows server.old server.new }
    ensures keeps { S.Keeps supply.old supply.new }
    ensures same { (data_set : C.Server.Data) → S.may supply.new data_set ↔ S.may supply.old data_set }
{
    if prepare(live, server, supply).is_err() {
        return close(live.link, Stepped::Starved, wire);
    }
    if !live.connection.pending().is_empty() {
        return send_step(live, wire);
    }
    if live.connection.closing() {
        return close(live.link, Stepped::Ended, wire);
    }
    receive_step(live, buffer, server, wire)
}

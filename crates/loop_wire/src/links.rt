// The links of a wire by their number.
ghost use Rattle.std.specs.Prelude.{ℕ, ◌≡◌, ◌<◌, ◌≤◌, List, [], ◌∷◌, ◌++◌, length, set, get_or, Option, Some, is_some, true, false, IfSome, IfNone, OnOk, OnErr};
ghost use Rattle.loop_wire.specs.Held.{no_link, new_link, settled, closed, woken_now, Hears, Gives};
ghost use Rattle.loop_wire.specs.Standing.{owed_to};
ghost use Rattle.loop_wire.specs.Looped.{held_of, IsServed, AreServed};

use crate::held::HeldLink;
use crate::link::LoopLink;
use crate::{Behind, RespondsAt};
use tpf_base::{Moved, OutOfMemory, Text};

/// Gives a link to this host and port, on which nothing happened yet.
pub fn give<C: RespondsAt>(
    links: &mut Vec<LoopLink<C>>,
    host: &str,
    port: u16,
) -> Result<(), OutOfMemory>
    ensures held { OnOk result (held_of links.new.items
        ≡ held_of links.old.items ++ new_link (Some (host.now, port)) ∷ []) }
    ensures kept { OnOk result ((there : Option (List ℕ × ℕ) → Option C.Server)
        → is_some (there (Some (host.now, port))) ≡ true
        → AreServed C.kind C.Suits C.Server.serving C.response_at there links.old.items
        → AreServed C.kind C.Suits C.Server.serving C.response_at there links.new.items) }
    ensures err { OnErr result (links.new.items ≡ links.old.items) }
{
    let alloc = *links.allocator();
    let host = Text::copy(alloc, host)?;
    let link = LoopLink {
        held: HeldLink::new(alloc, host, port),
        connection: Some(C::new(alloc)),
    };
    links.push(link)?;
    Ok(())
}

/// The first link from this one to that one which may move a byte.
fn first_ripe<C: RespondsAt>(links: &[LoopLink<C>], from: usize, to: usize) -> Option<usize>
    requires { to ≤ length links.now }
    ensures found { IfSome result (λ k. (k < length links.now) × ((get_or (held_of links.now) k no_link).ripe ≡ true)) }
    ensures none { IfNone result ((k : ℕ) → k < to → from ≤ k
        → (get_or (held_of links.now) k no_link).ripe ≡ false) }
{
    for k in from..to {
        if links[k].held.is_ripe() {
            return Some(k);
        }
    }
    None
}

/// A link that may move a byte: the first one behind this place, or else before it.
fn ripe_link<C: RespondsAt>(links: &[LoopLink<C>], start: usize) -> Option<usize>
    requires { start ≤ length links.now }
    ensures found { IfSome result (λ k. (k < length links.now) × ((get_or (held_of links.now) k no_link).ripe ≡ true)) }
    ensures none { IfNone result ((k : ℕ) → k < length links.now
        → (get_or (held_of links.now) k no_link).ripe ≡ false) }
{
    match first_ripe(links, start, links.len()) {
        Some(k) => Some(k),
        None => first_ripe(links, 0, start),
    }
}

/// The link that a wait answers: none where the wait before it woke one and no byte moved since.
pub fn next_ripe<C: RespondsAt>(links: &[LoopLink<C>], start: usize, woke: bool) -> Option<usize>
    requires { start ≤ length links.now }
    ensures found { IfSome result (λ k. (k < length links.now) × ((get_or (held_of links.now) k no_link).ripe ≡ true)) }
    ensures first { IfSome result (λ k. woke ≡ false) }
    ensures none { IfNone result (woke ≡ false → (k : ℕ) → k < length links.now
        → (get_or (held_of links.now) k no_link).ripe ≡ false) }
{
    if woke {
        return None;
    }
    ripe_link(links, start)
}

/// The last call on this link did not stall.
pub fn settle<C: RespondsAt>(links: &mut [LoopLink<C>], k: usize)
    requires { k < length links.old }
    ensures held { held_of links.new ≡ set (held_of links.old) k (settled (get_or (held_of links.old) k no_link)) }
    ensures kept { (there : Option (List ℕ × ℕ) → Option C.Server)
        → AreServed C.kind C.Suits C.Server.serving C.response_at there links.old
        → AreServed C.kind C.Suits C.Server.serving C.response_at there links.new }
{
    links[k].held.settle();
}

/// A wait answered this link, which is ripe.
pub fn wake<C: RespondsAt>(links: &mut [LoopLink<C>], k: usize)
    requires below { k < length links.old }
    requires ripe { (get_or (held_of links.old) k no_link).ripe ≡ true }
    ensures held { held_of links.new ≡ set (held_of links.old) k (woken_now (get_or (held_of links.old) k no_link)) }
    ensures kept { (there : Option (List ℕ × ℕ) → Option C.Server)
        → AreServed C.kind C.Suits C.Server.serving C.response_at there links.old
        → AreServed C.kind C.Suits C.Server.serving C.response_at there links.new }
{
    links[k].held.wake();
}

/// Nothing moves on this link from now on.
pub fn close<C: RespondsAt>(links: &mut [LoopLink<C>], k: usize)
    requires { k < length links.old }
    ensures held { held_of links.new ≡ set (held_of links.old) k (closed (get_or (held_of links.old) k no_link)) }
    ensures kept { (there : Option (List ℕ × ℕ) → Option C.Server)
        → AreServed C.kind C.Suits C.Server.serving C.response_at there links.old
        → AreServed C.kind C.Suits C.Server.serving C.response_at there links.new }
{
    links[k].close();
}

/// The server that answers this link.
fn server_of<'a, C: RespondsAt, B: Behind<C>>(
    servers: &'a B::Servers,
    link: &LoopLink<C>,
) -> &'a C::Server
    requires { IsServed C.kind C.Suits C.Server.serving C.response_at (B.server_of servers.now) link.now }
    ensures { B.server_of servers.now link.now.held.peer ≡ Some result.now }
{
    let (host, port) = link.held.peer();
    match B::server_at(servers, host, port) {
        Some(server) => server,
        None => unreachable!(),
    }
}

/// Sends these bytes on a link by the server that answers it, unless the call is to stall.
fn send_on<C: RespondsAt, B: Behind<C>>(
    link: &mut LoopLink<C>,
    servers: &B::Servers,
    stalls: bool,
    front: &[u8],
) -> Moved
    requires is_open { link.old.held.is_open ≡ true }
    requires served { IsServed C.kind C.Suits C.Server.serving C.response_at (B.server_of servers.now) link.old }
    ensures hears { Hears stalls front.now link.old.held link.new.held result }
    ensures served { IsServed C.kind C.Suits C.Server.serving C.response_at (B.server_of servers.now) link.new }
{
    let server = server_of::<C, B>(servers, link);
    link.send(server, stalls, front)
}

/// Sends these bytes on this open link, unless the call is to stall.
pub fn send<C: RespondsAt, B: Behind<C>>(
    links: &mut [LoopLink<C>],
    k: usize,
    servers: &B::Servers,
    stalls: bool,
    front: &[u8],
) -> Moved
    requires below { k < length links.old }
    requires is_open { (get_or (held_of links.old) k no_link).is_open ≡ true }
    requires kept { AreServed C.kind C.Suits C.Server.serving C.response_at (B.server_of servers.now) links.old }
    ensures hears { Hears stalls front.now
        (get_or (held_of links.old) k no_link) (get_or (held_of links.new) k no_link) result }
    ensures held { held_of links.new ≡ set (held_of links.old) k (get_or (held_of links.new) k no_link) }
    ensures kept { AreServed C.kind C.Suits C.Server.serving C.response_at (B.server_of servers.now) links.new }
{
    send_on::<C, B>(&mut links[k], servers, stalls, front)
}

/// Receives at most so many bytes on a link from the server that answers it, unless the call is to stall.
fn receive_on<C: RespondsAt, B: Behind<C>>(
    link: &mut LoopLink<C>,
    servers: &B::Servers,
    stalls: bool,
    most: usize,
    to: &mut [u8],
) -> Moved
    requires is_open { link.old.held.is_open ≡ true }
    requires most { 0 < most }
    requires room { 0 < length to.old }
    requires served { IsServed C.kind C.Suits C.Server.serving C.response_at (B.server_of servers.now) link.old }
    ensures gives { Gives
        (owed_to C.response_at C.Server.serving B.server_of servers.now link.old.held.peer)
        most stalls to.new link.old.held link.new.held result }
    ensures served { IsServed C.kind C.Suits C.Server.serving C.response_at (B.server_of servers.now) link.new }
{
    let server = server_of::<C, B>(servers, link);
    link.receive(server, stalls, most, to)
}

/// Receives at most so many bytes on this open link, unless the call is to stall.
pub fn receive<C: RespondsAt, B: Behind<C>>(
    links: &mut [LoopLink<C>],
    k: usize,
    servers: &B::Servers,
    stalls: bool,
    most: usize,
    to: &mut [u8],
) -> Moved
    requires below { k < length links.old }
    requires is_open { (get_or (held_of links.old) k no_link).is_open ≡ true }
    requires most { 0 < most }
    requires room { 0 < length to.old }
    requires kept { AreServed C.kind C.Suits C.Server.serving C.response_at (B.server_of servers.now) links.old }
    ensures gives { Gives
        (owed_to C.response_at C.Server.serving B.server_of servers.now (get_or (held_of links.old) k no_link).peer)
        most stalls to.new (get_or (held_of links.old) k no_link) (get_or (held_of links.new) k no_link) result }
    ensures held { held_of links.new ≡ set (held_of links.old) k (get_or (held_of links.new) k no_link) }
    ensures kept { AreServed C.kind C.Suits C.Server.serving C.response_at (B.server_of servers.now) links.new }
{
    receive_on::<C, B>(&mut links[k], servers, stalls, most, to)
}

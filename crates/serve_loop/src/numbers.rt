// The numbers of the links of live connections.
ghost use Rattle.std.specs.Prelude.{ℕ, ◌≡◌, ◌+◌, ◌<◌, ◌≤◌, Some};
ghost use Rattle.slab.specs.Slab.{get};
ghost use Rattle.serve_loop.specs.Parts.{IsBeyond, IsNarrow};

use crate::live::Live;
use slab::Slab;

/// The older of a link and another one, where that is `next` or a later one.
fn older(link: u64, next: u64, oldest: u64) -> u64
    requires { next ≤ oldest }
    ensures older { result ≤ oldest }
    ensures next { next ≤ result }
    ensures this { next ≤ link → result ≤ link }
{
    if next <= link && link < oldest {
        return link;
    }
    oldest
}

/// The older of a link and that of the connection of a key, where that is `next` or a later one.
fn older_at<C: Drop>(live: &Slab<Live<C>>, key: usize, next: u64, oldest: u64) -> u64
    requires { next ≤ oldest }
    ensures older { result ≤ oldest }
    ensures next { next ≤ result }
    ensures this { (l : Live C) → get live.now key ≡ Some l → next ≤ l.link → result ≤ l.link }
{
    match live.get(key) {
        Some(connection) => older(connection.link, next, oldest),
        None => oldest,
    }
}

/// The oldest of the links of live connections that is `next` or a later one, or 2^64 - 1.
fn oldest_from<C: Drop>(live: &Slab<Live<C>>, next: u64) -> u64
    ensures next { next ≤ result }
    ensures oldest { (key : ℕ) (l : Live C) → get live.now key ≡ Some l → next ≤ l.link → result ≤ l.link }
{
    let mut oldest = u64::MAX;
    let keys = live.capacity();
    for key in 0..keys {
        oldest = older_at(live, key, next, oldest);
    }
    oldest
}

/// The later of a number and that behind a link.
fn later(link: u64, beyond: u64) -> u64
    ensures later { beyond ≤ result }
    ensures this { link ≤ result }
    ensures less { link < 18446744073709551615 → link < result }
    ensures within { (n : ℕ) → beyond ≤ n → link < n → result ≤ n }
{
    if link < beyond {
        return beyond;
    }
    link.saturating_add(1)
}

/// The later of a number and that behind the link of the connection of a key.
fn later_at<C: Drop>(live: &Slab<Live<C>>, key: usize, beyond: u64) -> u64
    ensures later { beyond ≤ result }
    ensures this { (l : Live C) → get live.now key ≡ Some l → l.link ≤ result }
    ensures less { (l : Live C) → get live.now key ≡ Some l → l.link < 18446744073709551615 → l.link < result }
    ensures within { (n : ℕ) → beyond ≤ n → ((l : Live C) → get live.now key ≡ Some l → l.link < n) → result ≤ n }
{
    match live.get(key) {
        Some(connection) => later(connection.link, beyond),
        None => beyond,
    }
}

/// The number behind the newest of the links of live connections, or 0.
pub fn beyond<C: Drop>(live: &Slab<Live<C>>) -> u64
    ensures { IsBeyond (get live.now) result }
{
    let mut beyond = 0u64;
    let keys = live.capacity();
    for key in 0..keys {
        beyond = later_at(live, key, beyond);
    }
    beyond
}

/// The last link of a row that begins with this one: it ends `spread` behind it, or with the last link of all
/// where no live one has the number `beyond` and that is not later.
fn row_end(oldest: u64, beyond: u64, spread: u64) -> u64
    ensures narrow { (link : ℕ) → link ≤ beyond → link ≤ result → link ≤ oldest + spread }
    ensures wide { result < 18446744073709551615 → oldest + spread ≤ result }
{
    let far = oldest.saturating_add(spread);
    if beyond <= far {
        return u64::MAX;
    }
    far
}

/// The last link of a row that begins at this number: it ends `spread` behind the first link of a live connection
/// there, or with the last link of all where that is not later. No live one has the number `beyond` or a later one,
/// so where the row reaches that number the connections are not looked through.
pub fn last_of_row<C: Drop>(live: &Slab<Live<C>>, first: u64, beyond: u64, spread: u64) -> u64
    requires { IsBeyond (get live.now) beyond }
    ensures narrow { IsNarrow (record { first = first; last = result; newest = 0 }) spread (get live.now) }
    ensures wide { result < 18446744073709551615 → first + spread ≤ result }
{
    let far = first.saturating_add(spread);
    if beyond <= far {
        return u64::MAX;
    }
    row_end(oldest_from(live, first), beyond, spread)
}

// The body of a reply, made of the bytes of the reply in place.
ghost use Rattle.std.specs.Prelude.{ℕ, List, ◌≡◌, ◌≤◌, ◌<◌, length};
ghost use Rattle.tpf_base.specs.HttpReply.{Gathered, Finished, begun, after_bytes};
ghost use Rattle.http_wire.specs.Replies.{closed_at};
ghost use Rattle.http_wire.specs.Places.{IsOpenAt, IsMoved};

use crate::stages::is_open;
use crate::state::{Part, State};

/// Reads on at a place of a reply's bytes, and moves what belongs to the body behind the body so
/// far, which lies at the front. Answers the place behind.
fn move_on(state: &mut State, bytes: &mut Vec<u8>, at: usize) -> usize
    requires more { at < length bytes.old.items }
    requires begins { state.old.begins ≤ at }
    requires few { state.old.count ≤ state.old.begins }
    requires goes_on { IsOpenAt state.old.stage }
    ensures moves { (whole : List ℕ) → IsMoved state.old whole bytes.old.items at
        → IsMoved state.new whole bytes.new.items result }
    ensures later { at < result }
    ensures within { result ≤ length bytes.new.items }
    ensures length { length bytes.new.items ≡ length bytes.old.items }
    ensures limit { state.new.limit ≡ state.old.limit }
{
    let count = state.count;
    let (next, part) = state.read(bytes.as_slice(), at);
    match part {
        Part::Body => {
            bytes.copy_within(at..next, count);
            next
        }
        Part::Line => next,
        Part::Frame => next,
    }
}

/// Moves the body of a whole reply to the front of its bytes and drops all else, in place: each run
/// of the body is moved once. Whether the connection can be used again.
pub fn compact(limit: u64, bytes: &mut Vec<u8>) -> bool
    ensures { (g : Gathered) → closed_at (after_bytes limit begun bytes.old.items) ≡ Finished g
        → (bytes.new.items ≡ g.body) × (result ≡ g.keeps) }
{
    let mut state = State::new(limit);
    let mut at = 0usize;
    while at < bytes.len() && is_open(state.stage) {
        at = move_on(&mut state, bytes, at);
    }
    bytes.truncate(state.count);
    state.keeps
}

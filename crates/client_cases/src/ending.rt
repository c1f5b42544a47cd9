// How a pool ends: with a fault, idle, or closed.
ghost use Rattle.std.specs.Prelude.{◌≡◌, []};
ghost use Rattle.tpf_base.specs.Links.{WireState};
ghost use Rattle.request_pool.specs.Pools.{held};
ghost use Rattle.request_pool.specs.Owned.{SuitsWire};

use crate::stepping::{add_steps, put_all};
use request_pool::Pool;
use std::alloc::Global;
use tpf_base::{Dial, OutOfMemory};

/// Closes a pool, and says whether it holds nothing then.
fn emptied<W: Dial>(pool: &mut Pool, wire: &mut W) -> bool
    requires suits { SuitsWire pool.old (W.state wire.old) }
    ensures none { held pool.new ≡ [] }
    ensures suits { (wire : WireState) → SuitsWire pool.new wire }
{
    pool.close(wire);
    pool.held() == 0 && pool.in_flight() == 0
}

/// Adds what comes of one ask that is put into a pool that holds nothing.
fn add_one_more<W: Dial>(
    alloc: Global,
    pool: &mut Pool,
    wire: &mut W,
    told: &mut String,
) -> Result<(), OutOfMemory>
    requires none { held pool.old ≡ [] }
    requires suits { (wire : WireState) → SuitsWire pool.old wire }
{
    told.push_str("| ")?;
    put_all(alloc, pool, b"e")?;
    add_steps(alloc, pool, wire, 10, told)
}

/// Adds what comes of a close, and of an ask that is put then.
fn add_closed<W: Dial>(
    alloc: Global,
    pool: &mut Pool,
    wire: &mut W,
    told: &mut String,
) -> Result<(), OutOfMemory>
    requires suits { SuitsWire pool.old (W.state wire.old) }
{
    if !emptied(pool, wire) {
        return Ok(told.push_str("| not empty")?);
    }
    add_one_more(alloc, pool, wire, told)
}

/// Adds what comes of at most so many steps, and then of one more, or of a close and of an ask that is put then.
pub fn add_run<W: Dial>(
    alloc: Global,
    pool: &mut Pool,
    wire: &mut W,
    most: u32,
    closes: bool,
    told: &mut String,
) -> Result<(), OutOfMemory>
    requires suits { SuitsWire pool.old (W.state wire.old) }
{
    add_steps(alloc, pool, wire, most, told)?;
    if closes {
        return add_closed(alloc, pool, wire, told);
    }
    told.push_str("; ")?;
    add_steps(alloc, pool, wire, 1, told)
}

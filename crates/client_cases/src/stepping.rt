// Stepping a pool by hand.
ghost use Rattle.std.specs.Prelude.{◌≡◌, []};
ghost use Rattle.tpf_base.specs.Links.{WireState};
ghost use Rattle.request_pool.specs.Pools.{held};
ghost use Rattle.request_pool.specs.Owned.{SuitsWire};

use request_pool::{Pool, PoolFault, Stepped};
use std::alloc::Global;
use std::str;
use template_fill::WebAddress;
use tpf_base::{Dial, OutOfMemory};

/// The address that a text is which is one, so that memory alone may run out.
pub fn address(alloc: Global, text: &str) -> Result<WebAddress, OutOfMemory> {
    match WebAddress::read(alloc, text) {
        Ok(address) => Ok(address),
        Err(_) => Err(OutOfMemory),
    }
}

/// The address of a path with this number, at a host with this letter.
fn numbered(alloc: Global, host: u8, number: usize) -> Result<WebAddress, OutOfMemory> {
    let text = format!(in alloc; "http://{}/{number}", host as char)?;
    address(alloc, text.as_str())
}

/// Puts an ask for each host, under the tickets 0, 1, 2 and so on, which its path has too.
pub fn put_all(alloc: Global, pool: &mut Pool, hosts: &[u8]) -> Result<(), OutOfMemory>
    requires none { held pool.old ≡ [] }
    ensures suits { (wire : WireState) → SuitsWire pool.old wire → SuitsWire pool.new wire }
{
    for (place, host) in hosts.iter().enumerate() {
        let address = numbered(alloc, *host, place)?;
        pool.put(place as u64, address)?;
    }
    Ok(())
}

/// The name of a fault of a pool.
fn fault_name(fault: &PoolFault) -> &'static str {
    match fault {
        PoolFault::Exchange => "exchange",
        PoolFault::Stalled => "stalled",
        PoolFault::Cut { .. } => "cut",
        PoolFault::Reply { .. } => "reply",
        PoolFault::Budget => "budget",
        PoolFault::OutOfMemory => "out of memory",
    }
}

/// The bytes that a fault hands over.
fn bytes_of(fault: &PoolFault) -> &[u8] {
    match fault {
        PoolFault::Cut { received } => received.as_slice(),
        PoolFault::Reply { received, .. } => received.as_slice(),
        _ => &[],
    }
}

/// Adds the ticket of a reply, and that its address is not the one that was asked for under it, where that is so.
fn add_answered(
    alloc: Global,
    ticket: u64,
    address: &WebAddress,
    told: &mut String,
) -> Result<(), OutOfMemory> {
    let word = format!(in alloc; "{ticket} ")?;
    told.push_str(word.as_str())?;
    if address.target().strip_prefix('/') != Some(word.trim_end()) {
        told.push_str("from elsewhere ")?;
    }
    Ok(())
}

/// Adds a step: the ticket of a reply, or the end, a fault behind the bytes that it hands over. Says whether another step
/// may follow.
fn add_step(
    alloc: Global,
    step: &Result<Stepped, PoolFault>,
    told: &mut String,
) -> Result<bool, OutOfMemory> {
    match step {
        Ok(
            Stepped::Came {
                ticket,
                address,
                ..
            },
        ) => add_answered(alloc, *ticket, address, told)?,
        Ok(Stepped::Waited) => {}
        Ok(Stepped::Idle) => told.push_str("idle")?,
        Err(fault) => {
            told.push_str(str::from_utf8(bytes_of(fault)).unwrap_or("no text"))?;
            told.push_str(fault_name(fault))?;
        }
    }
    Ok(matches!(step, Ok(Stepped::Came { .. } | Stepped::Waited)))
}

/// Adds what at most so many steps come to: the tickets in the order in which their replies came,
/// and the end.
pub fn add_steps<W: Dial>(
    alloc: Global,
    pool: &mut Pool,
    wire: &mut W,
    most: u32,
    told: &mut String,
) -> Result<(), OutOfMemory>
    requires suits { SuitsWire pool.old (W.state wire.old) }
    ensures suits { SuitsWire pool.new (W.state wire.new) }
{
    let mut done = 0u32;
    while done < most {
        done += 1;
        let step = pool.step(wire);
        let goes_on = add_step(alloc, &step, told);
        drop(step);
        if !goes_on? {
            return Ok(());
        }
    }
    Ok(())
}

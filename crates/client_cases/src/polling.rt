// Polling an exchange by hand.
ghost use Rattle.std.specs.Prelude.{◌≡◌, OnOk};
ghost use Rattle.exchange.specs.Exchanges.{IsLinked, left_link};
ghost use Rattle.exchange.specs.declared.exchange.Standing.TheVariants.{Underway};

use exchange::{Exchange, ExchangeFault, ReceiveBuffer};
use http_wire::Reply;
use std::alloc::Global;
use tpf_base::{Dial, OutOfMemory};

/// Polls at most so many times, up to an answer. A link that is left is open.
fn polled<W: Dial>(
    exchange: &mut Exchange,
    wire: &mut W,
    buffer: &mut ReceiveBuffer,
    most: u32,
) -> Option<Result<Reply, ExchangeFault>>
    requires underway { exchange.old.standing ≡ Underway }
    requires link { IsLinked exchange.old.link (W.state wire.old) }
    ensures left { IsLinked (left_link exchange.new) (W.state wire.new) }
{
    let mut polls = 0u32;
    while polls < most {
        match exchange.poll(wire, buffer) {
            Some(answer) => return Some(answer),
            None => polls += 1,
        }
    }
    None
}

/// Polls up to an answer, or ten thousand times. A link that is left is open.
pub fn answered<W: Dial>(
    alloc: Global,
    exchange: &mut Exchange,
    wire: &mut W,
) -> Result<Option<Result<Reply, ExchangeFault>>, OutOfMemory>
    requires underway { exchange.old.standing ≡ Underway }
    requires link { IsLinked exchange.old.link (W.state wire.old) }
    ensures left { OnOk result (IsLinked (left_link exchange.new) (W.state wire.new)) }
{
    let mut buffer = ReceiveBuffer::new(alloc)?;
    Ok(polled(exchange, wire, &mut buffer, 10_000))
}

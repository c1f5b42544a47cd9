// One request and its reply over a wire of scripts.
ghost use Rattle.std.specs.Prelude.{◌≡◌, IfOk};
ghost use Rattle.exchange.specs.Exchanges.{IsLinked, left_link};
ghost use Rattle.exchange.specs.declared.exchange.Standing.TheVariants.{Underway};
ghost use Rattle.script_wire.specs.Held.{state_of};

use crate::polling::answered;
use crate::stepping::address;
use crate::told::{add_requests, answer_of};
use crate::wires::{failing_of, scripted};
use case_rows::{Case, CaseFault};
use exchange::{Exchange, ExchangeFault};
use http_wire::{Reply, ReplyFault};
use script_wire::{Script, ScriptWire};
use std::alloc::Global;
use std::str;
use tpf_base::{Bytes, Failing, OutOfMemory};

const ADDRESS: &str = "http://e:81/d?s=a";

/// The most bytes that one send takes, where a row does not say it.
const MOST: u64 = 65536;

/// An exchange for the address, over a link or over one that it dials.
fn started(alloc: Global, limit: u64, link: Option<u64>) -> Result<Exchange, OutOfMemory>
    ensures { IfOk result (λ e. (e.standing ≡ Underway) × (e.link ≡ link)) }
{
    let address = address(alloc, ADDRESS)?;
    Ok(Exchange::start(alloc, address, limit, link)?)
}

/// An exchange that was polled up to its answer, if one came, and how many bytes it held before.
#[derive(Drop)]
struct Outcome {
    exchange: Exchange,
    answer: Option<Result<Reply, ExchangeFault>>,
    begun: u64,
}

/// An exchange on the wire, over a link or over one that it dials.
fn asked(
    alloc: Global,
    limit: u64,
    link: Option<u64>,
    wire: &mut ScriptWire,
) -> Result<Outcome, OutOfMemory>
    requires link { IsLinked link (state_of wire.old) }
    ensures left { IfOk result (λ e. IsLinked (left_link e.exchange) (state_of wire.new)) }
{
    let mut exchange = started(alloc, limit, link)?;
    let begun = exchange.kept();
    let answer = answered(alloc, &mut exchange, wire)?;
    Ok(Outcome {
        exchange,
        answer,
        begun,
    })
}

/// The name of a fault of a reply.
fn reply_fault_name(fault: ReplyFault) -> &'static str {
    match fault {
        ReplyFault::Head => "head",
        ReplyFault::Status(404) => "404",
        ReplyFault::Status(_) => "another status",
        ReplyFault::MediaType => "type",
        ReplyFault::Coding => "coding",
        ReplyFault::Framing => "framing",
        ReplyFault::TooLong => "long",
    }
}

/// The name of a fault of an exchange.
fn fault_name(fault: &ExchangeFault) -> &'static str {
    match fault {
        ExchangeFault::Failed => "failed",
        ExchangeFault::OutOfMemory => "out of memory",
        ExchangeFault::Cut { .. } => "cut",
        ExchangeFault::Bad { fault, .. } => reply_fault_name(*fault),
    }
}

/// What became of the link, or the fault.
fn name_of(outcome: &Outcome) -> &'static str {
    match &outcome.answer {
        Some(Ok(_)) if outcome.exchange.leave().is_some() => "left",
        Some(Ok(_)) => "closed",
        Some(Err(fault)) => fault_name(fault),
        None => "never over",
    }
}

/// The body, or the bytes that a fault keeps.
fn bytes_of(answer: &Option<Result<Reply, ExchangeFault>>) -> &[u8] {
    match answer {
        Some(Ok(reply)) => reply.body.as_slice(),
        Some(Err(ExchangeFault::Cut { received })) => received.as_slice(),
        Some(Err(ExchangeFault::Bad { received, .. })) => received.as_slice(),
        _ => &[],
    }
}

/// A word for an exchange that held bytes at its start, or that went over another link than the first or over none.
fn link_word(outcome: &Outcome) -> &'static str {
    if outcome.begun > 0 {
        return "begun ";
    }
    match outcome.exchange.link() {
        Some(0) => "",
        Some(_) => "elsewhere ",
        None => "unlinked ",
    }
}

/// Adds an outcome: what became of the link and the body, or the fault and the bytes kept. Gives the link that it left.
fn add_outcome(outcome: &Outcome, told: &mut String) -> Result<Option<u64>, OutOfMemory>
    ensures { IfOk result (λ left. left ≡ left_link outcome.now.exchange) }
{
    told.push_str(link_word(outcome))?;
    told.push_str(name_of(outcome))?;
    told.push(' ')?;
    told.push_str(str::from_utf8(bytes_of(&outcome.answer)).unwrap_or("no text"))?;
    Ok(outcome.exchange.leave())
}

/// Adds what an exchange comes to, and gives the link that it leaves.
fn add_asked(
    alloc: Global,
    limit: u64,
    link: Option<u64>,
    wire: &mut ScriptWire,
    told: &mut String,
) -> Result<Option<u64>, OutOfMemory>
    requires link { IsLinked link (state_of wire.old) }
    ensures left { IfOk result (λ left. IsLinked left (state_of wire.new)) }
{
    let outcome = asked(alloc, limit, link, wire)?;
    add_outcome(&outcome, told)
}

/// Adds what an exchange comes to, and a second one over the link that the first left.
fn add_asks(
    alloc: Global,
    limit: u64,
    twice: bool,
    wire: &mut ScriptWire,
    told: &mut String,
) -> Result<(), OutOfMemory> {
    let left = add_asked(alloc, limit, None, wire, told)?;
    if twice {
        told.push_str(", ")?;
        add_asked(alloc, limit, left, wire, told)?;
    }
    Ok(())
}

/// What exchanges come to on a wire, and what was sent on each of its links.
fn told_on(
    alloc: Global,
    limit: u64,
    twice: bool,
    wire: &mut ScriptWire,
) -> Result<String, OutOfMemory> {
    let mut told = String::new(alloc);
    add_asks(alloc, limit, twice, wire, &mut told)?;
    add_requests(wire, true, &mut told)?;
    Ok(told)
}

/// The same on a wire with one link, which does so.
pub fn told_over(
    alloc: Global,
    limit: u64,
    twice: bool,
    script: Script,
    failing: Failing,
) -> Result<String, OutOfMemory> {
    let mut scripts = Vec::new(alloc);
    scripts.push(script)?;
    let mut wire = scripted(alloc, scripts, failing)?;
    told_on(alloc, limit, twice, &mut wire)
}

/// `pieces`, `most`, `open`: a link on which these pieces come, and then the end unless it is `open`; one send takes at
/// most so many bytes.
fn script_of(alloc: Global, case: &mut Case<'_>) -> Result<Script, CaseFault> {
    let most = case.number_if("most")?.unwrap_or(MOST) as usize;
    let ends = !case.flag("open")?;
    let mut pieces = Vec::new(alloc);
    for piece in case.pieces(alloc, "pieces")? {
        pieces.push(Bytes::from_vec(piece))?;
    }
    Ok(Script {
        after: 0,
        pieces,
        ends,
        most,
    })
}

/// `limit`, `twice`, `pieces`, `most`, `open`, `fails`, `dials`: what an exchange comes to whose body may have so many
/// bytes, and with `twice` another over the link that it left, and what was sent on each link. A reply is told as `left`
/// or `closed`, as its link is then, with its body, and a fault by its name, with the bytes that it keeps.
pub fn exchanges(alloc: Global, case: &mut Case<'_>) -> Result<String, CaseFault> {
    let limit = case.number("limit")?;
    let twice = case.flag("twice")?;
    let failing = failing_of(alloc, case)?;
    let script = script_of(alloc, case)?;
    answer_of(told_over(alloc, limit, twice, script, failing))
}

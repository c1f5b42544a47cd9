// The first requests, and replies.
ghost use Rattle.std.specs.Prelude.{◌≡◌, ◌≢◌, ◌<◌, ◌++◌, ◌∷◌, [], length, None, OnOk, OnErr, IsErrOf};
ghost use Rattle.std.specs.List.Sorted.{IsPermutation};
ghost use Rattle.tpf_base.specs.Links.{SameAllowed};
ghost use Rattle.request_pool.specs.Pools.{held};
ghost use Rattle.request_pool.specs.Owned.{SuitsWire};
ghost use Rattle.tpf_client.specs.Asking.{Awaits, PutsOne, ReadsPage};
ghost use Rattle.tpf_client.specs.Starts.{IsAtRest, StartsOne, StartsAll, start_ask};

use crate::asks::{Arrived, Asks, Next};
use crate::fault::shown;
use crate::{ClientFault, laws};
use control_reader::{Page, PageFault, read_page};
use request_plan::FormList;
use request_pool::PoolFault;
use std::alloc::Global;
use std::sync::Wait;
use template_fill::{Form, WebAddress};
use tpf_base::{Dial, OutOfMemory};

/// The ticket of the start: no evaluation gives it.
const START: u64 = u64::MAX;

/// Takes steps until a reply comes.
pub(crate) fn next_reply<R: Wait, W: Dial>(
    rt: &R,
    asks: &mut Asks,
    wire: &mut W,
) -> Result<Arrived, PoolFault>
    requires suits { SuitsWire asks.old (W.state wire.old) }
    requires no_fault { asks.old.fault ≡ None }
    requires some { held asks.old ≢ [] }
    ensures awaits { Awaits (W.allows wire.old) result asks.old asks.new (W.state wire.old) (W.state wire.new) }
    ensures allowed { SameAllowed (W.allows wire.old) (W.allows wire.new) }
{
    for _ in rt.forever() {
        match asks.step(wire) {
            Ok(Next::Came(arrived)) => return Ok(arrived),
            Ok(Next::Waited) => {}
            Ok(Next::Idle) => unreachable!(),
            Err(fault) => return Err(fault),
        }
    }
    unreachable!()
}

/// Reads the page of a reply. Where it is none, the body is kept.
pub(crate) fn read(alloc: Global, arrived: Arrived) -> Result<Page, ClientFault>
    ensures { ReadsPage arrived result }
{
    let Arrived { address, reply, .. } = arrived;
    let body = reply.body;
    match read_page(alloc, body.as_slice(), &address) {
        Ok(page) => Ok(page),
        Err(PageFault::OutOfMemory) => Err(ClientFault::OutOfMemory),
        Err(fault) => Err(ClientFault::Page { fault, body }),
    }
}

/// Puts the ask for the start. Out of memory, the asks are as they were.
fn put_start(alloc: Global, start: &WebAddress, asks: &mut Asks) -> Result<(), OutOfMemory>
    requires none { held asks.old ≡ [] }
    ensures ok { OnOk result (PutsOne (start_ask start.now) asks.old asks.new) }
    ensures err { OnErr result (asks.new ≡ asks.old) }
{
    match start.copy(alloc) {
        Err(_) => Err(OutOfMemory),
        Ok(address) => asks.put(START, address),
    }
}

/// Waits for the reply to the start, which alone was asked for, and reads its page.
fn await_start<R: Wait, W: Dial>(
    rt: &R,
    alloc: Global,
    start: &WebAddress,
    budget: u64,
    asks: &mut Asks,
    wire: &mut W,
) -> Result<Page, ClientFault>
    requires suits { SuitsWire asks.old (W.state wire.old) }
    requires no_fault { asks.old.fault ≡ None }
    requires one { IsPermutation (held asks.old) (start_ask start.now ∷ []) }
    ensures starts { StartsOne (W.allows wire.old) start.now [] budget result asks.old asks.new (W.state wire.old)
        (W.state wire.new) }
    ensures no_sink { IsErrOf result ClientFault.Sink → ⊥ }
    ensures allowed { SameAllowed (W.allows wire.old) (W.allows wire.new) }
{
    match next_reply(rt, asks, wire) {
        Ok(arrived) => read(alloc, arrived),
        Err(fault) => Err(shown(fault, budget)),
    }
}

/// Asks for the start, and reads its page.
fn ask_start<R: Wait, W: Dial>(
    rt: &R,
    alloc: Global,
    start: &WebAddress,
    budget: u64,
    asks: &mut Asks,
    wire: &mut W,
) -> Result<Page, ClientFault>
    requires rest { IsAtRest asks.old (W.state wire.old) }
    ensures starts { StartsOne (W.allows wire.old) start.now (start_ask start.now ∷ []) budget result asks.old asks.new
        (W.state wire.old) (W.state wire.new) }
    ensures no_sink { IsErrOf result ClientFault.Sink → ⊥ }
    ensures allowed { SameAllowed (W.allows wire.old) (W.allows wire.new) }
{
    laws::is_lawful(wire);
    match put_start(alloc, start, asks) {
        Ok(()) => await_start(rt, alloc, start, budget, asks, wire),
        Err(_) => Err(ClientFault::OutOfMemory),
    }
}

/// What the start pages told: the form of each server, and the version of its data.
#[derive(Drop)]
pub(crate) struct StartPages {
    pub(crate) forms: FormList,
    pub(crate) versions: Vec<Option<u64>>,
}

/// Notes what a start page told. The only error is out of memory.
fn note_page(
    page: Page,
    forms: &mut Vec<Form>,
    versions: &mut Vec<Option<u64>>,
) -> Result<(), OutOfMemory>
    ensures forms { OnOk result (forms.new.items ≡ forms.old.items ++ page.form ∷ []) }
    ensures versions { OnOk result (versions.new.items ≡ versions.old.items ++ page.version ∷ []) }
{
    let Page {
        triples,
        next,
        form,
        version,
        ..
    } = page;
    drop(triples);
    drop(next);
    forms.push(form)?;
    versions.push(version)?;
    Ok(())
}

/// Asks for the starts, one after another, and reads their pages. Condition: there is a start.
pub(crate) fn ask_starts<R: Wait, W: Dial>(
    rt: &R,
    alloc: Global,
    starts: &[WebAddress],
    budget: u64,
    asks: &mut Asks,
    wire: &mut W,
) -> Result<StartPages, ClientFault>
    requires some { 0 < length starts.now }
    requires rest { IsAtRest asks.old (W.state wire.old) }
    ensures starts { StartsAll (W.allows wire.old) starts.now budget result asks.old asks.new (W.state wire.old)
        (W.state wire.new) }
    ensures no_sink { IsErrOf result ClientFault.Sink → ⊥ }
    ensures allowed { SameAllowed (W.allows wire.old) (W.allows wire.new) }
{
    control_reader::laws::pages_keep_authority();
    let mut forms = Vec::new(alloc);
    let mut versions = Vec::new(alloc);
    for start in starts {
        start.is_valid();
        match ask_start(rt, alloc, start, budget, asks, wire) {
            Err(fault) => return Err(fault),
            Ok(page) => match note_page(page, &mut forms, &mut versions) {
                Ok(()) => {}
                Err(_) => return Err(ClientFault::OutOfMemory),
            },
        }
    }
    Ok(StartPages {
        forms: FormList::from_vec(forms),
        versions,
    })
}

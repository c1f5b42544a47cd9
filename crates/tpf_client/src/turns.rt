// The loop of a call: an evaluation, a pool over a wire, and where rows go.
ghost use Rattle.std.specs.Prelude.{◌≡◌, ◌≢◌, ◌<◌, ◌-◌, ◌^◌, ◌⊎◌, [], ◌∷◌, List, true, false, IfOk, IfErr, OnOk, OnErr, IsErrOf};
ghost use Rattle.std.specs.List.{Contains};
ghost use Rattle.tpf_base.specs.Links.{SameAllowed};
ghost use Rattle.bgp_core.specs.Solutions.{Places};
ghost use Rattle.request_pool.specs.Pools.{Ask, held};
ghost use Rattle.request_pool.specs.Owned.{SuitsWire};
ghost use Rattle.request_plan.specs.Evaluations.{EndsInQuiet};
ghost use Rattle.tpf_client.specs.Traffic.{PoolEvent};
ghost use Rattle.tpf_client.specs.Told.{told_at, told_in};
ghost use Rattle.tpf_client.specs.Turns.{Limits, keeps_both, Meets, Hands, Gives, Readies, TakesReply, Went, Failed};
ghost use Rattle.tpf_client.specs.Causes.{IsTakeFault, IsLocal};
ghost use Rattle.tpf_client.specs.Sinks.{KeepsSink, LeavesSink};

use crate::asks::{Arrived, Asks};
use crate::fault::{of_sink, shown};
use crate::rows::TakesRows;
use crate::start::{next_reply, read};
use crate::{ClientFault, laws};
use control_reader::Page;
use request_plan::{Answered, Evaluates};
use std::alloc::Global;
use std::sync::Wait;
use template_fill::WebAddress;
use tpf_base::{Dial, Fault, OutOfMemory};

/// Hands the next ask of an evaluation over, and says whether there was one.
fn hand_one<E: Evaluates>(
    alloc: Global,
    evaluation: &mut E,
    asks: &mut Asks,
) -> Result<bool, OutOfMemory>
    requires meets { (limits : Limits) × Meets limits (keeps_both E.keeps_to E.keeps_small limits evaluation.old)
        (E.standing evaluation.old) asks.old }
    requires given { (E.standing evaluation.old).given < 2 ^ 64 - 1 }
    ensures some { result ≡ Ok true → (ask : Ask) × Hands E.suits E.account
        (keeps_both E.keeps_to E.keeps_small) E.standing evaluation.old evaluation.new (ask ∷ []) asks.old asks.new }
    ensures none { result ≡ Ok false → Hands E.suits E.account
        (keeps_both E.keeps_to E.keeps_small) E.standing evaluation.old evaluation.new [] asks.old asks.new
        × EndsInQuiet (E.standing evaluation.new) }
    ensures err { OnErr result (asks.new ≡ asks.old) }
{
    match evaluation.next_ask(alloc) {
        Err(fault) => Err(fault),
        Ok(None) => Ok(false),
        Ok(Some(ask)) => match asks.put(ask.ticket, ask.address) {
            Ok(()) => Ok(true),
            Err(fault) => Err(fault),
        },
    }
}

/// Hands all asks of an evaluation over. `tickets` counts its tickets; no memory holds more of them
/// than a u64 counts.
fn hand_over<E: Evaluates>(
    alloc: Global,
    evaluation: &mut E,
    asks: &mut Asks,
    tickets: &mut u64,
) -> Result<(), OutOfMemory>
    requires meets { (limits : Limits) × Meets limits (keeps_both E.keeps_to E.keeps_small limits evaluation.old)
        (E.standing evaluation.old) asks.old }
    requires given { tickets.old ≡ (E.standing evaluation.old).given }
    ensures ok { OnOk result ((asked : List Ask) × Hands E.suits E.account
        (keeps_both E.keeps_to E.keeps_small) E.standing evaluation.old evaluation.new asked asks.old asks.new
        × EndsInQuiet (E.standing evaluation.new)) }
    ensures err { OnErr result ((asked : List Ask) × (mid : E) × Hands E.suits E.account
        (keeps_both E.keeps_to E.keeps_small) E.standing evaluation.old mid asked asks.old asks.new) }
    ensures given { OnOk result (tickets.new ≡ (E.standing evaluation.new).given) }
{
    'asks: while *tickets < u64::MAX {
        match hand_one(alloc, evaluation, asks) {
            Err(fault) => return Err(fault),
            Ok(some) => {
                if !some {
                    return Ok(());
                }
            }
        }
        *tickets += 1;
    }
    Err(OutOfMemory)
}

/// Takes all rows that wait.
fn give_rows<E: Evaluates, B, T: TakesRows<B>>(
    evaluation: &mut E,
    rows: &mut T,
    behind: &mut B,
) -> Result<(), Fault>
    ensures gives { (given : List Places) × Gives E.suits E.account
        (keeps_both E.keeps_to E.keeps_small) E.standing evaluation.old evaluation.new given
        × OnOk result (T.takes given rows.old rows.new behind.old behind.new)
        × OnErr result (T.takes_front given rows.old rows.new behind.old behind.new) }
    ensures none { OnOk result ((E.standing evaluation.new).waiting ≡ 0) }
    ensures sink { KeepsSink (T.sink behind.old) (T.sink behind.new) result }
{
    'waiting: while let Some(row) = evaluation.take_row() {
        match rows.take(behind, row) {
            Ok(()) => {}
            Err(fault) => return Err(fault),
        }
    }
    Ok(())
}

/// Whether a page tells this version.
fn tells_version(page: &Page, version: Option<u64>) -> bool
    ensures same { result ≡ true → page.now.version ≡ version }
    ensures other { result ≡ false → version ≢ page.now.version }
{
    match page.version {
        None => version.is_none(),
        Some(told) => match version {
            None => false,
            Some(first) => told == first,
        },
    }
}

/// Hands the page of a reply to an evaluation, where it tells the same version as the start page of its server.
fn take_reply<E: Evaluates>(
    alloc: Global,
    evaluation: &mut E,
    arrived: Arrived,
    version: Option<u64>,
) -> Result<(), ClientFault>
    requires out { Contains (E.standing evaluation.old).out arrived.ticket }
    ensures ok { OnOk result (TakesReply E.suits E.account
        (keeps_both E.keeps_to E.keeps_small) E.standing E.is_true evaluation.old evaluation.new arrived
        (λ address. version)) }
    ensures err { IfErr result (IsTakeFault arrived (λ address. version)) }
{
    control_reader::laws::pages_keep_authority();
    arrived.address.is_valid();
    let ticket = arrived.ticket;
    match read(alloc, arrived) {
        Err(fault) => Err(fault),
        Ok(page) => {
            if !tells_version(&page, version) {
                let told = page.version;
                drop(page);
                return Err(ClientFault::Changed(version, told));
            }
            match evaluation.answer(alloc, ticket, page) {
                Err(_) => Err(ClientFault::OutOfMemory),
                Ok(answered) => match answered {
                    Answered::Taken => Ok(()),
                    Answered::Stranger => unreachable!(),
                },
            }
        }
    }
}

/// Takes the rows that wait, and hands over all asks. It says whether the evaluation is done.
fn prepare<E: Evaluates, B, T: TakesRows<B>>(
    alloc: Global,
    tickets: &mut u64,
    evaluation: &mut E,
    asks: &mut Asks,
    rows: &mut T,
    behind: &mut B,
) -> Result<bool, ClientFault>
    requires meets { (limits : Limits) × Meets limits (keeps_both E.keeps_to E.keeps_small limits evaluation.old)
        (E.standing evaluation.old) asks.old }
    requires given { tickets.old ≡ (E.standing evaluation.old).given }
    ensures ok { OnOk result ((taken : List Places) × (asked : List Ask)
        × Readies E.suits E.account (keeps_both E.keeps_to E.keeps_small) E.standing evaluation.old evaluation.new
        taken asked asks.old asks.new
        × T.takes taken rows.old rows.new behind.old behind.new) }
    ensures quiet { OnOk result (EndsInQuiet (E.standing evaluation.new)) }
    ensures none { OnOk result ((E.standing evaluation.new).waiting ≡ 0) }
    ensures done { IfOk result (λ done. done ≡ (E.standing evaluation.new).done) }
    ensures given { OnOk result (tickets.new ≡ (E.standing evaluation.new).given) }
    ensures err { IfErr result (λ fault. (taken : List Places) × (asked : List Ask) × (end : E)
        × Readies E.suits E.account (keeps_both E.keeps_to E.keeps_small) E.standing evaluation.old end taken asked
        asks.old asks.new
        × T.takes_front taken rows.old rows.new behind.old behind.new × IsLocal fault) }
    ensures sink { LeavesSink (T.sink behind.old) (T.sink behind.new) result }
{
    match give_rows(evaluation, rows, behind) {
        Err(fault) => Err(of_sink(fault)),
        Ok(()) => match hand_over(alloc, evaluation, asks, tickets) {
            Err(_) => Err(ClientFault::OutOfMemory),
            Ok(()) => Ok(evaluation.is_done()),
        },
    }
}

/// Waits for the next reply, and hands its page to the evaluation.
fn take_next<R: Wait, E: Evaluates, W: Dial>(
    rt: &R,
    bounds: Bounds<'_>,
    evaluation: &mut E,
    asks: &mut Asks,
    wire: &mut W,
) -> Result<(), ClientFault>
    requires meets { (limits : Limits) × Meets limits (keeps_both E.keeps_to E.keeps_small limits evaluation.old)
        (E.standing evaluation.old) asks.old }
    requires some { held asks.old ≢ [] }
    requires suits { SuitsWire asks.old (W.state wire.old) }
    ensures ok { OnOk result ((events : List PoolEvent) × Went E.suits E.account
        (keeps_both E.keeps_to E.keeps_small) E.standing E.is_true (W.allows wire.old) evaluation.old evaluation.new
        (told_in bounds.entry) events [] asks.old asks.new (W.state wire.old) (W.state wire.new)) }
    ensures given { OnOk result ((E.standing evaluation.new).given ≡ (E.standing evaluation.old).given) }
    ensures err { IfErr result (λ fault. (events : List PoolEvent) × Failed E.suits E.account
        (keeps_both E.keeps_to E.keeps_small) E.standing E.is_true (W.allows wire.old) evaluation.old
        (told_in bounds.entry) bounds.entry.budget fault events [] asks.old asks.new (W.state wire.old)
        (W.state wire.new)) }
    ensures no_sink { IsErrOf result ClientFault.Sink → ⊥ }
    ensures allowed { SameAllowed (W.allows wire.old) (W.allows wire.new) }
{
    match next_reply(rt, asks, wire) {
        Err(fault) => Err(shown(fault, bounds.budget)),
        Ok(arrived) => {
            let version = bounds.version_at(&arrived.address);
            take_reply(bounds.alloc, evaluation, arrived, version)
        }
    }
}

/// One turn: takes the rows that wait, hands over all asks and then takes the page of the next reply
/// that comes. It says whether the evaluation was done before that.
fn turn<R: Wait, E: Evaluates + Drop, W: Dial, B, T: TakesRows<B>>(
    rt: &R,
    bounds: Bounds<'_>,
    evaluation: &mut Evaluation<E>,
    asks: &mut Asks,
    wire: &mut W,
    rows: &mut T,
    behind: &mut B,
) -> Result<bool, ClientFault>
    requires meets { (limits : Limits) × Meets limits
        (keeps_both E.keeps_to E.keeps_small limits evaluation.old.state) (E.standing evaluation.old.state) asks.old }
    requires given { evaluation.old.tickets ≡ (E.standing evaluation.old.state).given }
    requires suits { SuitsWire asks.old (W.state wire.old) }
    ensures went { OnOk result ((events : List PoolEvent) × (taken : List Places)
        × Went E.suits E.account (keeps_both E.keeps_to E.keeps_small) E.standing E.is_true
        (W.allows wire.old) evaluation.old.state evaluation.new.state (told_in bounds.entry) events taken
        asks.old asks.new (W.state wire.old) (W.state wire.new)
        × T.takes taken rows.old rows.new behind.old behind.new) }
    ensures given { OnOk result (evaluation.new.tickets ≡ (E.standing evaluation.new.state).given) }
    ensures done { result ≡ Ok true → (E.standing evaluation.new.state).done ≡ true }
    ensures failed { IfErr result (λ fault. (events : List PoolEvent) × (taken : List Places)
        × Failed E.suits E.account (keeps_both E.keeps_to E.keeps_small) E.standing E.is_true
        (W.allows wire.old) evaluation.old.state (told_in bounds.entry) bounds.entry.budget fault events taken
        asks.old asks.new (W.state wire.old) (W.state wire.new)
        × T.takes_front taken rows.old rows.new behind.old behind.new
        × (IsLocal fault ⊎ T.takes taken rows.old rows.new behind.old behind.new)) }
    ensures sink { LeavesSink (T.sink behind.old) (T.sink behind.new) result }
    ensures allowed { SameAllowed (W.allows wire.old) (W.allows wire.new) }
{
    laws::is_lawful(wire);
    match prepare(
        bounds.alloc,
        &mut evaluation.tickets,
        &mut evaluation.state,
        asks,
        rows,
        behind,
    ) {
        Err(fault) => Err(fault),
        Ok(done) => {
            if done {
                return Ok(true);
            }
            match rows.hand_on(behind) {
                Err(fault) => Err(of_sink(fault)),
                Ok(()) => match take_next(rt, bounds, &mut evaluation.state, asks, wire) {
                    Err(fault) => Err(fault),
                    Ok(()) => Ok(false),
                },
            }
        }
    }
}

/// What the turns of a call go by: the starts, the version that the page of each told, and the budget.
#[derive(Clone, Copy)]
pub(crate) struct Bounds<'a> {
    pub(crate) alloc: Global,
    pub(crate) starts: &'a [WebAddress],
    pub(crate) versions: &'a [Option<u64>],
    pub(crate) budget: u64,
}

impl<'a> Bounds<'a> {
    /// The version that the page of the first start told that has the authority of an address. The last start is not compared.
    fn version_at(&self, address: &WebAddress) -> Option<u64>
        ensures { result ≡ told_at self.now.starts.now self.now.versions.now address.now }
    {
        let count = self.starts.len();
        for place in 0..self.versions.len() {
            if place + 1 >= count {
                return self.versions[place];
            }
            if self.starts[place].same_authority(address) {
                return self.versions[place];
            }
        }
        None
    }
}

/// An evaluation that runs, and how many tickets it gave; no memory holds more of them than a u64 counts.
#[derive(Drop)]
pub(crate) struct Evaluation<E: Drop> {
    pub(crate) state: E,
    pub(crate) tickets: u64,
}

/// Takes turns until the evaluation is done.
///
/// Each turn takes the rows that wait, hands over all asks that there are, has what was made of the
/// rows handed on, and waits for the next reply.
pub(crate) fn evaluate<R: Wait, E: Evaluates + Drop, W: Dial, B, T: TakesRows<B>>(
    rt: &R,
    bounds: Bounds<'_>,
    evaluation: &mut Evaluation<E>,
    asks: &mut Asks,
    wire: &mut W,
    rows: &mut T,
    behind: &mut B,
) -> Result<(), ClientFault>
    requires meets { (limits : Limits) × Meets limits
        (keeps_both E.keeps_to E.keeps_small limits evaluation.old.state) (E.standing evaluation.old.state) asks.old }
    requires given { evaluation.old.tickets ≡ (E.standing evaluation.old.state).given }
    requires suits { SuitsWire asks.old (W.state wire.old) }
    ensures went { OnOk result ((events : List PoolEvent) × (taken : List Places)
        × Went E.suits E.account (keeps_both E.keeps_to E.keeps_small) E.standing E.is_true
        (W.allows wire.old) evaluation.old.state evaluation.new.state (told_in bounds.entry) events taken
        asks.old asks.new (W.state wire.old) (W.state wire.new)
        × T.takes taken rows.old rows.new behind.old behind.new) }
    ensures done { OnOk result ((E.standing evaluation.new.state).done ≡ true) }
    ensures failed { IfErr result (λ fault. (events : List PoolEvent) × (taken : List Places)
        × Failed E.suits E.account (keeps_both E.keeps_to E.keeps_small) E.standing E.is_true
        (W.allows wire.old) evaluation.old.state (told_in bounds.entry) bounds.entry.budget fault events taken
        asks.old asks.new (W.state wire.old) (W.state wire.new)
        × T.takes_front taken rows.old rows.new behind.old behind.new
        × (IsLocal fault ⊎ T.takes taken rows.old rows.new behind.old behind.new)) }
    ensures sink { LeavesSink (T.sink behind.old) (T.sink behind.new) result }
    ensures allowed { SameAllowed (W.allows wire.old) (W.allows wire.new) }
{
    for _ in rt.forever() {
        match turn(rt, bounds, evaluation, asks, wire, rows, behind) {
            Err(fault) => return Err(fault),
            Ok(done) => {
                if done {
                    return Ok(());
                }
            }
        }
    }
    unreachable!()
}

// What a call answers: the start pages are asked for, and then the rows of the join are written as a text or gathered in a list.
ghost use Rattle.std.specs.Prelude.{◌≡◌, ◌≤◌, ◌<◌, ◌⊎◌, List, length, IfOk, IfErr, OnOk, IsErrOf, None};
ghost use Rattle.std.specs.Io.KnownBytes.{Appends};
ghost use Rattle.tpf_base.specs.Causes.{counted_by};
ghost use Rattle.tpf_base.specs.Links.{SameAllowed};
ghost use Rattle.bgp_core.specs.Solutions.{Places};
ghost use Rattle.result_json.specs.Results.{result_text};
ghost use Rattle.request_pool.specs.Owned.{SuitsWire};
ghost use Rattle.tpf_client.specs.Traffic.{PoolEvent};
ghost use Rattle.tpf_client.specs.Causes.{IsLocal};
ghost use Rattle.tpf_client.specs.Rows.{begun};
ghost use Rattle.tpf_client.specs.Sinks.{LeavesSink};
ghost use Rattle.tpf_client.specs.Told.{told_at};
ghost use Rattle.tpf_client.specs.Starts.{IsAtRest, StandsBehind};
ghost use Rattle.tpf_client.specs.Sources.{sources_of};
ghost use Rattle.tpf_client.specs.Calls.{Joins, JoinsSome, GathersRest, WritesRest, WritesLess, WritesAll, WritesSome, Returns, Ran, most_behind, most_over};
ghost use Rattle.tpf_client.specs.Shown.{WritesShown, ShowsLess};

use crate::asks::Asks;
use crate::fault::of_sink;
use crate::rows::{ResultText, RowList, TakesRows};
use crate::start::{StartPages, ask_starts};
use crate::turns::{Bounds, Evaluation, evaluate};
use crate::{ClientFault, Options, Report};
use bgp_core::{Query, Row};
use request_plan::Evaluates;
use result_json::ResultWriter;
use std::alloc::Global;
use std::sync::Wait;
use template_fill::WebAddress;
use tpf_base::{Dial, Fault, Sink};

/// What a call goes by: the query, the starts of its servers, and the options.
#[derive(Clone, Copy)]
pub(crate) struct Call<'a> {
    pub(crate) alloc: Global,
    pub(crate) query: &'a Query,
    pub(crate) starts: &'a [WebAddress],
    pub(crate) options: &'a Options,
}

/// Joins the pages of a query whose start pages told these forms and versions.
fn join_pages<R: Wait, E: Evaluates + Drop, W: Dial, B, T: TakesRows<B>>(
    rt: &R,
    call: Call<'_>,
    pages: StartPages,
    asks: &mut Asks,
    wire: &mut W,
    rows: &mut T,
    behind: &mut B,
) -> Result<(), ClientFault>
    requires window { 1 ≤ call.options.now.window }
    requires stands { StandsBehind call.starts.now pages asks.old (W.state wire.old) }
    ensures joins { OnOk result ((events : List PoolEvent) × (given : List Places)
        × Joins (W.allows wire.old)
        (most_behind call.entry.options.now call.entry.query.now (length pages.forms))
        (sources_of E.Source E.fits E.is_true E.rows E.plan E.reported call.entry.options.now.block)
        call.entry.query.now call.entry.starts.now pages.forms
        (told_at call.entry.starts.now pages.versions.items) events given asks.old asks.new
        (W.state wire.old) (W.state wire.new)
        × T.takes given rows.old rows.new behind.old behind.new) }
    ensures some { IfErr result (λ fault. (events : List PoolEvent) × (given : List Places)
        × JoinsSome (W.allows wire.old)
        (most_behind call.entry.options.now call.entry.query.now (length pages.forms))
        (sources_of E.Source E.fits E.is_true E.rows E.plan E.reported call.entry.options.now.block)
        call.entry.query.now call.entry.starts.now pages.forms
        (told_at call.entry.starts.now pages.versions.items) call.entry.options.now.budget fault events given
        asks.old asks.new (W.state wire.old) (W.state wire.new)
        × T.takes_front given rows.old rows.new behind.old behind.new
        × (IsLocal fault ⊎ T.takes given rows.old rows.new behind.old behind.new)) }
    ensures sink { LeavesSink (T.sink behind.old) (T.sink behind.new) result }
    ensures allowed { SameAllowed (W.allows wire.old) (W.allows wire.new) }
{
    let StartPages { forms, versions } = pages;
    let bounds = Bounds {
        alloc: call.alloc,
        starts: call.starts,
        versions: versions.as_slice(),
        budget: call.options.budget,
    };
    match E::begin(
        call.alloc,
        call.query,
        forms,
        call.options.window,
        call.options.block,
    ) {
        Err(_) => Err(ClientFault::OutOfMemory),
        Ok(evaluation) => {
            let mut evaluation = Evaluation {
                state: evaluation,
                tickets: 0,
            };
            evaluate(rt, bounds, &mut evaluation, asks, wire, rows, behind)
        }
    }
}

/// Writes the result to its end: the rows that the join gives, and then the end of the text. At a
/// fault what was made so far is given to the sink, and where that ends for want of memory the call
/// does.
fn write_joined<R: Wait, E: Evaluates + Drop, W: Dial, K: Sink>(
    rt: &R,
    call: Call<'_>,
    pages: StartPages,
    asks: &mut Asks,
    wire: &mut W,
    text: &mut ResultText<'_>,
    out: &mut K,
) -> Result<(), ClientFault>
    requires window { 1 ≤ call.options.now.window }
    requires stands { StandsBehind call.starts.now pages asks.old (W.state wire.old) }
    requires fresh { text.old ≡ begun call.query.now }
    ensures ok { OnOk result ((events : List PoolEvent) × (rows : List Places)
        × Joins (W.allows wire.old)
        (most_behind call.entry.options.now call.entry.query.now (length pages.forms))
        (sources_of E.Source E.fits E.is_true E.rows E.plan E.reported call.entry.options.now.block)
        call.entry.query.now call.entry.starts.now pages.forms
        (told_at call.entry.starts.now pages.versions.items) events rows asks.old asks.new
        (W.state wire.old) (W.state wire.new)
        × Appends (K.state out.old).taken (K.state out.new).taken (result_text call.entry.query.now rows)
        × (text.new.count ≡ counted_by (length rows) 0)) }
    ensures err { IfErr result (λ fault. ShowsLess (W.allows wire.old)
        (most_behind call.entry.options.now call.entry.query.now (length pages.forms))
        (sources_of E.Source E.fits E.is_true E.rows E.plan E.reported call.entry.options.now.block)
        call.entry.query.now call.entry.starts.now pages.forms
        (told_at call.entry.starts.now pages.versions.items) call.entry.options.now.budget fault asks.old asks.new
        (W.state wire.old) (W.state wire.new) (K.state out.old) (K.state out.new)) }
    ensures sink { LeavesSink (K.state out.old) (K.state out.new) result }
    ensures allowed { SameAllowed (W.allows wire.old) (W.allows wire.new) }
{
    result_json::laws::pieces_make_the_text();
    match join_pages::<_, E, _, _, _>(rt, call, pages, asks, wire, text, out) {
        Ok(()) => match text.finish(out) {
            Ok(()) => Ok(()),
            Err(fault) => Err(of_sink(fault)),
        },
        Err(fault) => match text.give(out) {
            Ok(()) => Err(fault),
            Err(Fault::Failed) => Err(fault),
            Err(Fault::OutOfMemory) => Err(ClientFault::OutOfMemory),
        },
    }
}

/// Writes the result whose start pages are these.
fn write_rows<R: Wait, E: Evaluates + Drop, W: Dial, K: Sink>(
    rt: &R,
    call: Call<'_>,
    pages: StartPages,
    asks: &mut Asks,
    wire: &mut W,
    out: &mut K,
) -> Result<Report, ClientFault>
    requires window { 1 ≤ call.options.now.window }
    requires stands { StandsBehind call.starts.now pages asks.old (W.state wire.old) }
    ensures ok { IfOk result (λ report. WritesRest (W.allows wire.old)
        (most_behind call.entry.options.now call.entry.query.now (length pages.forms))
        (sources_of E.Source E.fits E.is_true E.rows E.plan E.reported call.entry.options.now.block)
        call.entry.query.now call.entry.starts.now pages.forms pages.versions.items report asks.old asks.new
        (W.state wire.old) (W.state wire.new) (K.state out.old).taken (K.state out.new).taken) }
    ensures err { IfErr result (λ fault. ShowsLess (W.allows wire.old)
        (most_behind call.entry.options.now call.entry.query.now (length pages.forms))
        (sources_of E.Source E.fits E.is_true E.rows E.plan E.reported call.entry.options.now.block)
        call.entry.query.now call.entry.starts.now pages.forms
        (told_at call.entry.starts.now pages.versions.items) call.entry.options.now.budget fault asks.old asks.new
        (W.state wire.old) (W.state wire.new) (K.state out.old) (K.state out.new)) }
    ensures sink { LeavesSink (K.state out.old) (K.state out.new) result }
    ensures allowed { SameAllowed (W.allows wire.old) (W.allows wire.new) }
{
    let version = E::report_version(pages.versions[0]);
    match ResultWriter::begin(call.alloc, call.query) {
        Err(_) => Err(ClientFault::OutOfMemory),
        Ok(writer) => {
            let mut text = ResultText::new(writer);
            match write_joined::<_, E, _, _>(rt, call, pages, asks, wire, &mut text, out) {
                Err(fault) => Err(fault),
                Ok(()) => Ok(Report {
                    requests: asks.started(),
                    rows: text.count(),
                    version,
                }),
            }
        }
    }
}

/// Asks for the start pages, and writes the result.
pub(crate) fn write_result<R: Wait, E: Evaluates + Drop, W: Dial, K: Sink>(
    rt: &R,
    call: Call<'_>,
    asks: &mut Asks,
    wire: &mut W,
    out: &mut K,
) -> Result<Report, ClientFault>
    requires starts { 0 < length call.starts.now }
    requires window { 1 ≤ call.options.now.window }
    requires rest { IsAtRest asks.old (W.state wire.old) }
    ensures ok { IfOk result (λ report. WritesAll (Ran (W.allows wire.old)
        (most_over call.entry.options.now call.entry.query.now (length call.entry.starts.now)) asks.old asks.new
        (W.state wire.old) (W.state wire.new))
        (sources_of E.Source E.fits E.is_true E.rows E.plan E.reported call.entry.options.now.block)
        call.entry.query.now call.entry.starts.now report (K.state out.old).taken (K.state out.new).taken) }
    ensures err { IfErr result (λ fault. WritesShown (Ran (W.allows wire.old)
        (most_over call.entry.options.now call.entry.query.now (length call.entry.starts.now)) asks.old asks.new
        (W.state wire.old) (W.state wire.new))
        (sources_of E.Source E.fits E.is_true E.rows E.plan E.reported call.entry.options.now.block)
        call.entry.query.now call.entry.starts.now call.entry.options.now.budget fault (K.state out.old)
        (K.state out.new)) }
    ensures suits { SuitsWire asks.new (W.state wire.new) }
    ensures sink { LeavesSink (K.state out.old) (K.state out.new) result }
    ensures allowed { SameAllowed (W.allows wire.old) (W.allows wire.new) }
{
    match ask_starts(rt, call.alloc, call.starts, call.options.budget, asks, wire) {
        Ok(pages) => write_rows::<_, E, _, _>(rt, call, pages, asks, wire, out),
        Err(fault) => Err(fault),
    }
}

/// Gathers the rows whose start pages are these.
fn gather_rows<R: Wait, E: Evaluates + Drop, W: Dial>(
    rt: &R,
    call: Call<'_>,
    pages: StartPages,
    asks: &mut Asks,
    wire: &mut W,
) -> Result<(Vec<Row>, Report), ClientFault>
    requires window { 1 ≤ call.options.now.window }
    requires stands { StandsBehind call.starts.now pages asks.old (W.state wire.old) }
    ensures ok { IfOk result (λ r. GathersRest (W.allows wire.old)
        (most_behind call.entry.options.now call.entry.query.now (length pages.forms))
        (sources_of E.Source E.fits E.is_true E.rows E.plan E.reported call.entry.options.now.block)
        call.entry.query.now call.entry.starts.now pages.forms pages.versions.items r.1 r.0.items asks.old asks.new
        (W.state wire.old) (W.state wire.new)) }
    ensures err { IfErr result (λ fault. WritesLess (W.allows wire.old)
        (most_behind call.entry.options.now call.entry.query.now (length pages.forms))
        (sources_of E.Source E.fits E.is_true E.rows E.plan E.reported call.entry.options.now.block)
        call.entry.query.now call.entry.starts.now pages.forms
        (told_at call.entry.starts.now pages.versions.items) call.entry.options.now.budget fault asks.old asks.new
        (W.state wire.old) (W.state wire.new) None None) }
    ensures sink { IsErrOf result ClientFault.Sink → ⊥ }
    ensures allowed { SameAllowed (W.allows wire.old) (W.allows wire.new) }
{
    let version = E::report_version(pages.versions[0]);
    let mut list = RowList::new(call.alloc);
    match join_pages::<_, E, _, _, _>(rt, call, pages, asks, wire, &mut list, &mut ()) {
        Err(fault) => Err(fault),
        Ok(()) => {
            let rows = list.into_rows();
            let report = Report {
                requests: asks.started(),
                rows: rows.len() as u64,
                version,
            };
            Ok((rows, report))
        }
    }
}

/// Asks for the start pages, and gathers the rows.
pub(crate) fn gather<R: Wait, E: Evaluates + Drop, W: Dial>(
    rt: &R,
    call: Call<'_>,
    asks: &mut Asks,
    wire: &mut W,
) -> Result<(Vec<Row>, Report), ClientFault>
    requires starts { 0 < length call.starts.now }
    requires window { 1 ≤ call.options.now.window }
    requires rest { IsAtRest asks.old (W.state wire.old) }
    ensures ok { IfOk result (λ r. Returns (Ran (W.allows wire.old)
        (most_over call.entry.options.now call.entry.query.now (length call.entry.starts.now)) asks.old asks.new
        (W.state wire.old) (W.state wire.new))
        (sources_of E.Source E.fits E.is_true E.rows E.plan E.reported call.entry.options.now.block)
        call.entry.query.now call.entry.starts.now r.1 r.0.items) }
    ensures err { IfErr result (λ fault. WritesSome (Ran (W.allows wire.old)
        (most_over call.entry.options.now call.entry.query.now (length call.entry.starts.now)) asks.old asks.new
        (W.state wire.old) (W.state wire.new))
        (sources_of E.Source E.fits E.is_true E.rows E.plan E.reported call.entry.options.now.block)
        call.entry.query.now call.entry.starts.now call.entry.options.now.budget fault None None) }
    ensures suits { SuitsWire asks.new (W.state wire.new) }
    ensures sink { IsErrOf result ClientFault.Sink → ⊥ }
    ensures allowed { SameAllowed (W.allows wire.old) (W.allows wire.new) }
{
    match ask_starts(rt, call.alloc, call.starts, call.options.budget, asks, wire) {
        Ok(pages) => gather_rows::<_, E, _>(rt, call, pages, asks, wire),
        Err(fault) => Err(fault),
    }
}

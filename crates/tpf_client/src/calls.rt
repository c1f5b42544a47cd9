// The calls.
ghost use Rattle.std.specs.Prelude.{◌<◌, length, IfOk, OnErr, IsErrOf};
ghost use Rattle.tpf_base.specs.Links.{SameAllowed};
ghost use Rattle.tpf_client.specs.Bounds.{SuitsCalls};
ghost use Rattle.tpf_client.specs.Calls.{WritesResult, WritesPrefix};
ghost use Rattle.tpf_client.specs.Sinks.{LeavesSink};
ghost use Rattle.tpf_client.specs.Sources.{sources_of};
ghost use Rattle.tpf_client.specs.Ended.{WritesEnded, GivesEnded};

use crate::asks::Asks;
use crate::results::{Call, gather, write_result};
use crate::{ClientFault, Options, Report, laws};
use bgp_core::{Query, Row};
use request_plan::Evaluates;
use std::alloc::Global;
use std::sync::Wait;
use template_fill::WebAddress;
use tpf_base::{Dial, Sink};

/// Asks the servers of the start pages for what a query needs, and writes the text of its result. What
/// it asks for and the rows that it writes are those of an evaluation that begins behind the start pages,
/// which are asked for one after another: `query` of `single_query` is the call over one server, by `Join`,
/// and `federate` of `federated_query` the one over several. Conditions: there is a start, and the options
/// are in their ranges.
///
/// The faults, what is written where one comes, and what is left of the connections are as `query` says of
/// its one start, for the hosts and ports of all starts. These clauses hold whatever the other ends
/// answer; what they mean over honest other ends is said by the calls that use this one.
pub fn evaluate_to<R: Wait, E: Evaluates + Drop, W: Dial, K: Sink>(
    rt: &R,
    alloc: Global,
    query: &Query,
    starts: &[WebAddress],
    options: &Options,
    wire: &mut W,
    out: &mut K,
) -> Result<Report, ClientFault>
    requires starts { 0 < length starts.now }
    requires bounds { SuitsCalls options.now }
    ensures whole { IfOk result (λ report. WritesResult query.now report.rows (K.state out.old).taken
        (K.state out.new).taken) }
    ensures front { OnErr result (WritesPrefix query.now (K.state out.old).taken (K.state out.new).taken) }
    ensures ended { WritesEnded (W.allows wire.old)
        (sources_of E.Source E.fits E.is_true E.rows E.plan E.reported options.now.block)
        query.now starts.now options.now result
        (W.state wire.old) (W.state wire.new) (K.state out.old) (K.state out.new) }
    ensures sink { LeavesSink (K.state out.old) (K.state out.new) result }
    ensures allowed { SameAllowed (W.allows wire.old) (W.allows wire.new) }
{
    laws::calls_rest_on_laws(wire);
    let mut asks = Asks::new(alloc, options);
    let call = Call {
        alloc,
        query,
        starts,
        options,
    };
    let ended = write_result::<_, E, _, _>(rt, call, &mut asks, wire, out);
    asks.close(wire);
    ended
}

/// Asks the servers of the start pages for what a query needs, and gives the rows of its result (solution
/// mappings) in a list, each with a place for every name of the query: `evaluate_to` without a sink, so
/// that `Sink` never comes. At a fault no rows are given. Conditions: as with `evaluate_to`.
pub fn evaluate_rows<R: Wait, E: Evaluates + Drop, W: Dial>(
    rt: &R,
    alloc: Global,
    query: &Query,
    starts: &[WebAddress],
    options: &Options,
    wire: &mut W,
) -> Result<(Vec<Row>, Report), ClientFault>
    requires starts { 0 < length starts.now }
    requires bounds { SuitsCalls options.now }
    ensures ended { GivesEnded (W.allows wire.old)
        (sources_of E.Source E.fits E.is_true E.rows E.plan E.reported options.now.block)
        query.now starts.now options.now result (λ r. r.1) (λ r. r.0.items) (W.state wire.old) (W.state wire.new) }
    ensures sink { IsErrOf result ClientFault.Sink → ⊥ }
    ensures allowed { SameAllowed (W.allows wire.old) (W.allows wire.new) }
{
    laws::calls_rest_on_laws(wire);
    let mut asks = Asks::new(alloc, options);
    let call = Call {
        alloc,
        query,
        starts,
        options,
    };
    let ended = gather::<_, E, _>(rt, call, &mut asks, wire);
    asks.close(wire);
    ended
}

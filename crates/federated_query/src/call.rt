// The call.
ghost use Rattle.std.specs.Prelude.{ℕ, ◌≡◌, ◌<◌, length, true, IfOk, IfErr, OnErr, None};
ghost use Rattle.tpf_base.specs.Causes.{Rose};
ghost use Rattle.tpf_base.specs.Links.{SameAllowed};
ghost use Rattle.tpf_client.specs.Bounds.{SuitsCalls};
ghost use Rattle.tpf_client.specs.Calls.{most_over, WritesResult, WritesPrefix};
ghost use Rattle.tpf_client.specs.Ended.{WritesOverEnds};
ghost use Rattle.tpf_client.specs.Still.{SucceedsStillOver};
ghost use Rattle.tpf_client.specs.Ends.{servers_ends};
ghost use Rattle.tpf_client.specs.Honest.{WritesSolutions, WritesSolutionsFront};
ghost use Rattle.tpf_client.specs.Offers.{servers_offer};
ghost use Rattle.tpf_client.specs.Plans.{RisesFew, PlanFits, MayStill};
ghost use Rattle.tpf_client.specs.Sinks.{LeavesSink};
ghost use Rattle.federated_query.specs.Servers.{AreApart, joint_sources, OverServers};
ghost use Rattle.federated_query.specs.Limits.{ServersFit, SucceedsWithin};

use bgp_core::Query;
use federation::Federation;
use std::alloc::Global;
use std::sync::Wait;
use template_fill::WebAddress;
use tpf_base::{Dial, Sink};
use tpf_client::{ClientFault, Options, Report, evaluate_to, laws};

/// Asks the servers of several start pages one query, and writes the text of the solutions over the union of what they hold
/// (Triple Pattern Fragments; SPARQL 1.1 Query Results JSON Format). Conditions: there is a start, no two starts have one
/// authority, and the options are in their ranges.
///
/// The start pages are asked for first, one after another, and then each pattern that is to be matched is asked of every server.
/// The head of the text is written once the start pages are read, then each row as it comes, and the end. At each exit every
/// connection (link) of this call is closed; each was dialled for the host and port of one of the starts, and no more requests
/// were started than the budget allows, over all servers together. Connections that were there before are left as they are. At no
/// moment more pages are waited for than the window times the patterns of the query times the servers. No version is reported.
///
/// Over a wire whose other ends answer as a server does at each start, each with data of its own, requests are sent for the starts
/// and the plan of a join over all servers alone: each pattern is asked for at every server, and the sum of their counts says
/// which one is matched first. Where each answer is a page within the options, and the wire fails at most as often as a request
/// may be sent again, the answer is `Ok`, `OutOfMemory`, or `Changed` where the data of a server did change (`complete`); and
/// `Ok` or `OutOfMemory` where each server answers over one version, whatever it served before the call (`still`). Each
/// answer is a page where the data of no server change, each is within the limits of what is served and answers its start, and the
/// starts and the terms of the query are short (`limits`); and where one version of each server is so, over which it answers
/// (`still_limits`).
///
/// The faults come as with `query` of `tpf_client`; `Changed` where a page tells another version of the data than the start page
/// of its own server.
pub fn federate<R: Wait, W: Dial, K: Sink>(
    rt: &R,
    alloc: Global,
    query: &Query,
    starts: &[WebAddress],
    options: &Options,
    wire: &mut W,
    out: &mut K,
) -> Result<Report, ClientFault>
    requires starts { 0 < length starts.now }
    requires apart { AreApart starts.now }
    requires bounds { SuitsCalls options.now }
    ensures whole { IfOk result (λ report. WritesResult query.now report.rows (K.state out.old).taken
        (K.state out.new).taken) }
    ensures front { OnErr result (WritesPrefix query.now (K.state out.old).taken (K.state out.new).taken) }
    ensures ended { WritesOverEnds (W.allows wire.old) (servers_ends query.now starts.now) joint_sources
        query.now starts.now options.now (most_over options.now query.now (length starts.now)) result
        (W.state wire.old) (W.state wire.new) (K.state out.old) (K.state out.new) }
    ensures headline { OverServers (W.allows wire.old) starts.now (W.state wire.old)
        (λ publishers. IfOk result (λ report. WritesSolutions
        (servers_offer publishers query.now starts.now) query.now report.version report.rows (K.state out.old).taken
        (K.state out.new).taken)) }
    ensures prefix { OverServers (W.allows wire.old) starts.now (W.state wire.old)
        (λ publishers. OnErr result (WritesSolutionsFront (servers_offer publishers query.now starts.now) query.now
        (K.state out.old).taken (K.state out.new).taken)) }
    ensures complete { OverServers (W.allows wire.old) starts.now (W.state wire.old)
        (λ publishers. (W.state wire.old).nature.lively ≡ true → (rise : ℕ)
        → RisesFew options.now rise (W.state wire.old) (W.state wire.new)
        → PlanFits (servers_offer publishers query.now starts.now) options.now rise
        → (Rose (K.state out.old).faults (K.state out.new).faults → ⊥)
        → IfErr result (MayStill (servers_offer publishers query.now starts.now))) }
    ensures limits { OverServers (W.allows wire.old) starts.now (W.state wire.old)
        (λ publishers. (W.state wire.old).nature.lively ≡ true → (rise : ℕ)
        → RisesFew options.now rise (W.state wire.old) (W.state wire.new)
        → ServersFit publishers query.now starts.now options.now rise
        → (Rose (K.state out.old).faults (K.state out.new).faults → ⊥)
        → IfErr result (MayStill (servers_offer publishers query.now starts.now))) }
    ensures still { SucceedsStillOver (W.allows wire.old) options.now query.now starts.now (W.state wire.old)
        (W.state wire.new)
        (Rose (K.state out.old).faults (K.state out.new).faults) result }
    ensures still_limits { SucceedsWithin (W.allows wire.old) options.now query.now starts.now (W.state wire.old)
        (W.state wire.new)
        (Rose (K.state out.old).faults (K.state out.new).faults) result }
    ensures version { IfOk result (λ report. report.version ≡ None) }
    ensures sink { LeavesSink (K.state out.old) (K.state out.new) result }
    ensures allowed { SameAllowed (W.allows wire.old) (W.allows wire.new) }
{
    laws::calls_rest_on_laws(wire);
    laws::is_bounded(options.max_body);
    plan_laws::plans_are_read();
    plan_laws::joint_plans_are_read();
    template_fill::laws::pages_are_answered();
    template_fill::laws::versions_are_valid();
    evaluate_to::<_, Federation, _, _>(rt, alloc, query, starts, options, wire, out)
}

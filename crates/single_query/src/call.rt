// The calls.
ghost use Rattle.std.specs.Prelude.{ℕ, ◌≡◌, [], ◌∷◌, true, IfOk, IfErr, OnErr, IsErrOf};
ghost use Rattle.tpf_base.specs.Causes.{Rose};
ghost use Rattle.tpf_base.specs.Links.{SameAllowed};
ghost use Rattle.tpf_client.specs.Bounds.{SuitsCalls};
ghost use Rattle.tpf_client.specs.Calls.{most_asked, WritesResult, WritesPrefix};
ghost use Rattle.tpf_client.specs.Sinks.{LeavesSink};
ghost use Rattle.tpf_client.specs.Sources.{world_sources};
ghost use Rattle.tpf_client.specs.Offers.{publisher, offer_in_blocks};
ghost use Rattle.tpf_client.specs.Ends.{ends_in_blocks};
ghost use Rattle.tpf_client.specs.Honest.{IsSolutions, WritesSolutions, WritesSolutionsFront};
ghost use Rattle.tpf_client.specs.Plans.{OverHonest, RisesFew, PlanFits, MayStill};
ghost use Rattle.tpf_client.specs.Still.{SucceedsStill, PacesStill};
ghost use Rattle.tpf_client.specs.Ended.{WritesOverEnds, GivesOverEnds};

use bgp_core::{Query, Row};
use join_core::Join;
use std::alloc::Global;
use std::slice;
use std::sync::Wait;
use template_fill::WebAddress;
use tpf_base::{Dial, Sink};
use tpf_client::{ClientFault, Options, Report, evaluate_rows, evaluate_to, laws};

/// Asks the server of a start page for what a query needs, and writes the text of its result (Triple
/// Pattern Fragments; SPARQL 1.1 Query Results JSON Format). Condition: the options are in their ranges.
///
/// The head of the text is written once the start page is read, then each row as it comes, and the
/// end. At a fault the sink took a prefix of such a text: before the start page was read nothing, and
/// then, where neither it nor memory failed, the head and all rows that were given. At each exit every
/// connection (link) of this call is closed; each was dialled for the host and port of the start, and
/// no more requests were started than the budget allows. Connections that were there before are left as
/// they are. At no moment more pages are waited for than the window times the patterns of the query, or
/// the start page alone. At `Ok` the requests that are reported are at most the connections of the call,
/// the answers and the faults of the wire together.
///
/// Over a wire whose other end at the host and port of the start answers as a server does, whatever other
/// hosts and ports answer, requests are sent for the start and the plan of the query alone, and no more
/// of them than these and the failures of the wire. Where each answer is a page within the options, and
/// the wire fails at most as often as a request may be sent again, the answer is `Ok`, `OutOfMemory`, or
/// `Changed` where the data did change. Where they did not change in the call, whatever was served before
/// it, it is `Ok` or `OutOfMemory`. What is said of a call that fails is said of the version of the start
/// page, and of each version where that was not read.
///
/// `Exchange`, `Stalled` and `Cut` come where a request failed once more than it may be sent again,
/// `Reply` where a reply is refused, `Page` where a body is no page, `Changed` where a page tells
/// another version of the data than the start page, `Budget` where more requests are wanted than the
/// options allow, `Sink` where the sink failed, and `OutOfMemory` where memory ran out.
pub fn query<R: Wait, W: Dial, K: Sink>(
    rt: &R,
    alloc: Global,
    query: &Query,
    start: &WebAddress,
    options: &Options,
    wire: &mut W,
    out: &mut K,
) -> Result<Report, ClientFault>
    requires bounds { SuitsCalls options.now }
    ensures whole { IfOk result (λ report. WritesResult query.now report.rows (K.state out.old).taken
        (K.state out.new).taken) }
    ensures front { OnErr result (WritesPrefix query.now (K.state out.old).taken (K.state out.new).taken) }
    ensures ended { WritesOverEnds (W.allows wire.old)
        (ends_in_blocks options.now.block query.now start.now) (world_sources options.now.block)
        query.now (start.now ∷ []) options.now (most_asked options.now query.now) result
        (W.state wire.old) (W.state wire.new) (K.state out.old) (K.state out.new) }
    ensures headline { OverHonest (W.allows wire.old) start.now (W.state wire.old)
        (λ history config. IfOk result (λ report. WritesSolutions
        (offer_in_blocks options.now.block (publisher history config) query.now start.now) query.now report.version
        report.rows (K.state out.old).taken (K.state out.new).taken)) }
    ensures prefix { OverHonest (W.allows wire.old) start.now (W.state wire.old)
        (λ history config. OnErr result (WritesSolutionsFront
        (offer_in_blocks options.now.block (publisher history config) query.now start.now) query.now
        (K.state out.old).taken (K.state out.new).taken)) }
    ensures complete { OverHonest (W.allows wire.old) start.now (W.state wire.old)
        (λ history config. (W.state wire.old).nature.lively ≡ true → (rise : ℕ)
        → RisesFew options.now rise (W.state wire.old) (W.state wire.new)
        → PlanFits (offer_in_blocks options.now.block (publisher history config) query.now start.now) options.now rise
        → (Rose (K.state out.old).faults (K.state out.new).faults → ⊥)
        → IfErr result (MayStill (offer_in_blocks options.now.block (publisher history config) query.now start.now))) }
    ensures still { SucceedsStill (W.allows wire.old) options.now query.now start.now (W.state wire.old)
        (W.state wire.new)
        (Rose (K.state out.old).faults (K.state out.new).faults) result }
    ensures sink { LeavesSink (K.state out.old) (K.state out.new) result }
    ensures allowed { SameAllowed (W.allows wire.old) (W.allows wire.new) }
{
    laws::calls_rest_on_laws(wire);
    laws::is_bounded(options.max_body);
    laws::is_sized(options.block);
    evaluate_to::<_, Join, _, _>(rt, alloc, query, slice::from_ref(start), options, wire, out)
}

/// Asks the server of a start page for what a query needs, and gives the rows of its result (solution
/// mappings) in a list, each with a place for every name of the query. At a fault no rows are given. The
/// rest is as with `query`; `Sink` never comes.
pub fn collect<R: Wait, W: Dial>(
    rt: &R,
    alloc: Global,
    query: &Query,
    start: &WebAddress,
    options: &Options,
    wire: &mut W,
) -> Result<(Vec<Row>, Report), ClientFault>
    requires bounds { SuitsCalls options.now }
    ensures ended { GivesOverEnds (W.allows wire.old)
        (ends_in_blocks options.now.block query.now start.now) (world_sources options.now.block)
        query.now (start.now ∷ []) options.now (most_asked options.now query.now) result (λ r. r.1) (λ r. r.0.items)
        (W.state wire.old) (W.state wire.new) }
    ensures headline { OverHonest (W.allows wire.old) start.now (W.state wire.old)
        (λ history config. IfOk result (λ r. IsSolutions
        (offer_in_blocks options.now.block (publisher history config) query.now start.now) r.1.version r.0.items)) }
    ensures complete { OverHonest (W.allows wire.old) start.now (W.state wire.old)
        (λ history config. (W.state wire.old).nature.lively ≡ true → (rise : ℕ)
        → RisesFew options.now rise (W.state wire.old) (W.state wire.new)
        → PlanFits (offer_in_blocks options.now.block (publisher history config) query.now start.now) options.now rise
        → IfErr result (MayStill (offer_in_blocks options.now.block (publisher history config) query.now start.now))) }
    ensures still { SucceedsStill (W.allows wire.old) options.now query.now start.now (W.state wire.old)
        (W.state wire.new) ⊥ result }
    ensures paced { PacesStill (W.allows wire.old) options.now query.now start.now (W.state wire.old)
        (W.state wire.new) (λ r. r.1) result }
    ensures sink { IsErrOf result ClientFault.Sink → ⊥ }
    ensures allowed { SameAllowed (W.allows wire.old) (W.allows wire.new) }
{
    laws::calls_rest_on_laws(wire);
    laws::is_bounded(options.max_body);
    laws::is_sized(options.block);
    evaluate_rows::<_, Join, _>(rt, alloc, query, slice::from_ref(start), options, wire)
}

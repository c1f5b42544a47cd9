// The call.
ghost use Rattle.std.specs.Prelude.{ℕ, ◌≡◌, ◌≤◌, length, true, IfOk, IfErr, OnErr, IsErrOf};
ghost use Rattle.std.specs.List.{AllByRecursion};
ghost use Rattle.tpf_base.specs.Causes.{Rose};
ghost use Rattle.tpf_base.specs.Links.{SameAllowed};
ghost use Rattle.group_query.specs.Trees.{blocks_of, group_tree};
ghost use Rattle.row_algebra.specs.Algebra.{HaveWidth};
ghost use Rattle.tpf_client.specs.Bounds.{SuitsCalls};
ghost use Rattle.tpf_client.specs.Offers.{publisher};
ghost use Rattle.tpf_client.specs.Plans.{OverHonest, PlanFits, RisesFew, MayStill};
ghost use Rattle.tpf_client.specs.Sinks.{LeavesSink};
ghost use Rattle.group_patterns.specs.Asking.{AsksBlocks, PutsTogether, Gathers, AsksAndWrites, AsksAndStops};
ghost use Rattle.group_patterns.specs.Blocks.{AsksSome};
ghost use Rattle.group_patterns.specs.Ended.{EndsGroups};
ghost use Rattle.group_patterns.specs.Plans.{group_offer};
ghost use Rattle.group_patterns.specs.Still.{GroupSucceedsStill};
ghost use Rattle.group_patterns.specs.Texts.{WritesGroup, WritesGroupPrefix, WritesGroupAnswers, WritesGroupAnswersFront};

use crate::asking::{Asking, BlockCalls};
use crate::text::write_rows;
use bgp_core::Row;
use group_query::GroupQuery;
use group_rows::{evaluate, laws};
use std::alloc::Global;
use std::sync::Wait;
use template_fill::WebAddress;
use tpf_base::{Dial, Sink};
use tpf_client::{ClientFault, Options, Report};

/// Asks the blocks of a query.
fn ask_blocks<R: Wait, W: Dial>(
    rt: &R,
    alloc: Global,
    query: &GroupQuery,
    start: &WebAddress,
    options: &Options,
    wire: &mut W,
) -> Result<Asking, ClientFault>
    requires bounds { SuitsCalls options.now }
    ensures ok { IfOk result (λ asking. AsksBlocks (W.allows wire.old) options.now start.now query.now.names
        (blocks_of (group_tree query.now)) asking (W.state wire.old) (W.state wire.new)) }
    ensures err { IfErr result (λ fault. AsksSome (W.allows wire.old) options.now start.now query.now.names
        (blocks_of (group_tree query.now)) fault (W.state wire.old) (W.state wire.new)) }
    ensures sink { IsErrOf result ClientFault.Sink → ⊥ }
    ensures allowed { SameAllowed (W.allows wire.old) (W.allows wire.new) }
{
    let mut asking = Asking::new(alloc, options.budget);
    let names = query.shown().names();
    let calls = BlockCalls {
        names,
        start,
        options,
    };
    match asking.ask_all(rt, alloc, &calls, query.steps(), wire) {
        Ok(()) => Ok(asking),
        Err(fault) => Err(fault),
    }
}

/// The answers from the rows of the blocks, and what is reported.
fn put_together(
    alloc: Global,
    query: &GroupQuery,
    budget: u64,
    asking: Asking,
) -> Result<(Vec<Row>, Report), ClientFault>
    requires within { asking.left ≤ budget }
    requires width { AllByRecursion (HaveWidth (length query.now.names)) asking.rows }
    ensures ok { IfOk result (λ r. PutsTogether budget query.now asking r.0.items r.1) }
    ensures err { IfErr result (λ fault. fault ≡ ClientFault.OutOfMemory) }
{
    let requests = budget - asking.left();
    let version = asking.version();
    match evaluate(alloc, query, asking.into_rows()) {
        Err(_) => Err(ClientFault::OutOfMemory),
        Ok(rows) => {
            let report = Report {
                requests,
                rows: rows.len() as u64,
                version,
            };
            Ok((rows, report))
        }
    }
}

/// Asks the blocks of a query, and puts their rows together.
fn gather<R: Wait, W: Dial>(
    rt: &R,
    alloc: Global,
    query: &GroupQuery,
    start: &WebAddress,
    options: &Options,
    wire: &mut W,
) -> Result<(Vec<Row>, Report), ClientFault>
    requires bounds { SuitsCalls options.now }
    ensures ok { IfOk result (λ r. Gathers (W.allows wire.old) options.now start.now query.now r.1 r.0.items
        (W.state wire.old) (W.state wire.new)) }
    ensures err { IfErr result (λ fault. AsksSome (W.allows wire.old) options.now start.now query.now.names
        (blocks_of (group_tree query.now)) fault (W.state wire.old) (W.state wire.new)) }
    ensures sink { IsErrOf result ClientFault.Sink → ⊥ }
    ensures allowed { SameAllowed (W.allows wire.old) (W.allows wire.new) }
{
    match ask_blocks(rt, alloc, query, start, options, wire) {
        Err(fault) => Err(fault),
        Ok(asking) => put_together(alloc, query, options.budget, asking),
    }
}

/// Asks the blocks of a query, puts their rows together, and writes the text of the answers.
fn write_answers<R: Wait, W: Dial, K: Sink>(
    rt: &R,
    alloc: Global,
    query: &GroupQuery,
    start: &WebAddress,
    options: &Options,
    wire: &mut W,
    out: &mut K,
) -> Result<Report, ClientFault>
    requires bounds { SuitsCalls options.now }
    ensures ok { IfOk result (λ report. AsksAndWrites (W.allows wire.old) options.now start.now query.now report
        (W.state wire.old) (W.state wire.new) (K.state out.old).taken (K.state out.new).taken) }
    ensures err { IfErr result (λ fault. AsksAndStops (W.allows wire.old) options.now start.now query.now fault
        (W.state wire.old) (W.state wire.new) (K.state out.old).taken (K.state out.new).taken) }
    ensures sink { LeavesSink (K.state out.old) (K.state out.new) result }
    ensures allowed { SameAllowed (W.allows wire.old) (W.allows wire.new) }
{
    match gather(rt, alloc, query, start, options, wire) {
        Err(fault) => Err(fault),
        Ok((rows, report)) => match write_rows(alloc, query.shown(), rows.as_slice(), out) {
            Ok(()) => Ok(report),
            Err(fault) => Err(fault),
        },
    }
}

/// Asks the server of a start page for what each block of a query with groups needs, block after block in the order in
/// which they are written, puts the rows together (SPARQL 1.1, 18.5), and writes the text of the result (SPARQL 1.1 Query
/// Results JSON Format). Condition: the options are in their ranges.
///
/// Each block is asked as a query of its own, from the start page on, with what those before it left of the budget; behind
/// the last block nothing is sent. All rows are held in memory. The requests that are reported are those of all blocks; the
/// version is the one that all of them told. A query without a block sends nothing, and its version is `None`.
///
/// Before all blocks gave their rows nothing is written; at a fault the sink took a prefix of the text. What was written, what
/// was done on the wire and why the call ended are said of the same calls for the blocks (`ended`). At each exit every
/// connection (link) of this call is closed; each was dialled for the host and port of the start, and no more dials were
/// made than the budget allows. Connections that were there before are left as they are.
///
/// Over a wire whose other end at the host and port of the start answers as a server does, `Ok` means that the sink took
/// the text of the answers, in some order, over the version of the data that is reported.
///
/// Where that end answers over one version of its data alone, such as a server that reads its data again before the call and
/// not in it, all that the blocks have to ask for over this version is answered with pages within the limits and the budget,
/// the faults of the wire rise at most as often as a request may be sent again, and the sink does not fail, the call ends with
/// `Ok`, unless memory runs out (`still`).
///
/// `Budget`, with the whole budget, where a block has to be asked and nothing of the budget is left, or more requests are
/// wanted for a block than are left; `Changed` where the start pages of two blocks tell different versions, or a page of a
/// block another than its start page. `Exchange`, `Stalled`, `Cut`, `Reply` and `Page` come as they do of a query; `Sink`
/// where the sink failed, and `OutOfMemory` where memory ran out.
pub fn answer<R: Wait, W: Dial, K: Sink>(
    rt: &R,
    alloc: Global,
    query: &GroupQuery,
    start: &WebAddress,
    options: &Options,
    wire: &mut W,
    out: &mut K,
) -> Result<Report, ClientFault>
    requires bounds { SuitsCalls options.now }
    ensures whole { IfOk result (λ report. WritesGroup query.now report.rows (K.state out.old).taken
        (K.state out.new).taken) }
    ensures front { OnErr result (WritesGroupPrefix query.now (K.state out.old).taken (K.state out.new).taken) }
    ensures ended { EndsGroups (W.allows wire.old) options.now start.now query.now result (W.state wire.old)
        (W.state wire.new) (K.state out.old) (K.state out.new) }
    ensures headline { OverHonest (W.allows wire.old) start.now (W.state wire.old)
        (λ history config. IfOk result (λ report. WritesGroupAnswers history query.now report.version report.rows
        (K.state out.old).taken (K.state out.new).taken)) }
    ensures prefix { OverHonest (W.allows wire.old) start.now (W.state wire.old)
        (λ history config. OnErr result (WritesGroupAnswersFront history query.now (K.state out.old).taken
        (K.state out.new).taken)) }
    ensures complete { OverHonest (W.allows wire.old) start.now (W.state wire.old)
        (λ history config. (W.state wire.old).nature.lively ≡ true → (rise : ℕ)
        → RisesFew options.now rise (W.state wire.old) (W.state wire.new)
        → PlanFits (group_offer (publisher history config) query.now start.now) options.now rise
        → (Rose (K.state out.old).faults (K.state out.new).faults → ⊥)
        → IfErr result (MayStill (group_offer (publisher history config) query.now start.now))) }
    ensures still { GroupSucceedsStill (W.allows wire.old) options.now query.now start.now (W.state wire.old)
        (W.state wire.new) (Rose (K.state out.old).faults (K.state out.new).faults) result }
    ensures sink { LeavesSink (K.state out.old) (K.state out.new) result }
    ensures allowed { SameAllowed (W.allows wire.old) (W.allows wire.new) }
{
    laws::solutions_suffice();
    write_answers(rt, alloc, query, start, options, wire, out)
}

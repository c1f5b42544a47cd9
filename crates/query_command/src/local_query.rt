// The query of a file through a server in the same process.
ghost use Rattle.std.specs.Prelude.{◌≡◌, ◌<◌, ◌≤◌, ◌^◌, true, None, IfOk, IfErr, IsErrOf, OnErr};
ghost use Rattle.std.specs.List.{AllByRecursion};
ghost use Rattle.template_fill.specs.declared.limits.TheConstants.{LARGEST_PAGE};
ghost use Rattle.data_files.specs.Kept.{KeepsSink};
ghost use Rattle.data_servers.specs.Servers.{serving};
ghost use Rattle.plan_laws.specs.Fitting.{AreServable, IsAskable};
ghost use Rattle.tpf_client.specs.Bounds.{SuitsCalls};
ghost use Rattle.tpf_client.specs.Requested.{AnswersPlan};
ghost use Rattle.query_command.specs.Loops.{LoopsServer, LeavesHonest, WritesLooped, FailsLooped, WritesAnswer, WritesAnswerFront, local_view, wire_of};
ghost use Rattle.query_command.specs.Plans.{SendsPlan, BoundsRequests, EndsAsPlanned, offer_of};
ghost use Rattle.query_command.specs.Groups.{FileAsked};
ghost use Rattle.query_command.specs.Over.{MayAsk};

use crate::blocks::{grammar_of, in_blocks};
use crate::fault::answered;
use crate::group_wire::ask_groups;
use crate::laws;
use crate::start::{config_of, local_start};
use answer_faults::AnswerFault;
use bgp_core::Query;
use data_files::{DataFault, read_query};
use data_servers::server_of_file;
use fragment_server::{FragmentConnection, FragmentServer};
use group_parser::Asked;
use loop_wire::LoopWire;
use single_query::query as query_server;
use std::alloc::Global;
use std::sync::Wait;
use template_fill::WebAddress;
use tpf_base::{Failing, Shelf, Sink};
use tpf_client::{ClientFault, Options, Report};
use triple_table::Choice;

/// What is asked of a file in the same process.
#[derive(Drop)]
pub struct LocalQuery<'a> {
    /// The name of the file of data.
    pub name: &'a str,
    /// The name of the file of the query.
    pub query: &'a str,
    /// Which graphs of the data are served.
    pub choice: &'a Choice,
    /// The most triples of a page: 1 to `LARGEST_PAGE` (1000).
    pub page_size: u64,
    /// What bounds the call over the wire.
    pub options: Options,
    /// The seed of the wire: how many bytes move at a time, which calls stall, and in which order the
    /// connections are ready.
    pub seed: u64,
    /// Each `fail_every`-th dial of the wire fails; none for 0.
    pub fail_every: u64,
}

/// What is asked over a wire that is made for it.
#[derive(Drop)]
pub(crate) struct OverWire<'a> {
    /// The page at which the query starts.
    pub(crate) start: &'a WebAddress,
    /// What bounds the call over the wire.
    pub(crate) options: Options,
    /// The seed of the wire.
    pub(crate) seed: u64,
    /// Each `fail_every`-th dial of the wire fails; none for 0.
    pub(crate) fail_every: u64,
}

/// Asks a server over a wire that is made for it, of this seed, on which each `fail_every`-th dial fails,
/// and leaves the wire.
pub(crate) fn ask_server<R: Wait, K: Sink>(
    rt: &R,
    alloc: Global,
    asked: &OverWire<'_>,
    server: FragmentServer,
    query: &Query,
    out: &mut K,
    inside: &mut Option<LoopWire<FragmentConnection>>,
) -> Result<Report, ClientFault>
    requires { MayAsk asked.now server }
    ensures answers { IfOk result (λ report. LoopsServer server asked.now.seed asked.now.fail_every inside.new
        (WritesLooped query.now asked.now.options report (K.state out.old) (K.state out.new))) }
    ensures cause { IfErr result (λ fault. LoopsServer server asked.now.seed asked.now.fail_every inside.new
        (FailsLooped query.now asked.now.options fault (K.state out.old) (K.state out.new))) }
    ensures answer { IfOk result (λ report. WritesAnswer (serving server).data_set query.now report.rows
        (K.state out.old).taken (K.state out.new).taken) }
    ensures front { OnErr result (WritesAnswerFront (serving server).data_set query.now
        (K.state out.old).taken (K.state out.new).taken) }
    ensures sent { LoopsServer server asked.now.seed asked.now.fail_every inside.new (λ old new.
        SendsPlan asked.now.options (serving server).data_set (serving server).config query.now (wire_of new)) }
    ensures requested { LoopsServer server asked.now.seed asked.now.fail_every inside.new (λ old new.
        BoundsRequests asked.now.options (serving server).data_set (serving server).config query.now (wire_of new)) }
    ensures replied { IfOk result (λ report. LoopsServer server asked.now.seed asked.now.fail_every inside.new
        (λ old new. AnswersPlan
        (offer_of asked.now.options (serving server).data_set (serving server).config query.now)
        asked.now.options report (wire_of old) (wire_of new))) }
    ensures ends { AreServable (serving server).data_set → AllByRecursion IsAskable query.now.patterns
        → asked.now.options.budget < 2 ^ 63 → EndsAsPlanned asked.now.fail_every asked.now.options
        (serving server).data_set (serving server).config query.now result }
    ensures honest { LoopsServer server asked.now.seed asked.now.fail_every inside.new LeavesHonest }
    ensures output { KeepsSink (K.state out.old) (K.state out.new) }
    ensures spared { (K.state out.old).faultless ≡ true → IsErrOf result ClientFault.Sink → ⊥ }
{
    plan_laws::plans_are_read();
    laws::is_sized(&asked.options);
    laws::is_few(&server);
    server.server().is_valid();
    let failing = Failing::Dials(asked.fail_every);
    let mut wire: LoopWire<FragmentConnection> = LoopWire::new(alloc, server, asked.seed, failing);
    let start = asked.start;
    let options = &asked.options;
    let answer = query_server(rt, alloc, query, start, options, &mut wire, out);
    wire.fails_as_due();
    drop(inside.replace(wire));
    answer
}

/// Serves the data of a file to a client in the same process, and writes the text of the answer to the
/// query of another file (SPARQL 1.1 Query Results JSON Format).
///
/// The data are read first, then the query. Then a wire is made for the server, of the seed, on which each
/// `fail_every`-th dial fails, and is left in `inside`; all its connections are closed.
///
/// `Data` where the data are not served, and `Query` where the query is not read: nothing was written
/// then, the output did not fail, and no wire is left. `Client` where the call over the wire ended before
/// the result was whole: the output took a prefix of such a text. Each of the two files is found once, that
/// of the query only where the data are served, and files found before are left as they were. Over a
/// faultless shelf that holds both names the shelf does not fail, as long as numbers are left (`reads`).
/// A faultless output does not fail (`output`).
///
/// Nothing is assumed of the wire. However the call ends, requests are sent for addresses of the plan alone
/// (`sent`), of any of them at most `retries` + 1 times as many as the plan has (`requested`). At an answer
/// each of these was answered, as often as the plan has it or more (`replied`). Where no dial fails, an
/// answer takes one request for each of them; else it takes the more that failed dials make necessary, and
/// a fault comes only where too many fail, a body is longer than the limit, or the budget is too small, and
/// never by a stall, a body that is no page, or another version (`ends`). Where none of these is so and
/// shelf and output do not fail, the call succeeds unless memory runs out (`complete`). What is said of
/// the plan holds where the shelf tells both files. Over any other shelf the same
/// holds of the data with which the wire was made and of a query, each as read of some file: so a stall, a
/// page that is none and another version never end the call, and an exchange only where dials are to fail
/// (`planned`). The wire that is left answers as the server of these data does (`honest`).
///
/// Where a request may carry more rows than one, the server reads them, and the query is one basic graph pattern.
///
/// A query without groups is asked as one basic graph pattern (`FileAsked.Plain`). One with groups is asked
/// block after block (`FileAsked.Groups`): the text of its answers over the data of the file is written,
/// and what was done on the wire is said of each block. A stall, a page that is none and another version
/// never end it, an exchange does only where dials are to fail, a reply only where a body of the plan is
/// longer than the limit, and the budget is told whole (`ends`).
pub fn local<R: Wait, F: Shelf, K: Sink>(
    rt: &R,
    alloc: Global,
    asked: &LocalQuery<'_>,
    shelf: &mut F,
    out: &mut K,
    inside: &mut Option<LoopWire<FragmentConnection>>,
) -> Result<Report, AnswerFault>
    requires none { inside.old ≡ None }
    requires low { 1 ≤ asked.now.page_size }
    requires high { asked.now.page_size ≤ LARGEST_PAGE }
    requires bounds { SuitsCalls asked.now.options }
    ensures { FileAsked (F.state shelf.old) (F.state shelf.new) (K.state out.old) (K.state out.new)
        inside.new (local_view asked.now) result }
{
    laws::commands_keep_limits();
    let Ok(start) = local_start(alloc) else {
        return Err(AnswerFault::Data(DataFault::OutOfMemory));
    };
    let Ok(config) = config_of(alloc, asked.page_size, in_blocks(&asked.options)) else {
        return Err(AnswerFault::Data(DataFault::OutOfMemory));
    };
    let server = match server_of_file(alloc, shelf, asked.name, asked.choice, config) {
        Ok(server) => server,
        Err(fault) => return Err(AnswerFault::Data(fault)),
    };
    let query = match read_query(alloc, shelf, asked.query, grammar_of(&asked.options)) {
        Ok(query) => query,
        Err(fault) => return Err(AnswerFault::Query(fault)),
    };
    let over = OverWire {
        start: &start,
        options: asked.options,
        seed: asked.seed,
        fail_every: asked.fail_every,
    };
    match query {
        Asked::Plain(query) => {
            let _patterns = query.patterns();
            answered(ask_server(rt, alloc, &over, server, &query, out, inside))
        }
        Asked::Groups(query) => answered(ask_groups(rt, alloc, &over, server, &query, out, inside)),
    }
}

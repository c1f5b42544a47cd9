// The query of generated data through a server in the same process.
ghost use Rattle.std.specs.Prelude.{◌≡◌, ◌≤◌, None, IfOk, IfErr};
ghost use Rattle.std.specs.List.{AllByRecursion};
ghost use Rattle.generated_data.specs.declared.limits.TheConstants.{MOST_PERSONS};
ghost use Rattle.data_servers.specs.Servers.{serving};
ghost use Rattle.data_servers.specs.Starts.{StartsGenerated};
ghost use Rattle.plan_laws.specs.Fitting.{AreServable, IsAskable};
ghost use Rattle.query_command.specs.Generated.{usual_options, usual_config, CountsQuery, LoopsGenerated, AsksOver, FailsOn};
ghost use Rattle.query_command.specs.Loops.{LoopsServer, LeavesHonest, local_base, wire_of};
ghost use Rattle.query_command.specs.Plans.{SendsPlan, BoundsRequests, RepliesRows, MayEnd};
ghost use Rattle.query_command.specs.Groups.{GeneratedAsked};
ghost use Rattle.query_command.specs.Over.{IsUsual, AsksGeneratedOver};

use crate::fault::answered;
use crate::group_wire::ask_groups;
use crate::laws;
use crate::local_query::{OverWire, ask_server};
use crate::start::{config_of, local_start};
use answer_faults::{AnswerFault, Counts};
use bgp_core::Query;
use data_files::{DataFault, Grammar, read_query};
use data_servers::server_of_generated;
use fragment_server::{FragmentConnection, FragmentServer};
use group_parser::Asked;
use group_query::GroupQuery;
use loop_wire::LoopWire;
use std::alloc::Global;
use std::sync::Wait;
use template_fill::WebAddress;
use tpf_base::{
    Drain, OutOfMemory, Shelf, USUAL_BODY, USUAL_BUDGET, USUAL_LINKS, USUAL_PAGE, USUAL_RETRIES,
    USUAL_WINDOW,
};
use tpf_client::{BlockSize, ClientFault, Options};

/// What bounds a call where no option is given.
fn usual_options() -> Options
    ensures { result ≡ usual_options }
{
    Options {
        window: USUAL_WINDOW,
        block: BlockSize::one(),
        links: USUAL_LINKS,
        retries: USUAL_RETRIES,
        budget: USUAL_BUDGET,
        max_body: USUAL_BODY,
    }
}

/// What is asked over a wire where no option is given.
fn usual_over(start: &WebAddress) -> OverWire<'_>
    ensures start { result.start.now ≡ start.now }
    ensures usual { IsUsual result }
{
    OverWire {
        start,
        options: usual_options(),
        seed: 0,
        fail_every: 0,
    }
}

/// The server of the generated data in the same process.
fn generated_server(alloc: Global, persons: u32) -> Result<FragmentServer, OutOfMemory>
    requires { persons ≤ MOST_PERSONS }
    ensures { IfOk result (λ server. StartsGenerated persons usual_config (serving server)) }
{
    let config = config_of(alloc, USUAL_PAGE, false)?;
    server_of_generated(alloc, persons, config)
}

/// Asks the server of generated data, whose result is counted and not kept.
fn ask_generated<R: Wait>(
    rt: &R,
    alloc: Global,
    persons: u32,
    start: &WebAddress,
    server: FragmentServer,
    query: &Query,
    inside: &mut Option<LoopWire<FragmentConnection>>,
) -> Result<Counts, ClientFault>
    requires start { start.now ≡ local_base }
    requires starts { StartsGenerated persons usual_config (serving server) }
    ensures counts { IfOk result (CountsQuery persons query.now) }
    ensures answers { IfOk result (λ counts. LoopsGenerated persons inside.new (AsksOver query.now counts.rows)) }
    ensures cause { IfErr result (λ fault. LoopsGenerated persons inside.new (FailsOn query.now fault)) }
    ensures sent { LoopsServer server 0 0 inside.new (λ old new.
        SendsPlan usual_options (serving server).data_set (serving server).config query.now (wire_of new)) }
    ensures requested { LoopsServer server 0 0 inside.new (λ old new.
        BoundsRequests usual_options (serving server).data_set (serving server).config query.now (wire_of new)) }
    ensures replied { IfOk result (λ counts. LoopsServer server 0 0 inside.new
        (RepliesRows (serving server).data_set (serving server).config query.now counts.rows)) }
    ensures ends { AreServable (serving server).data_set → AllByRecursion IsAskable query.now.patterns
        → IfErr result (MayEnd 0 usual_options (serving server).data_set (serving server).config query.now) }
    ensures honest { LoopsServer server 0 0 inside.new LeavesHonest }
{
    let triples = server.server().table().len() as u64;
    let asked = usual_over(start);
    let mut drain = Drain::new();
    match ask_server(rt, alloc, &asked, server, query, &mut drain, inside) {
        Ok(report) => Ok(Counts {
            triples,
            rows: report.rows,
        }),
        Err(fault) => Err(fault),
    }
}

/// Asks the server of generated data a query with groups, whose result is counted and not kept.
fn count_groups<R: Wait>(
    rt: &R,
    alloc: Global,
    persons: u32,
    start: &WebAddress,
    server: FragmentServer,
    query: &GroupQuery,
    inside: &mut Option<LoopWire<FragmentConnection>>,
) -> Result<Counts, ClientFault>
    requires start { start.now ≡ local_base }
    requires starts { StartsGenerated persons usual_config (serving server) }
    ensures { AsksGeneratedOver server persons query.now result inside.new }
{
    let triples = server.server().table().len() as u64;
    let asked = usual_over(start);
    let mut drain = Drain::new();
    match ask_groups(rt, alloc, &asked, server, query, &mut drain, inside) {
        Ok(report) => Ok(Counts {
            triples,
            rows: report.rows,
        }),
        Err(fault) => Err(fault),
    }
}

/// Serves the generated data of so many persons, at most `MOST_PERSONS` (1000000), to a client in the same
/// process, as a file is served where no option is given, and counts the triples, and the rows of the
/// answer to the query of a file. The answer itself is written nowhere.
///
/// The query is read first. Then the text of the data is made and read, and a wire is made for the
/// server and left in `inside`; all its connections are closed.
///
/// `Query` where the query is not read, and `Data` only where memory ran out: no wire is left then. `Client`
/// where the call over the wire ended before the result was whole, which is never by `Sink`. The file is
/// asked for once and no other is, and files found before are left as they were. Over a faultless shelf that
/// holds the name the shelf does not fail, as long as numbers are left (`reads`).
///
/// As with `local`, requests are sent for addresses of the plan alone (`sent`), of any of them at most three
/// times as many as the plan has (`requested`), at an answer each of these was answered, as often as the plan
/// has it or more (`replied`), a fault over the wire comes only where a body is longer than the limit, the
/// plan has more addresses than the budget, or memory ran out (`ends`), and the call succeeds where none of
/// these is so and the shelf does not fail (`complete`). Over any other shelf such a fault has the same
/// causes, of a query as read of some file (`planned`). The wire that is left answers as the server of these data
/// does (`honest`).
///
/// A query with groups is asked block after block (`GeneratedAsked.Groups`): the numbers are those of the
/// data and of its answers over them, and a fault over the wire comes only where a body is longer than the
/// limit, the budget is spent, or memory ran out (`ends`).
pub fn query_generated<R: Wait, F: Shelf>(
    rt: &R,
    alloc: Global,
    persons: u32,
    query: &str,
    shelf: &mut F,
    inside: &mut Option<LoopWire<FragmentConnection>>,
) -> Result<Counts, AnswerFault>
    requires none { inside.old ≡ None }
    requires most { persons ≤ MOST_PERSONS }
    ensures { GeneratedAsked (F.state shelf.old) (F.state shelf.new) inside.new persons query.now result }
{
    laws::commands_keep_limits();
    triple_table::laws::served_is_one();
    let query = match read_query(alloc, shelf, query, Grammar::Groups) {
        Ok(query) => query,
        Err(fault) => return Err(AnswerFault::Query(fault)),
    };
    let Ok(start) = local_start(alloc) else {
        drop(query);
        return Err(AnswerFault::Data(DataFault::OutOfMemory));
    };
    let Ok(server) = generated_server(alloc, persons) else {
        drop(query);
        return Err(AnswerFault::Data(DataFault::OutOfMemory));
    };
    match query {
        Asked::Plain(query) => {
            let _patterns = query.patterns();
            answered(ask_generated(rt, alloc, persons, &start, server, &query, inside))
        }
        Asked::Groups(query) => {
            answered(count_groups(rt, alloc, persons, &start, server, &query, inside))
        }
    }
}

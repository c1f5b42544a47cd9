// The query of a file over a wire.
ghost use Rattle.tpf_base.specs.Links.{SameAllowed};
ghost use Rattle.tpf_client.specs.Bounds.{SuitsCalls};
ghost use Rattle.query_command.specs.Groups.{ServerAsked};

use crate::blocks::grammar_of;
use crate::fault::answered;
use crate::laws;
use answer_faults::AnswerFault;
use data_files::read_query;
use group_parser::Asked;
use group_patterns::answer;
use single_query::query as query_server;
use std::alloc::Global;
use std::sync::Wait;
use template_fill::WebAddress;
use tpf_base::{Dial, Shelf, Sink};
use tpf_client::{Options, Report};

/// Reads the query of a file and asks the server of a start page over a wire for its answer, whose text
/// (SPARQL 1.1 Query Results JSON Format) goes to the output. At each exit the connections that were given
/// in the call are closed.
///
/// `Query` where the query is not read: nothing was written then, the output did not fail, and the wire is
/// as before. `Client` where the call over the wire ended before the result was whole: the output took a
/// prefix of such a text, with all rows that were given where neither the output nor memory failed. `Data`
/// never comes. The file is asked for once and no other is, and files found before are left as they were.
/// Over a faultless shelf that holds the name the shelf does not fail, as long as numbers are left
/// (`reads`). A faultless output does not fail (`output`).
///
/// Where the text of the start has at most `LONGEST_START` (65536) bytes, the wire's other ends answer as a server of data
/// within the limits of the program does, the plan fits, the faults of the wire rise at most as often as a
/// request may be sent again, and shelf and output do not fail, the call succeeds unless memory runs out
/// (`complete`).
///
/// Where a request may carry more rows than one the text is read as one basic graph pattern, and one with groups
/// is refused. Over a server that passes rows over the answer is the same.
///
/// A query without groups is asked as one basic graph pattern (`ServerAsked.Plain`). One with groups is
/// asked block after block (`ServerAsked.Groups`): over a wire whose other ends answer as a server does, the
/// text of its answers over the version that is reported is written.
pub fn query<R: Wait, F: Shelf, W: Dial, K: Sink>(
    rt: &R,
    alloc: Global,
    name: &str,
    start: &WebAddress,
    options: &Options,
    shelf: &mut F,
    wire: &mut W,
    out: &mut K,
) -> Result<Report, AnswerFault>
    requires bounds { SuitsCalls options.now }
    ensures asks { ServerAsked (F.state shelf.old) (F.state shelf.new)
        (W.allows wire.old) (W.state wire.old) (W.state wire.new) (K.state out.old) (K.state out.new)
        name.now start.now options.now result }
    ensures allowed { SameAllowed (W.allows wire.old) (W.allows wire.new) }
{
    laws::commands_keep_limits();
    plan_laws::plans_are_read();
    template_fill::laws::pages_are_answered();
    laws::is_sized(options);
    let query = match read_query(alloc, shelf, name, grammar_of(options)) {
        Ok(query) => query,
        Err(fault) => return Err(AnswerFault::Query(fault)),
    };
    match query {
        Asked::Plain(query) => {
            let _patterns = query.patterns();
            answered(query_server(rt, alloc, &query, start, options, wire, out))
        }
        Asked::Groups(query) => {
            laws::blocks_are_valid(&query);
            answered(answer(rt, alloc, &query, start, options, wire, out))
        }
    }
}

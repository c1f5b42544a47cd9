// The query of a file over a wire to several servers.
ghost use Rattle.std.specs.Prelude.{◌<◌, length};
ghost use Rattle.tpf_base.specs.Links.{SameAllowed};
ghost use Rattle.tpf_client.specs.Bounds.{SuitsCalls};
ghost use Rattle.federated_query.specs.Servers.{AreApart};
ghost use Rattle.query_command.specs.Servers.{ServersAsked};

use crate::laws;
use answer_faults::AnswerFault;
use data_files::read_patterns;
use federated_query::federate;
use std::alloc::Global;
use std::sync::Wait;
use template_fill::WebAddress;
use tpf_base::{Dial, Shelf, Sink};
use tpf_client::{Options, Report};

/// Reads the query of a file and asks the servers of several start pages over a wire for its answer over the union of what they
/// hold, whose text (SPARQL 1.1 Query Results JSON Format) goes to the output. Conditions: there is a start, and no two starts have
/// one authority. At each exit the connections that were given in the call are closed.
///
/// `Query` where the text is no query of one basic graph pattern, with its first fault, or the file is not read: nothing was
/// written then, the output did not fail, and the wire is as before (`ends`, `exact`). So a query with groups is refused. `Client`
/// where the call over the wire ended before the result was whole: the output took a prefix of such a text. `Data` never comes. The
/// file is asked for once and no other is, and files found before are left as they were (`reads`). A faultless output does not fail
/// (`output`).
///
/// The call over the wire promises all that `federate` of `federated_query` does (`ends`). Where the texts of the starts have at
/// most `LONGEST_START` (65536) bytes, the wire's other ends answer as servers do, each over one version of its data, which is within the limits of
/// what is served and answers the start (a server may have read its data again before the call), the bodies and the number of the
/// requests are within the options, the faults of the wire rise at most as often as a request may be sent again, and shelf and
/// output do not fail, it succeeds unless memory runs out (`complete`).
pub fn query_servers<R: Wait, F: Shelf, W: Dial, K: Sink>(
    rt: &R,
    alloc: Global,
    name: &str,
    starts: &[WebAddress],
    options: &Options,
    shelf: &mut F,
    wire: &mut W,
    out: &mut K,
) -> Result<Report, AnswerFault>
    requires starts { 0 < length starts.now }
    requires apart { AreApart starts.now }
    requires bounds { SuitsCalls options.now }
    ensures asks { ServersAsked (F.state shelf.old) (F.state shelf.new)
        (W.allows wire.old) (W.state wire.old) (W.state wire.new) (K.state out.old) (K.state out.new)
        name.now starts.now options.now result }
    ensures allowed { SameAllowed (W.allows wire.old) (W.allows wire.new) }
{
    laws::commands_keep_limits();
    let query = match read_patterns(alloc, shelf, name) {
        Ok(query) => query,
        Err(fault) => return Err(AnswerFault::Query(fault)),
    };
    let _patterns = query.patterns();
    match federate(rt, alloc, &query, starts, options, wire, out) {
        Ok(report) => Ok(report),
        Err(fault) => Err(AnswerFault::Client(fault)),
    }
}

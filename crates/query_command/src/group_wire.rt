// A query with groups over a wire that is made for it.
ghost use Rattle.query_command.specs.Over.{AsksGroups, MayAsk};

use crate::laws;
use crate::local_query::OverWire;
use fragment_server::{FragmentConnection, FragmentServer};
use group_patterns::answer;
use group_query::GroupQuery;
use loop_wire::LoopWire;
use std::alloc::Global;
use std::sync::Wait;
use tpf_base::{Failing, Sink};
use tpf_client::{ClientFault, Report};

/// Asks a server a query with groups over a wire that is made for it, of this seed, on which each
/// `fail_every`-th dial fails, and leaves the wire.
pub(crate) fn ask_groups<R: Wait, K: Sink>(
    rt: &R,
    alloc: Global,
    asked: &OverWire<'_>,
    server: FragmentServer,
    query: &GroupQuery,
    out: &mut K,
    inside: &mut Option<LoopWire<FragmentConnection>>,
) -> Result<Report, ClientFault>
    requires { MayAsk asked.now server }
    ensures { AsksGroups server asked.now.seed asked.now.fail_every asked.now.options query.now result
        inside.new (K.state out.old) (K.state out.new) }
{
    plan_laws::plans_are_read();
    laws::is_few(&server);
    server.server().is_valid();
    laws::blocks_are_valid(query);
    let failing = Failing::Dials(asked.fail_every);
    let mut wire: LoopWire<FragmentConnection> = LoopWire::new(alloc, server, asked.seed, failing);
    let start = asked.start;
    let options = &asked.options;
    let ended = answer(rt, alloc, query, start, options, &mut wire, out);
    wire.fails_as_due();
    drop(inside.replace(wire));
    ended
}

// The join over the pages of a server.
ghost use Rattle.std.specs.Prelude.{◌≡◌, ◌≤◌, IfOk};

use crate::fault::RunFault;
use crate::runs::Run;
use crate::served::start_form;
use crate::turns::{Runs, run_to_end};
use bgp_core::Query;
use case_rows::CaseFault;
use join_core::Join;
use std::alloc::Global;
use tpf_server::Server;

impl Runs for Join {
    fn open(&self) -> usize {
        self.open_rows()
    }
}

/// The join of a query over a server.
fn join_over(alloc: Global, server: &Server, query: &Query, window: u32) -> Result<Join, RunFault>
    requires { 1 ≤ window }
    ensures { IfOk result (λ join. join.tickets ≡ 0) }
{
    let forms = start_form(alloc, server)?;
    Ok(Join::new(alloc, query, forms, window)?)
}

/// Runs the join of a query over a server to its end.
pub fn run_join(
    alloc: Global,
    server: &Server,
    query: &Query,
    window: u32,
    run: &mut Run<'_>,
) -> Result<(), RunFault> {
    if window == 0 {
        return Err(RunFault(CaseFault::Row));
    }
    let mut join = join_over(alloc, server, query, window)?;
    run_to_end(alloc, &mut join, run)
}

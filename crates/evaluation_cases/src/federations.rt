// One query over several servers.
ghost use Rattle.std.specs.Prelude.{◌≡◌, ◌≤◌, IfOk};

use crate::fault::RunFault;
use crate::listed::form_list;
use crate::runs::Run;
use crate::turns::{Runs, run_to_end};
use bgp_core::Query;
use case_rows::CaseFault;
use federation::Federation;
use request_plan::{BlockSize, Evaluates};
use std::alloc::Global;

impl Runs for Federation {
    fn open(&self) -> usize {
        0
    }
}

/// The evaluation of a query over the servers with the forms of these templates.
fn federation_over(
    alloc: Global,
    templates: &[String],
    query: &Query,
    window: u32,
) -> Result<Federation, RunFault>
    requires { 1 ≤ window }
    ensures { IfOk result (λ federation. federation.given ≡ 0) }
{
    let forms = form_list(alloc, templates)?;
    Ok(Federation::begin(alloc, query, forms, window, BlockSize::one())?)
}

/// Runs the evaluation of a query over servers to its end.
pub fn run_federation(
    alloc: Global,
    templates: &[String],
    query: &Query,
    window: u32,
    run: &mut Run<'_>,
) -> Result<(), RunFault> {
    if window == 0 {
        return Err(RunFault(CaseFault::Row));
    }
    let mut federation = federation_over(alloc, templates, query, window)?;
    run_to_end(alloc, &mut federation, run)
}

// The start of a server in the same process.
ghost use Rattle.std.specs.Prelude.{◌≡◌, ◌≤◌, IfOk};
ghost use Rattle.template_fill.specs.declared.limits.TheConstants.{LARGEST_PAGE};
ghost use Rattle.query_command.specs.Loops.{local_base, config_of};

use hydra_controls::Config;
use std::alloc::Global;
use template_fill::{AddressFault, WebAddress, laws};
use tpf_base::OutOfMemory;

/// Where the fragments of a file stand that is served in the same process.
const BASE: &str = "http://localhost/data";

/// The start of a server in the same process.
pub(crate) fn local_start(alloc: Global) -> Result<WebAddress, OutOfMemory>
    ensures { IfOk result (λ base. base ≡ local_base) }
{
    laws::an_address_is_one();
    match WebAddress::read(alloc, BASE) {
        Ok(base) => Ok(base),
        Err(AddressFault::BadAddress) => unreachable!(),
        Err(AddressFault::OutOfMemory) => Err(OutOfMemory),
    }
}

/// The configuration of a server in the same process, which reads the rows of requests or passes them over.
pub(crate) fn config_of(alloc: Global, page_size: u64, rows: bool) -> Result<Config, OutOfMemory>
    requires low { 1 ≤ page_size }
    requires high { page_size ≤ LARGEST_PAGE }
    ensures { IfOk result (λ config. config ≡ config_of page_size rows) }
{
    let base = local_start(alloc)?;
    base.is_valid();
    match Config::new(base, page_size) {
        Some(config) => Ok(if rows { config.with_rows() } else { config }),
        None => unreachable!(),
    }
}

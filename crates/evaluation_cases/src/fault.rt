// Why a run ends before its evaluation is done.
use case_rows::CaseFault;
use tpf_base::OutOfMemory;

/// Why a run ends before its evaluation is done: the fault of its row.
#[derive(Clone, Copy)]
pub struct RunFault(pub CaseFault);

impl From<OutOfMemory> for RunFault {
    fn from(_: OutOfMemory) -> Self {
        RunFault(CaseFault::OutOfMemory)
    }
}

impl From<CaseFault> for RunFault {
    fn from(fault: CaseFault) -> Self {
        RunFault(fault)
    }
}

// Which calls of an object in memory fail, as tables say it.
use std::alloc::{AllocError, Global};
use tpf_base::Failing;

/// Which calls fail: none, each with a number that is so many times another, those with these numbers, each once so
/// many bytes moved, or each dial with a number that is so many times another.
#[derive(Clone, Copy)]
pub enum Fails {
    Never,
    Every(u64),
    At(&'static [u64]),
    AfterBytes(u64),
    Dials(u64),
}

impl Fails {
    /// The same as a plan of the base.
    pub fn failing(self, alloc: Global) -> Result<Failing, AllocError> {
        match self {
            Fails::Never => Ok(Failing::Never),
            Fails::Every(number) => Ok(Failing::Every(number)),
            Fails::At(calls) => Ok(Failing::At(Vec::from_slice(alloc, calls)?)),
            Fails::AfterBytes(bytes) => Ok(Failing::AfterBytes(bytes)),
            Fails::Dials(number) => Ok(Failing::Dials(number)),
        }
    }
}

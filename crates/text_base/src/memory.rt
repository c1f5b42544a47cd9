//! Want of memory.
ghost use Rattle.std.specs.Prelude.{◌≡◌, Ok, IfOk, IsOk};

use std::alloc::{AllocError, AllocFailed};

/// Out of memory.
#[derive(Clone, Copy, Debug, PartialEq, Eq)]
pub struct OutOfMemory;

impl From<AllocError> for OutOfMemory {
    fn from(_: AllocError) -> Self {
        OutOfMemory
    }
}

impl<T: Drop> From<AllocFailed<T>> for OutOfMemory {
    fn from(_: AllocFailed<T>) -> Self {
        OutOfMemory
    }
}

/// Three values that were made one after another, or `OutOfMemory` exactly where one of them is missing. It takes no memory.
///
/// A caller that makes all three before it asks for any has none to drop where another is missing.
pub fn all_three<A: Drop, B: Drop, C: Drop>(
    first: Result<A, OutOfMemory>,
    second: Result<B, OutOfMemory>,
    third: Result<C, OutOfMemory>,
) -> Result<(A, B, C), OutOfMemory>
    ensures all { IfOk result (λ all. (first ≡ Ok all.0) × (second ≡ Ok all.1) × (third ≡ Ok all.2)) }
    ensures there { IsOk first → IsOk second → IsOk third → IsOk result }
{
    Ok((first?, second?, third?))
}

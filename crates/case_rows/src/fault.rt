// Why a row could not be answered.
use std::alloc::{AllocError, AllocFailed};

/// Why a row could not be answered.
#[derive(Clone, Copy, Debug, Drop, PartialEq, Eq)]
pub enum CaseFault {
    /// Memory ran out.
    OutOfMemory,
    /// The row lacks a member, or has one of another kind than its call takes.
    Row,
    /// Two ways that have to give one answer differ.
    Differs,
}

impl From<AllocError> for CaseFault {
    fn from(_: AllocError) -> Self {
        CaseFault::OutOfMemory
    }
}

impl<T: Drop> From<AllocFailed<T>> for CaseFault {
    fn from(_: AllocFailed<T>) -> Self {
        CaseFault::OutOfMemory
    }
}

// Why a call gave nothing.
/// Why a call on a shelf, a sink or a wire failed.
#[derive(Clone, Copy, Debug, PartialEq, Eq)]
pub enum Fault {
    /// The object failed. Its count of faults rose in this call.
    Failed,
    /// Out of memory. Nothing was read, written or given, and the count of faults is as before.
    OutOfMemory,
}

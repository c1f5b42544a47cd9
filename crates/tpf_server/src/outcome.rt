// How a reload came out.

/// How a reload came out.
#[derive(Clone, Copy)]
pub enum Reloaded {
    /// The data were read again, and are this version: answered 200, with the number (RFC 9110,
    /// section 15).
    Version(u64),
    /// They could not be read: answered 500.
    Failed,
    /// Out of memory: answered 503.
    OutOfMemory,
}

// Why a service ended.

use data_files::DataFault;

/// Why a service ended, or did not begin.
#[derive(Debug, Drop)]
pub enum ServiceFault {
    /// The data of the file are not served, for this reason. Nothing was written, the output did not fail,
    /// and the wire is as before.
    Data(DataFault),
    /// The door (the listener) could not be opened, or an accept or a wait failed: the wire's count of
    /// faults rose.
    Wire,
    /// The output failed, and its count of faults rose.
    Sink,
    /// Out of memory, also where one connection alone ran out of it and was closed.
    OutOfMemory,
}

// What one link does.
use tpf_base::Bytes;

/// What one link of a wire of scripts does.
///
/// Its bytes come piece by piece, one receive after another, each piece after one `NotYet`. A
/// receive into a shorter buffer cuts a piece, and the rest comes at the next one. In place of a
/// piece without bytes comes a second `NotYet`.
#[derive(Debug, Drop)]
pub struct Script {
    /// On how many links at least a byte has to be sent before the first piece comes.
    pub after: u64,
    /// The bytes that the other end sends.
    pub pieces: Vec<Bytes>,
    /// Whether a receive after the last piece answers `End`. Else it answers `NotYet`.
    pub ends: bool,
    /// The most bytes that one send takes. Where it is 0 each send answers `NotYet`.
    pub most: usize,
}

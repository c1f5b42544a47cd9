//! The limit that definitions here name. It is this project's own.

use page_responses::LONGEST_PART;
use tpf_base::ENOUGH_PENDING;

/// The most bytes that are pending on a connection at any time, 81919: one fewer than `ENOUGH_PENDING`,
/// and one part.
pub const MOST_PENDING: usize = ENOUGH_PENDING - 1 + LONGEST_PART;

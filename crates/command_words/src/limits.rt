//! The limits that definitions here name. They are this project's own.

/// The most bytes of an address as it is typed.
pub const LONGEST_TYPED: usize = 2048;

/// The most rows that are extended at once, of `--window`.
pub const MOST_WINDOW: u32 = 10000;

/// How often a request that failed is sent again at most, of `--retries`.
pub const MOST_RETRIES: u32 = 100;

/// The most exchanges that may be started, of `--budget`.
pub const MOST_BUDGET: u64 = 1000000000000;

/// The most bytes of a reply's body that may be taken, of `--max-body`: 256 MiB.
pub const LARGEST_BODY: u64 = 268435456;

/// The most connections after which a service may stop, of `--stop-after`.
pub const MOST_CONNECTIONS: u64 = 1000000000;

/// Of how many dials one fails at the rarest, of `--fail-every`.
pub const RAREST_FAILURE: u64 = 1000000000;

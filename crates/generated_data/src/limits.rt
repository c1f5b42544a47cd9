//! The limits that definitions here name. They are this project's own.

/// The most persons of data that are generated and served.
pub const MOST_PERSONS: u32 = 1000000;

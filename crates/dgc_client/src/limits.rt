//! The limits of a client's table.

/// The most references that a client holds at one server, so that one dirty call can name them all.
pub const MAX_REFS: usize = 16_384;
/// The longest duration that an answer grants, in milliseconds.
pub const MAX_GRANTED_MS: u64 = 1 << 40;
/// Each moment that is kept is below this one, in milliseconds.
pub const END_OF_TIME: u64 = 1 << 62;
/// The greatest number, which no call is sent with.
pub const LAST_NUMBER: i64 = i64::MAX;

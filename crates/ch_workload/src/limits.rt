//! The limits of sessions and clients, each with its name in `specs/Limits.antt`.

/// Measurements of a trial that a session asks for.
pub(crate) const MOST_REPEATS: u32 = 9;

/// Calls of one client.
pub(crate) const MOST_CALLS: u64 = 10_000;

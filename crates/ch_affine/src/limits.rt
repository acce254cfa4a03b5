//! The limits under which no sum or product of this crate wraps.

/// The coefficients of a form, and the variables of a system.
pub const MOST_VARIABLES: u32 = 4096;

/// The magnitude of a coefficient and of a constant.
pub const LARGEST_COEFFICIENT: i64 = 1 << 60;

/// The magnitude of a number of a point, and of an end of a range.
pub const LARGEST_END: i64 = 1 << 54;

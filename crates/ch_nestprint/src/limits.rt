//! The limits on programs that decide how one is printed.

/// The magnitude of a coefficient and of a constant in affine text.
pub(crate) const MOST_AFFINE: i64 = 1 << 30;

/// The magnitude of a number of the language, and of each number of the difference of two affine
/// sides.
pub(crate) const MOST_NUMBER: i64 = 1 << 31;

/// Why a system has no point. The row is an index into the system's rows.
#[derive(Debug, Clone, Copy, PartialEq, Eq)]
pub enum Excluded {
    /// A later row is the row's negative, and the greatest common divisor of its coefficients
    /// doesn't divide its constant.
    Gcd { row: usize },
    /// The row is below 0 in the whole box.
    Range { row: usize },
}

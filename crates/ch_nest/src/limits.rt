//! The limits of a program, each with its name in `specs/Limits.antt`.

/// Loops around one another.
pub const DEEPEST: usize = 6;

/// Conditions around one another.
pub const MOST_CONDITIONS: u32 = 32;
/// What is added to a loop's value from turn to turn.
pub const MOST_STEP: u32 = 64;

pub const MOST_STATEMENTS: u32 = 16;
/// Numbers, names and accesses of one right side.
pub const MOST_OPERANDS: u32 = 256;
/// Parentheses and minus signs around one another.
pub const MOST_NESTING: u32 = 32;
/// Forms of a `max` or a `min`.
pub const MOST_FORMS: usize = 4;
/// The magnitude of a coefficient, of a constant and of a loop's ends in affine text.
pub const MOST_AFFINE: u64 = 1 << 30;
/// The magnitude of a number.
pub const MOST_NUMBER: u64 = 1 << 31;

pub const MOST_DIMENSIONS: usize = 4;
/// Cells of all arrays.
pub const MOST_CELLS: u64 = 262144;
/// Turns of all loops and instances of all statements.
pub const MOST_WORK: u32 = 1048576;

/// A machine's cost of a turn and of a miss.
pub const MOST_CHARGE: u32 = 1 << 20;
/// Lines of a cache, and cells of a line.
pub const MOST_CACHE: u32 = 4096;
/// The magnitude of the numbers at which forms are valued.
pub const MOST_VALUE: u64 = 1 << 54;

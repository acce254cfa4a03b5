pub(crate) const MOST_PARAMS: usize = 6;

pub(crate) const MOST_COMMANDS: usize = 32;
/// Conditions between the parameters.
pub(crate) const MOST_CONDITIONS: usize = 8;
/// Terms of one condition, both sides together.
pub(crate) const MOST_TERMS: usize = 1 << 20;

pub(crate) const DEEPEST_LEVEL: u32 = 10;

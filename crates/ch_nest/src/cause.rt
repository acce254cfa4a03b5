/// Why the shape of a program forbids a command: the first of the causes C1 to C11 that holds,
/// before any dependence is looked at.
///
/// | code | cause | number |
/// |---|---|---|
/// | 1 | a statement number isn't a piece's | that number |
/// | 2 | a level doesn't exist | the level, the length of an order, or the greatest level that a condition names |
/// | 3 | an order isn't a permutation, or a list names a statement twice | 0 |
/// | 4 | a size, amount, count, coefficient or constant is out of its range, or there are too few or many amounts | it |
/// | 5 | a piece doesn't share a level that the command needs | the piece |
/// | 6 | the product of unroll amounts and skews passes 2^20 | the product |
/// | 7 | there are more than 256 pieces | how many |
/// | 8 | a piece is deeper than 10 levels | how deep |
/// | 9 | a buffer has more than 65,536 cells | how many |
/// | 10 | an array isn't declared, or isn't accessed | 0 |
/// | 11 | there are more than 2,097,152 elements | how many |
#[derive(Clone, Copy, Debug, PartialEq, Eq)]
pub struct Shape {
    /// 1 to 11.
    pub code: u32,
    pub number: i128,
}

use ch_timed::{Cell, Identity};

/// Two statement instances that conflict, the one that was executed first before the other, and the
/// first cell on which they conflict.
#[derive(Debug, Drop)]
pub struct Pair {
    pub first: Identity,
    pub second: Identity,
    pub cell: Cell,
}

/// An element of the piece `from` and a later one of the piece `to` conflict, and their vectors
/// first differ in the loop value of that level, counted from 1, or in a place, for which the level
/// is 0.
#[derive(Clone, Copy, Debug, PartialEq, Eq)]
pub struct Level {
    pub from: u32,
    pub to: u32,
    pub level: u32,
}

/// Two pieces of a space by their numbers, the lesser one first, or one piece twice.
#[derive(Clone, Copy, Debug, PartialEq, Eq)]
pub struct PiecePair {
    pub one: u32,
    pub other: u32,
}

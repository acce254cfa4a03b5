use ch_affine::List;
use ch_nest::Body;

/// What an element of a timed list comes from: a statement of the nest, or a move between an array
/// and its buffer. Both are numbered from 0.
#[derive(Clone, Copy, Debug, PartialEq, Eq)]
pub enum Label {
    Stmt(u32),
    Move(u32),
}

/// A statement instance: its label and the values of the original iterators, from the outermost
/// loop on.
#[derive(Debug, Drop)]
pub struct Identity {
    pub label: Label,
    pub iters: List<i64>,
}

/// A cell of an array: the number of the array, and one subscript per dimension.
#[derive(Debug, Drop)]
pub struct Cell {
    pub array: u32,
    pub subs: List<i64>,
}

/// A statement instance at its place in time. The time vector has static places and loop values in
/// turn, from the place in the outermost body to the place in the innermost one: `(p0, x1, p1, ..
/// xd, pd)`.
#[derive(Debug, Drop)]
pub struct Element {
    pub identity: Identity,
    pub vector: List<i64>,
    pub body: Body,
}

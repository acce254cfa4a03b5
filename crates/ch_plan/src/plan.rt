//! Code made ready to run: each access is one place among all cells, a sum over the values of the
//! loops around.

use ch_affine::{Boxed, List, System};

/// A multiple of the value of a loop. Loops are counted from 0, the outermost one.
#[derive(Clone, Copy)]
pub struct Term {
    pub level: usize,
    pub coef: i64,
}

/// A constant and multiples of loop values.
#[derive(Drop)]
pub struct Sum {
    pub terms: List<Term>,
    pub constant: i64,
}

/// A multiple of a sum.
#[derive(Drop)]
pub struct Weight {
    pub coef: i64,
    pub sum: Sum,
}

/// A constant and multiples of iterators modulo a number, and how many cells a step of it is worth.
#[derive(Drop)]
pub struct Residue {
    pub weights: List<Weight>,
    pub constant: i64,
    pub modulus: u32,
    pub stride: i64,
}

/// Where an access is among all cells: the subscripts without a modulus are one sum.
#[derive(Drop)]
pub struct Spot {
    pub sum: Sum,
    pub residues: List<Residue>,
}

/// A right side over loop values and places.
#[derive(Drop)]
pub enum Right {
    Number(i64),
    Value(Sum),
    Read(Spot),
    Neg(Boxed<Right>),
    Add(Boxed<Right>, Boxed<Right>),
    Sub(Boxed<Right>, Boxed<Right>),
    Mul(Boxed<Right>, Boxed<Right>),
}

/// An end of a loop: a sum divided by a number.
#[derive(Drop)]
pub struct Limit {
    pub sum: Sum,
    pub divisor: u32,
}

#[derive(Drop)]
pub enum Plan {
    Seq(List<Plan>),
    Loop {
        level: usize,
        lows: List<Limit>,
        highs: List<Limit>,
        inner: Boxed<Plan>,
    },
    Guard {
        system: System,
        around: usize,
        inner: Boxed<Plan>,
    },
    /// The statements are numbered; their places stand in a table.
    Leaf {
        leaf: usize,
        write: Spot,
        right: Right,
    },
}

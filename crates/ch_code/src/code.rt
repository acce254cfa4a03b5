use ch_affine::{Aff, Boxed, List, System};
use ch_nest::{ArrayDecl, Body};
use ch_timed::Label;
use std::marker::Model;

/// A form of the values of the loops around, divided by a number from 1 on. As a low it is rounded
/// up, as a high down.
#[derive(Debug, Drop)]
pub struct Bound {
    pub form: Aff,
    pub divisor: u32,
}

/// What is executed at the values of the loops around it, from the outermost on.
#[derive(Debug, Drop)]
pub enum Code {
    /// The parts one after another.
    Seq(List<Code>),
    /// It runs from the greatest of `lows` to the least of `highs`, both included, upwards by 1.
    /// `level` counts the loops from the outermost on, from 1.
    Loop {
        level: u32,
        lows: List<Bound>,
        highs: List<Bound>,
        inner: Boxed<Code>,
    },
    /// The inner part is executed where some point of the system begins with the values of the
    /// loops around.
    Guard {
        system: System,
        inner: Boxed<Code>,
    },
    /// A statement instance: its original iterators are `origin` of the values of the loops around,
    /// its static places `places`.
    Leaf {
        label: Label,
        body: Body,
        origin: List<Aff>,
        places: List<u32>,
    },
}

/// A program's code, with its arrays and the extents of its buffers.
///
/// By its type each loop has the level that comes next to the loops around it, and at least one low
/// and one high; a bound has one coefficient for each loop around and a divisor from 1 on, a
/// guard's system at least one variable for each, and a statement a form of them for each iterator
/// that its body may use, and one place more than there are loops around. Accesses name arrays or
/// buffers that there are. The values of the loops and the original iterators of what is executed
/// have magnitude at most 2^54.
#[derive(Debug, Drop)]
pub struct Unit {
    pub root: Code,
    pub arrays: List<ArrayDecl>,
    /// Buffers are numbered behind the arrays.
    pub temps: List<List<u32>>,
}

impl Model for Unit {
    ghost use Rattle.std.specs.Coded.{codes};
    ghost use Rattle.ch_code.specs.contracts.code.Code as code;
    ghost use Rattle.ch_nest.specs.contracts.nest.ArrayDecl as array;
    ghost use Rattle.ch_code.specs.UnitParts.{UnitParts, unit_of};
    ghost use Rattle.ch_code.specs.WellFormed.{IsUnit};

    ghost Value = { UnitParts };

    ghost coded = { Prim.hlevel (codes, code.the_row.coded, array.the_row.coded) };

    ghost view = { λ u. unit_of u.root u.arrays u.temps };

    ghost invariant = { λ u. IsUnit (unit_of u.root u.arrays u.temps) };
}

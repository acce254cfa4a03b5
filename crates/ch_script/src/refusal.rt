use ch_nest::Shape;
use ch_timed::{Cell, Identity};

/// Why a recipe is refused at a program: at which command, counted from 1, and either a cause from
/// the shape of the program, or two statement instances that conflict on a cell and that the
/// command would execute the other way round.
#[derive(Debug, Drop)]
pub enum Refusal {
    Shape {
        step: u32,
        cause: Shape,
    },
    Illegal {
        step: u32,
        first: Identity,
        second: Identity,
        cell: Cell,
    },
}

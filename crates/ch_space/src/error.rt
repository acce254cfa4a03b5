use ch_nest::Shape;
use ch_timed::{Cell, Identity};
use std::alloc::AllocError;
use thiserror::Error;

/// Why a nest has no space.
#[derive(Debug, Drop, Error)]
pub enum SpaceError {
    /// The turns of all loops and the instances of all statements pass 1,048,576 together.
    #[error("more than 1048576 turns and instances")]
    TooMany,
    /// A subscript leaves its array: the first such instance in program order, its first such
    /// access, the write before the reads, as the number of that access among all accesses of the
    /// nest, and the cell that it names.
    #[error("access {access} leaves its array")]
    OutOfRange {
        first: Identity,
        access: u32,
        cell: Cell,
    },
    #[error("out of memory")]
    Memory,
}

impl From<AllocError> for SpaceError {
    ghost use Rattle.std.specs.Prelude.{◌≡◌};
    ghost use Rattle.ch_space.specs.declared.error.SpaceError.TheVariants.{Memory};

    ghost from_gives = { λ _ e. e ≡ Memory };

    fn from(_error: AllocError) -> SpaceError {
        SpaceError::Memory
    }
}

/// Why a command gives no space.
#[derive(Debug, Drop, Error)]
pub enum ShapeError {
    /// The shape of the program forbids it.
    #[error("refused by C{} {}", .0.code, .0.number)]
    Shape(Shape),
    #[error("out of memory")]
    Memory,
}

impl From<AllocError> for ShapeError {
    ghost use Rattle.std.specs.Prelude.{◌≡◌};
    ghost use Rattle.ch_space.specs.declared.error.ShapeError.TheVariants.{Memory};

    ghost from_gives = { λ _ e. e ≡ Memory };

    fn from(_error: AllocError) -> ShapeError {
        ShapeError::Memory
    }
}

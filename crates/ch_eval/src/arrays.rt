//! The cells of a program's arrays.

ghost use Rattle.std.specs.Prelude.{◌≡◌, ◌<◌, ◌+◌, ◌^◌, pos, [], ◌++◌, length};
ghost use Rattle.std.specs.Prelude.{map, take, IfOk, OnErr, OnOk, slice_index_or};
ghost use Rattle.ch_nest.specs.Fills.{filled_cells};
ghost use Rattle.ch_eval.specs.Cells.{joined, sizes_of};
ghost use Rattle.ch_eval.specs.Made.{CanWalk, cells_after, sum_after};

use crate::ready::Ready;
use ch_nest::{Fill, Nest, cells_in, filled};
use std::alloc::{AllocError, Global};
use std::marker::Model;

/// The cells of a program's arrays, which contracts see as one list for each array.
#[derive(Debug, Drop)]
pub struct Arrays {
    /// One array behind another, each in row-major order.
    cells: Vec<i64>,
    /// How many cells each array has, and which of all cells is its first.
    sizes: Vec<usize>,
    starts: Vec<usize>,
}

impl Model for Arrays {
    ghost use Rattle.std.specs.Prelude.{List, ℤ};
    ghost use Rattle.ch_eval.specs.Cells.{HasParts, parts};

    ghost Value = { List (List ℤ) };

    ghost view = { λ a. parts a.sizes.items a.cells.items };

    ghost invariant = { λ a. HasParts a.sizes.items a.starts.items a.cells.items };
}

impl Arrays {
    /// The cells as the fills of the nest's arrays start them, one fill for each.
    pub fn filled(alloc: Global, nest: &Nest, fills: &[Fill]) -> Result<Arrays, AllocError>
        requires { length fills.now ≡ length nest.now.arrays }
        ensures value { IfOk result (λ arrays. joined arrays
            ≡ filled_cells nest.now.arrays fills.now) }
        ensures sizes { IfOk result (λ arrays. map length arrays ≡ sizes_of nest.now.arrays) }
    {
        let arrays = nest.arrays.as_slice();
        let cells = filled(alloc, arrays, fills)?;
        let mut sizes = Vec::with_capacity(alloc, arrays.len())?;
        let mut starts = Vec::with_capacity(alloc, arrays.len())?;
        let mut start = 0;
        for array in arrays {
            let size = cells_in(array.extents.as_slice());
            sizes.push(size)?;
            starts.push(start)?;
            start += size;
        }
        Ok(Arrays {
            cells: cells.into_vec(),
            sizes,
            starts,
        })
    }

    /// The cell of an array with this flat index.
    pub fn cell(&self, array: u32, at: u32) -> i64
        requires array { array < length self.now }
        requires at { at < length (slice_index_or self.now array []) }
        ensures { result ≡ slice_index_or (slice_index_or self.now array []) at (pos 0) }
    {
        let start = self.starts[array as usize];
        self.cells[start + at as usize]
    }

    /// The cells of an array, in row-major order.
    pub fn array(&self, array: u32) -> &[i64]
        requires { array < length self.now }
        ensures { result.now ≡ slice_index_or self.now array [] }
    {
        let start = self.starts[array as usize];
        let size = self.sizes[array as usize];
        &self.cells[start..start + size]
    }

    /// Runs a unit that was made ready on the cells and on buffers behind them, which start as
    /// these.
    pub(crate) fn worked(&mut self, ready: &mut Ready, buffers: &[i64]) -> Result<u64, AllocError>
        requires { CanWalk ready.old }
        ensures sizes { map length self.new ≡ map length self.old }
        ensures cells { OnOk result (joined self.new ≡ take (length (joined self.old))
            (cells_after ready.old (joined self.old ++ buffers.now))) }
        ensures cost { IfOk result (λ cost. cost ≡ sum_after ready.old) }
        ensures few { OnOk result (length (joined self.old) + length buffers.now < 2 ^ 63) }
        ensures err { OnErr result (self.new ≡ self.old) }
    {
        let total = self.cells.len();
        self.cells.extend_from_slice(buffers)?;
        let cost = ready.perform(self.cells.as_mut_slice());
        self.cells.truncate(total);
        Ok(cost)
    }
}

ghost use Rattle.std.specs.Prelude.{◌≡◌, ◌+◌, ◌<◌, ◌≤◌, length, slice_index_or};
ghost use Rattle.std.specs.Prelude.{take, [], vec_capacity, vec_len, true, IfOk};
ghost use Rattle.std.specs.List.{All};
ghost use Rattle.ch_grid.specs.Grid.{sizes};
ghost use Rattle.ch_grid.specs.Points.{is_point, count};
ghost use Rattle.ch_rank.specs.Trials.{mark, with_point};

use ch_grid::{Grid, flat_index};
use std::alloc::{AllocError, Global};
use std::marker::Model;

/// The points that have a trial, by number, with a table from a point to its trial.
#[derive(Drop)]
pub(crate) struct Trials {
    sizes: Vec<u32>,
    points: Vec<[u32; 6]>,
    table: Vec<u32>,
}

impl Model for Trials {
    ghost use Rattle.std.specs.Prelude.{◌-◌, map, take, length, vec_capacity, vec_len, true};
    ghost use Rattle.ch_rank.specs.Trials.{Listed, AreTrials};

    ghost Value = { Listed };

    ghost view = { λ t. record { sizes = t.sizes.items; points = map (take (length t.sizes.items)) t.points.items } };

    ghost invariant = { λ t. AreTrials t.sizes.items (map (take (length t.sizes.items)) t.points.items) t.table.items (vec_capacity t.points) };
}

impl Trials {
    /// No trial yet, and one cell for each point of the grid.
    pub fn start(alloc: Global, grid: &Grid) -> Result<Trials, AllocError>
        ensures { IfOk result (λ trials. trials
            ≡ record { sizes = sizes grid.now.params; points = [] }) }
    {
        let points = grid.points() as usize;
        Ok(Trials {
            sizes: sizes_of(alloc, grid)?,
            points: Vec::with_capacity(alloc, points)?,
            table: vec![in alloc; 0; points]?,
        })
    }

    /// The sizes of the grid.
    pub fn sizes(&self) -> &[u32]
        ensures value { result.now ≡ self.now.sizes }
        ensures dims { length result.now ≤ 6 }
        ensures few { count result.now ≤ 65536 }
        ensures some { All (λ n. 1 ≤ n) result.now }
        ensures fits { length self.now.points ≤ count self.now.sizes }
    {
        self.sizes.as_slice()
    }

    /// How many trials there are.
    pub fn len(&self) -> u32
        ensures value { result ≡ length self.now.points }
        ensures few { length self.now.points ≤ count self.now.sizes }
    {
        self.points.len() as u32
    }

    /// The mark of a point.
    pub fn mark(&self, point: &[u32]) -> u32
        requires { is_point self.now.sizes point.now ≡ true }
        ensures { result ≡ mark self.now.points point.now }
    {
        let at = flat_index(&self.sizes, point);
        self.table[at as usize]
    }

    /// The point of a trial.
    pub fn point_of(&self, trial: u32) -> &[u32]
        requires { trial < length self.now.points }
        ensures value { result.now ≡ slice_index_or self.now.points trial [] }
        ensures in_grid { is_point self.now.sizes result.now ≡ true }
    {
        let point = &self.points[trial as usize];
        &point[..self.sizes.len()]
    }

    /// The point of a trial, with zeros after its indices.
    pub fn row_of(&self, trial: u32) -> [u32; 6]
        requires { trial < length self.now.points }
        ensures value { take (length self.now.sizes) result
            ≡ slice_index_or self.now.points trial [] }
        ensures in_grid { is_point self.now.sizes (take (length self.now.sizes) result) ≡ true }
    {
        let _ = &self.sizes;
        padded(self.point_of(trial))
    }

    /// The trial of a point, which is a new one where it has none.
    pub fn enlist(&mut self, point: &[u32]) -> u32
        requires { is_point self.old.sizes point.now ≡ true }
        ensures points { self.new.points ≡ with_point self.old.points point.now }
        ensures sizes { self.new.sizes ≡ self.old.sizes }
        ensures trial { mark self.new.points point.now ≡ result + 1 }
    {
        let at = flat_index(&self.sizes, point);
        let mark = self.table[at as usize];
        if mark > 0 {
            return mark - 1;
        }
        let trial = self.points.len() as u32;
        self.points.push_reserved(padded(point));
        self.table[at as usize] = trial + 1;
        trial
    }
}

/// How many values each parameter has.
pub(crate) fn sizes_of(alloc: Global, grid: &Grid) -> Result<Vec<u32>, AllocError>
    ensures { IfOk result (λ list. list.items ≡ sizes grid.now.params) }
{
    let mut sizes = Vec::new(alloc);
    for k in 0..grid.params.len() {
        sizes.push(grid.size_of(k as u32))?;
    }
    Ok(sizes)
}

/// The indices of a point, and zeros after them.
fn padded(point: &[u32]) -> [u32; 6]
    requires { length point.now ≤ 6 }
    ensures { take (length point.now) result ≡ point.now }
{
    let mut indices = [0; 6];
    for i in 0..point.len() {
        indices[i] = point[i];
    }
    indices
}

//! A unit made ready to run.

ghost use Rattle.std.specs.Prelude.{◌≡◌, ℕ, pos, List, [], ◌∷◌, ◌++◌};
ghost use Rattle.std.specs.Prelude.{length, replicate, IfOk, OnOk};
ghost use Rattle.std.specs.Int.{int_wrap, w64};
ghost use Rattle.ch_code.specs.declared.code.Code.{Code};
ghost use Rattle.ch_nest.specs.Arrays.{extents_of, total};
ghost use Rattle.ch_plan.specs.Divisor.{IsDivisor};
ghost use Rattle.ch_plan.specs.Planned.{machine_of};
ghost use Rattle.ch_plan.specs.Ready.{AreBases, extents_in};
ghost use Rattle.ch_eval.specs.Cells.{unit_extents};
ghost use Rattle.ch_eval.specs.Made.{CanWalk, IsPlan, IsReadyFor, cells_after, sum_after};

use crate::make::{Needs, plan_of};
use ch_affine::List;
use ch_code::Unit;
use ch_nest::{ArrayDecl, Machine};
use ch_plan::{Placed, Plan, Setting, Tally, divisor_of, plus, stride, walk};
use ch_poly::Room;
use std::alloc::{AllocError, Global};

/// Adds an array or a buffer behind those of the list, whose cells end before `base`. It gives
/// where its own cells end.
fn place(
    alloc: Global,
    placed: &mut List<Placed>,
    base: i64,
    extents: &[u32],
) -> Result<i64, AllocError>
    requires bases { AreBases placed.old }
    requires base { base ≡ int_wrap w64 (pos (total (extents_in placed.old))) }
    ensures bases { OnOk result (AreBases placed.new) }
    ensures extents { OnOk result (extents_in placed.new
        ≡ extents_in placed.old ++ extents.now ∷ []) }
    ensures end { IfOk result (λ end. end ≡ int_wrap w64 (pos (total (extents_in placed.new)))) }
{
    let copy = List::from_slice(alloc, extents)?;
    placed.push(Placed {
        base,
        extents: copy,
    })?;
    Ok(plus(base, stride(extents)))
}

/// The arrays and then the buffers, each with its first cell.
fn placed(
    alloc: Global,
    arrays: &[ArrayDecl],
    temps: &[List<u32>],
) -> Result<List<Placed>, AllocError>
    ensures bases { IfOk result AreBases }
    ensures extents { IfOk result (λ list. extents_in list ≡ extents_of arrays.now ++ temps.now) }
{
    let mut placed = List::new(alloc);
    let mut base = 0;
    for array in arrays {
        base = place(alloc, &mut placed, base, array.extents.as_slice())?;
    }
    for extents in temps {
        base = place(alloc, &mut placed, base, extents.as_slice())?;
    }
    Ok(placed)
}

/// A unit made ready to run on a machine.
#[derive(Drop)]
pub(crate) struct Ready {
    plan: Plan,
    setting: Setting,
    tally: Tally,
    point: Vec<i64>,
    room: Room,
}

fn setting_of(needs: Needs, machine: &Machine) -> Setting
    ensures machine { machine_of result ≡ machine.now }
    ensures lines { IsDivisor result.lines }
    ensures width { IsDivisor result.width }
    ensures places { result.places ≡ needs.places }
    ensures vars { result.vars ≡ needs.vars }
    ensures rows { result.rows ≡ needs.rows }
{
    Setting {
        turn: u64::from(machine.turn),
        miss: u64::from(machine.miss),
        lines: divisor_of(machine.lines),
        width: divisor_of(machine.width),
        places: needs.places,
        vars: needs.vars,
        rows: needs.rows,
    }
}

fn tally_of(alloc: Global, leaf: usize, deep: usize, lines: u32) -> Result<Tally, AllocError>
    ensures slots { IfOk result (λ t. t.slots.items ≡ replicate lines 0) }
    ensures last { IfOk result (λ t. length t.last.items ≡ deep) }
    ensures leaf { IfOk result (λ t. t.leaf ≡ leaf) }
    ensures sum { IfOk result (λ t. t.sum ≡ 0) }
{
    let slots = vec![in alloc; 0u64; lines as usize]?;
    let last = vec![in alloc; 0i64; deep]?;
    Ok(Tally {
        slots,
        last,
        leaf,
        sum: 0,
    })
}

fn with_plan(
    alloc: Global,
    plan: Plan,
    needs: Needs,
    machine: &Machine,
) -> Result<Ready, AllocError>
    ensures { (extents : List (List ℕ)) (root : Code) → IsPlan extents 0 needs root plan
        → IfOk result (IsReadyFor extents root machine.now) }
{
    let tally = tally_of(alloc, needs.places.len(), needs.deep, machine.lines)?;
    let point = vec![in alloc; 0i64; needs.deep]?;
    let room = Room::of(alloc, needs.vars, needs.rows)?;
    let setting = setting_of(needs, machine);
    Ok(Ready {
        plan,
        setting,
        tally,
        point,
        room,
    })
}

pub(crate) fn make_ready(alloc: Global, unit: &Unit, machine: &Machine) -> Result<Ready, AllocError>
    ensures { IfOk result (IsReadyFor (unit_extents unit.now) unit.now.root machine.now) }
{
    let placed = placed(alloc, unit.arrays.as_slice(), unit.temps.as_slice())?;
    let mut needs = Needs {
        places: List::new(alloc),
        deep: 0,
        vars: 0,
        rows: 0,
    };
    let plan = plan_of(alloc, placed.as_slice(), &unit.root, 0, &mut needs)?;
    with_plan(alloc, plan, needs, machine)
}

impl Ready {
    /// Runs the unit on these cells, and gives its cost.
    pub(crate) fn perform(&mut self, cells: &mut [i64]) -> u64
        requires { CanWalk self.old }
        ensures cells { cells.new ≡ cells_after self.old cells.old }
        ensures cost { result ≡ sum_after self.old }
    {
        let point = self.point.as_mut_slice();
        walk(
            &self.setting,
            &self.plan,
            point,
            cells,
            &mut self.tally,
            &mut self.room,
        );
        self.tally.sum
    }
}

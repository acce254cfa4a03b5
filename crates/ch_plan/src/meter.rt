//! The meter: the cache, the turns that begin, and the sum.

ghost use Rattle.std.specs.Prelude.{◌≡◌, ◌<◌, ◌≤◌, ◌*◌, ◌+◌, ◌^◌, min};
ghost use Rattle.std.specs.Prelude.{length, slice_index_or, slice_set};
ghost use Rattle.ch_cost.specs.Cost.{most_cost};
ghost use Rattle.ch_plan.specs.Divisor.{IsDivisor};
ghost use Rattle.ch_plan.specs.Planned.{begun, begun_sum, kept_levels, machine_of};
ghost use Rattle.ch_plan.specs.Planned.{places_of, same_at, state, touched};

use crate::divisor::{Divisor, quotient, remainder};
use ch_affine::List;

/// A cost stops here.
const MOST_COST: u64 = 1 << 62;

/// What stays the same on a walk.
#[derive(Drop)]
pub struct Setting {
    pub turn: u64,
    pub miss: u64,
    pub lines: Divisor,
    pub width: Divisor,
    /// The places of the statements.
    pub places: List<List<u32>>,
    /// The most variables and rows of a guard.
    pub vars: u32,
    pub rows: usize,
}

/// What is known of the elements so far.
#[derive(Drop)]
pub struct Tally {
    /// For each slot of the cache the number of its line plus 1, and 0 while it is empty.
    pub slots: Vec<u64>,
    /// The values of the loops at the last element, and the number of its statement.
    pub last: Vec<i64>,
    pub leaf: usize,
    pub sum: u64,
}

#[inline]
fn capped(sum: u64, more: u64) -> u64
    ensures { result ≡ min most_cost (sum + more) }
{
    sum.saturating_add(more).min(MOST_COST)
}

#[inline]
fn slot_at(slots: &[u64], slot: usize) -> u64
    ensures { result ≡ slice_index_or slots.now slot 0 }
{
    if slot < slots.len() { slots[slot] } else { 0 }
}

#[inline]
fn put_slot(slots: &mut [u64], slot: usize, line: u64)
    ensures { slots.new ≡ slice_set slots.old slot line }
{
    if slot < slots.len() {
        slots[slot] = line;
    }
}

/// One access.
#[inline]
pub(crate) fn touch(setting: &Setting, address: usize, tally: &mut Tally)
    requires lines { IsDivisor setting.now.lines }
    requires width { IsDivisor setting.now.width }
    requires near { address ≤ 2 ^ 63 }
    ensures { state tally.new ≡ touched (machine_of setting.now) address (state tally.old) }
{
    let line = quotient(address as u64, setting.width);
    let slot = remainder(line, setting.lines) as usize;
    let known = slot_at(tally.slots.as_slice(), slot);
    put_slot(tally.slots.as_mut_slice(), slot, line + 1);
    if known != line + 1 {
        tally.sum = capped(tally.sum, setting.miss);
    }
}

/// Whether both statements have the same place and the same loop value at a level.
#[inline]
fn same_at(ours: &[u32], theirs: &[u32], point: &[i64], last: &[i64], k: usize) -> bool
    requires ours { k < length ours.now }
    requires theirs { k < length theirs.now }
    requires point { k < length point.now }
    requires last { k < length last.now }
    ensures { result ≡ same_at ours.now theirs.now point.now last.now k }
{
    ours[k] == theirs[k] && point[k] == last[k]
}

/// At how many levels, from the outermost on, both have the same place and value.
#[tactic(auto, using(crate::proofs::Keeping::kept_on, crate::proofs::Keeping::kept_here))]
fn kept(ours: &[u32], theirs: &[u32], point: &[i64], last: &[i64]) -> usize
    ensures { result ≡ kept_levels ours.now theirs.now point.now last.now }
{
    let most = ours
        .len()
        .min(theirs.len())
        .saturating_sub(1)
        .min(point.len())
        .min(last.len());
    for k in 0..most {
        if !same_at(ours, theirs, point, last, k) {
            return k;
        }
    }
    most
}

fn places_of(setting: &Setting, leaf: usize) -> &[u32]
    ensures { result.now ≡ places_of setting.now leaf }
{
    let table = setting.places.as_slice();
    if leaf < table.len() {
        table[leaf].as_slice()
    } else {
        &[]
    }
}

#[inline]
fn turned(sum: u64, turn: u64, begun: usize) -> u64
    ensures { result ≡ min most_cost (sum + turn * begun) }
{
    sum.saturating_add(turn.saturating_mul(begun as u64))
        .min(MOST_COST)
}

/// The sum with the element's own 1 and the turns that begin at it.
fn begun_sum(setting: &Setting, leaf: usize, point: &[i64], tally: &Tally) -> u64
    ensures { result ≡ begun_sum setting.now leaf point.now (state tally.now) }
{
    let ours = places_of(setting, leaf);
    let theirs = places_of(setting, tally.leaf);
    let depth = ours.len().saturating_sub(1);
    let begun = depth.saturating_sub(kept(ours, theirs, point, tally.last.as_slice()));
    turned(capped(tally.sum, 1), setting.turn, begun)
}

/// A statement begins at this point.
pub(crate) fn begin(setting: &Setting, leaf: usize, point: &[i64], tally: &mut Tally)
    requires { length tally.old.last.items ≡ length point.now }
    ensures { state tally.new ≡ begun setting.now leaf point.now (state tally.old) }
{
    tally.sum = begun_sum(setting, leaf, point, tally);
    tally.leaf = leaf;
    tally.last.as_mut_slice().copy_from_slice(point);
}

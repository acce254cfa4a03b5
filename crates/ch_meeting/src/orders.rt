//! The ways in which one vector comes before another: the first places and values in which they
//! agree, and the place or value by which they differ.

ghost use Rattle.std.specs.Prelude.{◌≡◌, ◌≤◌, ◌<◌, ◌+◌, ◌^◌, ◌+ℤ◌, ◌-ℤ◌, ◌++◌, length};
ghost use Rattle.std.specs.Prelude.{map, drop, pos, IfOk, IsTrue, OnOk, ◌↔◌, ℕ, ℤ, List};
ghost use Rattle.std.specs.List.{All};
ghost use Rattle.ch_affine.specs.Affine.{IsAtMost, value};
ghost use Rattle.ch_meeting.specs.declared.orders.Order.{Order};
ghost use Rattle.ch_meeting.specs.Asked.{level_by};
ghost use Rattle.ch_meeting.specs.Meeting.{differing_level};
ghost use Rattle.ch_timed.specs.Members.{In};
ghost use Rattle.ch_meeting.specs.Cases.{InOrder, IsWithin, OneOf, behind, orders_of};
ghost use Rattle.ch_meeting.specs.Drafts.{IsDraft, Narrows};
ghost use Rattle.ch_poly.specs.Boxes.{at};
ghost use Rattle.ch_timed.specs.Vectors.{comes_before, woven};

use crate::draft::{Draft, add_one, no_coefs, row};
use ch_affine::{Aff, List};
use std::alloc::{AllocError, Global};

/// The first `equal` values of two vectors are the same and, where it is `less`, the next one of
/// the first is less.
#[derive(Debug, Clone, Copy, PartialEq, Eq)]
pub(crate) struct Order {
    pub(crate) equal: u32,
    pub(crate) less: bool,
}

impl Order {
    /// The level by which vectors in the order first differ, 0 for a place.
    pub(crate) fn level(self) -> u32
        requires { IsTrue self.less → self.equal + 1 < 2 ^ 32 }
        ensures { result ≡ level_by self.less self.equal }
    {
        if self.less { self.equal + 1 } else { 0 }
    }
}

/// Adds the orders of values behind `equal` ones that are the same.
fn push_orders(
    orders: &mut List<Order>,
    equal: u32,
    first: &[u32],
    second: &[u32],
) -> Result<(), AllocError>
    requires { equal + length first.now < 2 ^ 32 }
    ensures { OnOk result (orders.new
        ≡ orders.old ++ map (behind equal) (orders_of first.now second.now)) }
{
    let (Some((place, first)), Some((other, second))) = (first.split_first(), second.split_first())
    else {
        return Ok(());
    };
    if *place < *other {
        return orders.push(Order { equal, less: false });
    }
    if *other < *place || second.is_empty() {
        return Ok(());
    }
    if first.is_empty() {
        return orders.push(Order { equal, less: false });
    }
    orders.push(Order { equal, less: true })?;
    push_orders(orders, equal + 1, first, second)
}

/// The orders of the values with which a vector of the first places comes before one of the second.
pub(crate) fn orders(
    alloc: Global,
    first: &[u32],
    second: &[u32],
) -> Result<List<Order>, AllocError>
    requires { length first.now < 2 ^ 32 }
    ensures exact { IfOk result (λ orders. (xs ys : List ℤ) → length first.now ≡ length xs + 1
        → length second.now ≡ length ys + 1
        → IsTrue (comes_before (woven (map pos first.now) xs) (woven (map pos second.now) ys))
        ↔ OneOf (λ o. InOrder o xs ys) orders) }
    ensures within { IfOk result (λ orders. (n m : ℕ) → length first.now ≡ n + 1
        → length second.now ≡ m + 1 → All (IsWithin n m) orders) }
    ensures levels { IfOk result (λ orders. (xs ys : List ℤ) → length first.now ≡ length xs + 1
        → length second.now ≡ length ys + 1 → (o : Order) → In o orders → InOrder o xs ys
        → differing_level 1 (woven (map pos first.now) xs) (woven (map pos second.now) ys)
        ≡ level_by o.less o.equal) }
{
    let mut orders = List::new(alloc);
    push_orders(&mut orders, 0, first, second)?;
    Ok(orders)
}

/// The row of the second variable less the first.
fn step_row(
    alloc: Global,
    variables: usize,
    first: usize,
    second: usize,
    constant: i64,
) -> Result<Aff, AllocError>
    requires after { first < second }
    requires inside { second < variables }
    requires few { variables ≤ 4096 }
    requires constant { IsAtMost (2 ^ 60) constant }
    ensures long { IfOk result (λ row. length row.coefs ≡ variables) }
    ensures value { IfOk result (λ row. (z : List ℤ) → value row z
        ≡ constant +ℤ (at z second -ℤ at z first)) }
{
    let mut coefs = no_coefs(alloc, variables)?;
    add_one(&mut coefs, first, -1)?;
    add_one(&mut coefs, second, 1)?;
    row(coefs, variables, constant)
}

/// Asks for points at which the values from `first` on and those from `second` on are in the order.
pub(crate) fn put_in_order(
    alloc: Global,
    draft: &mut Draft,
    order: Order,
    first: usize,
    second: usize,
) -> Result<(), AllocError>
    requires draft { IsDraft draft.old }
    requires after { first + order.equal ≤ second }
    requires after_next { IsTrue order.less → first + order.equal < second }
    requires inside { second + order.equal ≤ length draft.old.boxes }
    requires inside_next { IsTrue order.less → second + order.equal < length draft.old.boxes }
    ensures { OnOk result (Narrows draft.old draft.new
        (λ z. InOrder order (drop first z) (drop second z))) }
{
    let equal = order.equal as usize;
    for k in 0..equal {
        let row = step_row(alloc, draft.boxes.len(), first + k, second + k, 0)?;
        draft.zero(alloc, row)?;
    }
    if order.less {
        let row = step_row(alloc, draft.boxes.len(), first + equal, second + equal, -1)?;
        draft.at_least_zero(row)?;
    }
    Ok(())
}

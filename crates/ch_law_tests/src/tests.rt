//! Each law can be called.

use ch_copied::{copy_keeps_arrays, copy_keeps_meaning, extents_are_exact};
use ch_timed::{
    closing_keeps_order, execution_keeps_length, more_arrays_change_nothing, order_keeps_all,
    start_in_order, start_is_run, start_stays_inside, start_well_formed,
};

#[test]
fn laws_of_lists_are_called() {
    start_is_run();
    start_in_order();
    start_well_formed();
    start_stays_inside();
    closing_keeps_order();
    order_keeps_all();
    more_arrays_change_nothing();
    execution_keeps_length();
}

#[test]
fn laws_of_copies_are_called() {
    copy_keeps_meaning();
    copy_keeps_arrays();
    extents_are_exact();
}

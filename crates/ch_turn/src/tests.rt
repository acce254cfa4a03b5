//! Seats that leave marks on one value by turns. What a mark says, and that each stands once and in
//! its place, is compared when the value comes back.
mod marks;
mod threads;

use crate::Turn;
use crate::crossing::cross;
use marks::{Mark, Marks, leave_mark, lend_each};
use std::test::Fail;
use threads::mark_in_threads;

const FIRST: u32 = 65535;

#[test]
fn one_thread_makes_every_call(rt: HostRuntime) -> Result<(), Fail> {
    let alloc = rt.alloc();
    let (turn, mut seat) = Turn::new(alloc, Marks::new(alloc), 5)?;
    assert!(rt; seat.number() == FIRST && seat.left() == 5);
    let mut other = turn.split(alloc, &mut seat, 7, 2)?;
    assert!(rt; other.number() == 7 && other.left() == 2 && seat.left() == 3);
    leave_mark(&rt, &turn, &mut other, 0);
    leave_mark(&rt, &turn, &mut seat, 0);
    let news = turn.news(&mut seat);
    assert!(rt; news == 2);
    turn.join(&mut seat, other);
    assert!(rt; seat.number() == FIRST && seat.left() == 3);
    let marks = turn.close(seat);
    assert!(rt;
        marks.as_slice()
            == [
                Mark { by: 7, count: 0 },
                Mark {
                    by: FIRST,
                    count: 0
                }
            ]
            .as_slice()
    );
    Ok(())
}

#[test]
fn a_seat_is_joined_while_another_is_in_its_turn(rt: HostRuntime) -> Result<(), Fail> {
    let alloc = rt.alloc();
    let (turn, mut seat) = Turn::new(alloc, Marks::new(alloc), 10)?;
    let mut early = turn.split(alloc, &mut seat, 0, 1)?;
    let mut late = turn.split(alloc, &mut seat, 65534, 1)?;
    leave_mark(&rt, &turn, &mut early, 0);
    let mut marks = turn.enter(&rt, &mut late);
    turn.join(&mut seat, early);
    let before = turn.news(&mut late);
    marks.add(Mark {
        by: 65534,
        count: 0,
    });
    let news = marks.len();
    turn.leave(&mut late, marks, news);
    let after = turn.news(&mut seat);
    assert!(rt; before == 1 && after == 2);
    turn.join(&mut seat, late);
    let marks = turn.close(seat);
    assert!(rt;
        marks.as_slice()
            == [
                Mark { by: 0, count: 0 },
                Mark {
                    by: 65534,
                    count: 0
                }
            ]
            .as_slice()
    );
    Ok(())
}

#[test]
fn all_numbers_are_back_at_close(rt: HostRuntime) -> Result<(), Fail> {
    let alloc = rt.alloc();
    let (turn, mut seat) = Turn::new(alloc, Marks::new(alloc), 65536)?;
    lend_each(&rt, alloc, &turn, &mut seat)?;
    leave_mark(&rt, &turn, &mut seat, 0);
    assert!(rt; seat.left() == 0);
    let marks = cross(&rt, alloc, turn, seat);
    assert!(rt; marks.len() == 65536);
    for (i, m) in marks.as_slice().iter().enumerate() {
        assert!(rt; m.by as usize == i && m.count == 0);
    }
    Ok(())
}

#[test]
fn threads_mark_each_in_its_own_order(rt: HostRuntime) -> Result<(), Fail> {
    let alloc = rt.alloc();
    for threads in [2, 8] {
        let (turn, seat) = Turn::new(alloc, Marks::new(alloc), 1 << 20)?;
        let seat = mark_in_threads(&rt, alloc, &turn, seat, 0, threads);
        let marks = turn.close(seat);
        let mut next = [0u32; 8];
        for m in marks.as_slice() {
            let by = m.by as usize;
            assert!(rt; by < 8 && m.count == next[by]);
            next[by] = next[by].saturating_add(1);
        }
        assert!(rt; marks.len() == u64::from(threads) * 1000);
    }
    Ok(())
}

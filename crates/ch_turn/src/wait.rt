//! How a thread waits for its ticket: it spins, then yields, then sleeps. None of it changes the
//! table, so no clause speaks of it.
use crate::listed::Listed;
use crate::turn::{SERVING, Turn};
use std::sync::Wait;
use std::sync::atomic::Ordering;
use std::{hint, thread};

// Looks at SERVING one right after another, enough for the few short turns before this one.
const SPINS: u32 = 128;

// Looks after which the processor is yielded. A turn that takes longer is waited for asleep.
const YIELDS: u32 = 256;

impl<V: Listed> Turn<V> {
    /// Lets time pass before the next look, of which `round` came before, and the last one found
    /// `now_serving`.
    pub(crate) fn pause<R: Wait>(&self, rt: &R, now_serving: u64, round: u32) {
        if round < SPINS {
            hint::spin_loop();
        } else if round < SPINS + YIELDS {
            thread::yield_now();
        } else {
            self.sleep(rt, now_serving);
        }
    }

    // A sleeper is counted before SERVING is compared, and whoever raises SERVING reads the count
    // afterwards. So either the sleeper finds SERVING raised and doesn't sleep, or it is woken.
    // Fewer than 2^32 turns pass in between, since its own ticket is still to be served, so the low
    // bits of SERVING tell a change.
    fn sleep<R: Wait>(&self, rt: &R, now_serving: u64) {
        self.sleepers.fetch_add(1, Ordering::SeqCst);
        self.table
            .shared
            .park(rt, SERVING, (now_serving & 0xffff_ffff) as u32);
        self.sleepers.fetch_sub(1, Ordering::SeqCst);
    }

    /// Wakes all that sleep, after SERVING was raised. Without a sleeper it is one load.
    pub(crate) fn wake(&self) {
        if self.sleepers.load(Ordering::SeqCst) > 0 {
            self.table.shared.wake_all(SERVING);
        }
    }
}

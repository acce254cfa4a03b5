ghost use Rattle.std.specs.Prelude.{◌≡◌, ◌↔◌, ◌⊎◌, ◌<◌, ◌≤◌, [], length, IfOk, IsErr, Contains};
ghost use Rattle.ch_io.specs.InMemory.{SinkState, write_len, after_write};

use crate::failed::Failed;
use crate::numbered::is_listed;
use crate::sink::Sink;
use std::alloc::{AllocError, Global};
use std::marker::Model;

/// A sink over a room of memory, whose writes take at most `step` bytes each, and fail where a list
/// says so and where the room is used up.
#[derive(Debug, Drop)]
pub struct MemSink {
    taken: Vec<u8>,
    room: usize,
    step: usize,
    fail: Vec<u32>,
    next: u64,
    faults: u64,
}

impl Model for MemSink {
    ghost use Rattle.std.specs.Prelude.{◌<◌, ◌≤◌, vec_len};
    ghost use Rattle.std.specs.Vec.{vec_capacity};
    ghost use Rattle.ch_io.specs.InMemory.{SinkState};

    ghost Value = { SinkState };

    ghost view = { λ s. record {
      taken = s.taken.items;
      room = s.room;
      step = s.step;
      fail = s.fail.items;
      next = s.next;
      faults = s.faults;
    } };

    ghost invariant = { λ s. (vec_len s.taken ≤ s.room) × (s.room ≤ vec_capacity s.taken) × (0 < s.step) };
}

impl MemSink {
    /// A sink with room for so many bytes, which it takes at once: no write grows it. The writes
    /// numbered in `fail`, from 1, will fail.
    pub fn new(
        alloc: Global,
        room: usize,
        step: usize,
        fail: Vec<u32>,
    ) -> Result<MemSink, AllocError>
        requires { 0 < step }
        ensures { IfOk result (λ s.
            s ≡ record { taken = []; room = room; step = step; fail = fail.items; next = 1; faults = 0 }) }
    {
        Ok(MemSink {
            taken: Vec::with_capacity(alloc, room)?,
            room,
            step,
            fail,
            next: 1,
            faults: 0,
        })
    }

    /// The bytes taken so far.
    pub fn taken(&self) -> &[u8]
        ensures { result.now ≡ self.now.taken }
    {
        &self.taken
    }
}

impl Sink for MemSink {
    ghost use Rattle.std.specs.Prelude.{Some};

    ghost taken = { λ s. Some s.taken };

    ghost faults = { λ s. s.faults };

    fn write(&mut self, bytes: &[u8]) -> Result<usize, Failed>
        requires { 0 < length bytes.now }
        ensures fails { IsErr result ↔ (Contains self.old.fail self.old.next
            ⊎ (length self.old.taken ≡ self.old.room)) }
        ensures count { IfOk result (λ n. n ≡ write_len self.old (length bytes.now)) }
        ensures after { self.new ≡ after_write self.old bytes.now result }

        ensures some { IfOk result (λ n. 0 < n) }
        ensures later { self.old.faults ≤ self.new.faults }
    {
        let fails = is_listed(&self.fail, self.next);
        self.next = self.next.saturating_add(1);
        if fails || self.taken.len() == self.room {
            self.faults = self.faults.saturating_add(1);
            return Err(Failed);
        }
        let free = self.room - self.taken.len();
        let count = self.step.min(bytes.len().min(free));
        self.taken.extend_from_slice(&bytes[..count]).unwrap();
        Ok(count)
    }
}

#[cfg(test)]
mod tests {
    use super::*;
    use std::test::Fail;

    #[test]
    fn takes_steps_and_fails_at_the_listed_calls_and_past_its_room(
        rt: HostRuntime,
    ) -> Result<(), Fail> {
        let mut sink = MemSink::new(rt.alloc(), 6, 2, [2].to_vec(rt.alloc())?)?;
        let calls: [(&[u8; 3], Result<usize, Failed>, &[u8]); 6] = [
            (b"abc", Ok(2), b"ab"),
            (b"cde", Err(Failed), b"ab"),
            (b"cde", Ok(2), b"abcd"),
            (b"efg", Ok(2), b"abcdef"),
            (b"ghi", Err(Failed), b"abcdef"),
            (b"ghi", Err(Failed), b"abcdef"),
        ];
        for (piece, answer, taken) in calls {
            assert_eq!(rt; sink.write(piece), answer);
            assert_eq!(rt; sink.taken(), taken);
        }
        Ok(())
    }

    #[test]
    fn takes_what_the_room_allows(rt: HostRuntime) -> Result<(), Fail> {
        let mut sink = MemSink::new(rt.alloc(), 3, 8, Vec::new(rt.alloc()))?;
        assert_eq!(rt; sink.write(b"abcd"), Ok(3));
        assert_eq!(rt; sink.write(b"d"), Err(Failed));
        assert_eq!(rt; sink.taken(), b"abc".as_slice());
        Ok(())
    }
}

ghost use Rattle.std.specs.Prelude.{◌≡◌, ◌↔◌, ◌<◌, ◌≤◌, ◌++◌, [], length};
ghost use Rattle.std.specs.Prelude.{take, drop, IfOk, IsErr, OnErr, Contains};
ghost use Rattle.ch_io.specs.InMemory.{SourceState, read_len, after_read};

use crate::failed::Failed;
use crate::numbered::is_listed;
use crate::source::Source;
use std::marker::Model;

/// A source over bytes in memory, whose reads give at most `step` bytes each and fail where a list
/// says so.
#[derive(Debug, Drop)]
pub struct MemSource {
    bytes: Vec<u8>,
    at: usize,
    step: usize,
    fail: Vec<u32>,
    next: u64,
    faults: u64,
}

impl Model for MemSource {
    ghost use Rattle.std.specs.Prelude.{◌<◌, ◌≤◌, drop, vec_len};
    ghost use Rattle.ch_io.specs.InMemory.{SourceState};

    ghost Value = { SourceState };

    ghost view = { λ s. record { left = drop s.at s.bytes.items; step = s.step; fail = s.fail.items; next = s.next; faults = s.faults } };

    ghost invariant = { λ s. (s.at ≤ vec_len s.bytes) × (0 < s.step) };
}

impl MemSource {
    /// A source of these bytes. The reads numbered in `fail`, from 1, will fail.
    pub fn new(bytes: Vec<u8>, step: usize, fail: Vec<u32>) -> MemSource
        requires { 0 < step }
        ensures { result ≡ record { left = bytes.items; step = step; fail = fail.items; next = 1; faults = 0 } }
    {
        MemSource {
            bytes,
            at: 0,
            step,
            fail,
            next: 1,
            faults: 0,
        }
    }
}

impl Source for MemSource {
    ghost use Rattle.std.specs.Prelude.{Some};

    ghost left = { λ s. Some s.left };

    ghost faults = { λ s. s.faults };

    fn read(&mut self, buf: &mut [u8]) -> Result<usize, Failed>
        requires { 0 < length buf.old }
        ensures fails { IsErr result ↔ Contains self.old.fail self.old.next }
        ensures count { IfOk result (λ n. n ≡ read_len self.old (length buf.old)) }
        ensures given { IfOk result (λ n. buf.new ≡ take n self.old.left ++ drop n buf.old) }
        ensures nothing { OnErr result (buf.new ≡ buf.old) }
        ensures after { self.new ≡ after_read self.old result }

        ensures end { IfOk result (λ n. (n ≡ 0) ↔ (self.old.left ≡ [])) }
        ensures later { self.old.faults ≤ self.new.faults }
    {
        let fails = is_listed(&self.fail, self.next);
        self.next = self.next.saturating_add(1);
        if fails {
            self.faults = self.faults.saturating_add(1);
            return Err(Failed);
        }
        let left = &self.bytes[self.at..];
        let count = self.step.min(buf.len().min(left.len()));
        buf[..count].copy_from_slice(&left[..count]);
        self.at += count;
        Ok(count)
    }
}

#[cfg(test)]
mod tests {
    use super::*;
    use std::test::Fail;

    #[test]
    fn reads_steps_and_fails_at_the_listed_calls(rt: HostRuntime) -> Result<(), Fail> {
        let bytes = b"abcdefg".to_vec(rt.alloc())?;
        let fail = [2, 5].to_vec(rt.alloc())?;
        let mut source = MemSource::new(bytes, 3, fail);
        let mut buf = [0; 8];
        assert_eq!(rt; source.read(&mut buf[..2]), Ok(2));
        assert_eq!(rt; &buf[..3], b"ab\0".as_slice());
        let rest: [(Result<usize, Failed>, &[u8]); 6] = [
            (Err(Failed), b"ab\0"),
            (Ok(3), b"cde"),
            (Ok(2), b"fge"),
            (Err(Failed), b"fge"),
            (Ok(0), b"fge"),
            (Ok(0), b"fge"),
        ];
        for (answer, shown) in rest {
            assert_eq!(rt; source.read(&mut buf), answer);
            assert_eq!(rt; &buf[..3], shown);
        }
        Ok(())
    }
}

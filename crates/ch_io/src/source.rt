ghost use Rattle.std.specs.Prelude.{◌≡◌, ◌↔◌, ℕ, ◌<◌, ◌≤◌, List, [], length};
ghost use Rattle.std.specs.Prelude.{take, drop, vec_len, IfOk, IfSome, OnErr};
ghost use Rattle.std.specs.declared.option.Option.{Option};
ghost use Rattle.std.specs.Io.KnownBytes.{Consumes};
ghost use Rattle.ch_io.specs.Faults.{HasRisen};
ghost use Rattle.ch_io.specs.Streams.{LosesFront};

use crate::failed::Failed;
use std::alloc::Global;
use thiserror::Error;

/// Bytes that come in.
pub trait Source {
    /// The bytes still to come, where they are told.
    ghost left: { Self → Option (List ℕ) };
    /// How many reads have failed.
    ghost faults: { Self → ℕ };

    /// Reads some bytes into the front of `buf`, and none exactly where none is left.
    fn read(&mut self, buf: &mut [u8]) -> Result<usize, Failed>
        requires { 0 < length buf.old }
        ensures bound { IfOk result (λ n. n ≤ length buf.old) }
        ensures bytes { IfOk result (λ n.
            Consumes (left self.old) (left self.new) (take n buf.new)) }
        ensures end { IfOk result (λ n. IfSome (left self.old) (λ all. (n ≡ 0) ↔ (all ≡ []))) }
        ensures failed { OnErr result (left self.new ≡ left self.old) }
        ensures later { faults self.old ≤ faults self.new }
        ensures cause { OnErr result (HasRisen (faults self.old) (faults self.new)) };
}

/// Why an input was not read.
#[derive(Clone, Copy, Debug, PartialEq, Eq, Error)]
pub enum ReadError {
    #[error("out of memory")]
    Memory,
    #[error("a read failed")]
    Failed,
}

/// The most bytes that are asked of a source at once.
const PIECE: usize = 4096;

/// The input, at most `most` bytes of it. No byte past these is asked for.
pub fn read_input<S: Source>(
    alloc: Global,
    source: &mut S,
    most: usize,
) -> Result<Vec<u8>, ReadError>
    ensures most { IfOk result (λ input. vec_len input ≤ most) }
    ensures bytes { IfOk result (λ input. IfSome (S.left source.old) (λ all.
        input.items ≡ take most all)) }
    ensures rest { IfOk result (λ _. IfSome (S.left source.old) (λ all.
        S.left source.new ≡ Some (drop most all))) }
    ensures front { OnErr result (LosesFront most (S.left source.old) (S.left source.new)) }

    ensures later { S.faults source.old ≤ S.faults source.new }
    ensures cause { result ≡ Err ReadError.Failed
        → HasRisen (S.faults source.old) (S.faults source.new) }
{
    let mut input = Vec::new(alloc);
    let mut buf = [0; PIECE];
    while input.len() < most {
        let wanted = (most - input.len()).min(PIECE);
        let Ok(count) = source.read(&mut buf[..wanted]) else {
            return Err(ReadError::Failed);
        };
        if count == 0 {
            return Ok(input);
        }
        if input.extend_from_slice(&buf[..count]).is_err() {
            return Err(ReadError::Memory);
        }
    }
    Ok(input)
}

#[cfg(test)]
mod tests {
    use super::*;
    use crate::mem_source::MemSource;
    use std::test::Fail;

    #[test]
    fn reads_to_the_end_or_to_the_limit(rt: HostRuntime) -> Result<(), Fail> {
        let cases: [(usize, &[u8]); 5] = [
            (0, b""),
            (3, b"abc"),
            (7, b"abcdefg"),
            (8, b"abcdefg"),
            (usize::MAX, b"abcdefg"),
        ];
        for (most, want) in cases {
            let bytes = b"abcdefg".to_vec(rt.alloc())?;
            let mut source = MemSource::new(bytes, 2, Vec::new(rt.alloc()));
            let input = read_input(rt.alloc(), &mut source, most)?;
            assert_eq!(rt; input.as_slice(), want);
        }
        Ok(())
    }

    #[test]
    fn a_read_that_fails_in_mid_stream_is_told(rt: HostRuntime) -> Result<(), Fail> {
        let bytes = b"abcdefg".to_vec(rt.alloc())?;
        let mut source = MemSource::new(bytes, 2, [2].to_vec(rt.alloc())?);
        let input = read_input(rt.alloc(), &mut source, 8);
        assert_eq!(rt; input.err(), Some(ReadError::Failed));
        // What was read before is gone, and the rest still comes.
        let input = read_input(rt.alloc(), &mut source, 8)?;
        assert_eq!(rt; input.as_slice(), b"cdefg".as_slice());
        Ok(())
    }
}

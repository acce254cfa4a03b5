ghost use Rattle.std.specs.Prelude.{◌≡◌, ℕ, ◌<◌, ◌≤◌, List, length, take, IfOk, IsOk, OnErr, OnOk};
ghost use Rattle.std.specs.declared.option.Option.{Option};
ghost use Rattle.std.specs.Io.KnownBytes.{Appends};
ghost use Rattle.ch_io.specs.Faults.{HasRisen};
ghost use Rattle.ch_io.specs.Streams.{AppendsPart};

use crate::failed::Failed;

/// Bytes that go out.
pub trait Sink {
    /// The bytes taken so far, where they are told.
    ghost taken: { Self → Option (List ℕ) };
    /// How many writes have failed.
    ghost faults: { Self → ℕ };

    /// Takes the front of a piece, at least a byte of it: a sink that takes nothing has failed.
    fn write(&mut self, bytes: &[u8]) -> Result<usize, Failed>
        requires { 0 < length bytes.now }
        ensures some { IfOk result (λ n. 0 < n) }
        ensures bound { IfOk result (λ n. n ≤ length bytes.now) }
        ensures bytes { IfOk result (λ n.
            Appends (taken self.old) (taken self.new) (take n bytes.now)) }
        ensures failed { OnErr result (taken self.new ≡ taken self.old) }
        ensures later { faults self.old ≤ faults self.new }
        ensures cause { OnErr result (HasRisen (faults self.old) (faults self.new)) };
}

/// Writes a text, or the front of it that the sink takes before it fails. Each write hands over all
/// that is left.
pub fn write_all<K: Sink>(sink: &mut K, text: &[u8]) -> Result<(), Failed>
    ensures all { OnOk result (Appends (K.taken sink.old) (K.taken sink.new) text.now) }
    ensures part { OnErr result (AppendsPart (K.taken sink.old) (K.taken sink.new) text.now) }

    ensures later { K.faults sink.old ≤ K.faults sink.new }
    ensures cause { OnErr result (HasRisen (K.faults sink.old) (K.faults sink.new)) }
{
    let mut at = 0;
    while at < text.len() {
        let count = sink.write(&text[at..])?;
        at += count;
    }
    Ok(())
}

#[cfg(test)]
mod tests {
    use super::*;
    use crate::mem_sink::MemSink;
    use std::test::Fail;

    #[test]
    fn writes_all_or_the_front_of_it(rt: HostRuntime) -> Result<(), Fail> {
        let cases: [(u32, Result<(), Failed>, &[u8]); 4] = [
            (1, Err(Failed), b""),
            (2, Err(Failed), b"prog"),
            (3, Err(Failed), b"program "),
            (4, Ok(()), b"program p\n"),
        ];
        for (fail, answer, taken) in cases {
            let mut sink = MemSink::new(rt.alloc(), 64, 4, [fail].to_vec(rt.alloc())?)?;
            assert_eq!(rt; write_all(&mut sink, b"program p\n"), answer);
            assert_eq!(rt; sink.taken(), taken);
        }
        Ok(())
    }

    #[test]
    fn an_empty_text_is_written_without_a_call(rt: HostRuntime) -> Result<(), Fail> {
        let mut sink = MemSink::new(rt.alloc(), 0, 1, [1].to_vec(rt.alloc())?)?;
        assert_eq!(rt; write_all(&mut sink, b""), Ok(()));
        Ok(())
    }
}

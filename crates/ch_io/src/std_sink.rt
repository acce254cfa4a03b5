ghost use Rattle.std.specs.Prelude.{◌≡◌, ◌<◌, ◌≤◌, length, IfOk};
ghost use Rattle.ch_io.specs.Faults.{faults_after};

use crate::failed::Failed;
use crate::sink::Sink;
use std::io::Write;
use std::marker::Model;

/// A writer of std, which tells no content. Contracts see the count of its faults.
#[derive(Debug, Drop)]
pub struct StdSink<W> {
    writer: W,
    faults: u64,
}

impl<W> Model for StdSink<W> {
    ghost use Rattle.std.specs.Prelude.{ℕ};

    ghost Value = { ℕ };

    ghost view = { λ s. s.faults };
}

impl<W: Write> StdSink<W> {
    pub fn new(writer: W) -> StdSink<W>
        ensures { result ≡ 0 }
    {
        StdSink { writer, faults: 0 }
    }
}

impl<W: Write> Sink for StdSink<W> {
    ghost use Rattle.std.specs.Prelude.{None};

    ghost taken = { λ _. None };

    ghost faults = { λ s. s };

    fn write(&mut self, bytes: &[u8]) -> Result<usize, Failed>
        requires { 0 < length bytes.now }
        ensures some { IfOk result (λ n. 0 < n) }
        ensures bound { IfOk result (λ n. n ≤ length bytes.now) }
        ensures counted { self.new ≡ faults_after self.old result }
        ensures later { self.old ≤ self.new }
    {
        match self.writer.write(bytes) {
            Ok(0) | Err(_) => {
                self.faults = self.faults.saturating_add(1);
                Err(Failed)
            }
            Ok(count) => Ok(count),
        }
    }
}

#[cfg(test)]
mod tests {
    use super::*;

    #[test]
    fn a_writer_that_takes_nothing_has_failed(rt: HostRuntime) {
        let mut room = [0; 3];
        let mut sink = StdSink::new(room.as_mut_slice());
        assert_eq!(rt; sink.write(b"ab"), Ok(2));
        assert_eq!(rt; sink.write(b"cd"), Ok(1));
        assert_eq!(rt; sink.write(b"d"), Err(Failed));
    }
}

ghost use Rattle.std.specs.Prelude.{◌≡◌, ◌≤◌, length, IfOk};
ghost use Rattle.ch_io.specs.Faults.{faults_after};

use crate::failed::Failed;
use crate::source::Source;
use std::io::Read;
use std::marker::Model;

/// A reader of std, which tells no content. Contracts see the count of its faults.
#[derive(Debug, Drop)]
pub struct StdSource<R> {
    reader: R,
    faults: u64,
}

impl<R> Model for StdSource<R> {
    ghost use Rattle.std.specs.Prelude.{ℕ};

    ghost Value = { ℕ };

    ghost view = { λ s. s.faults };
}

impl<R: Read> StdSource<R> {
    pub fn new(reader: R) -> StdSource<R>
        ensures { result ≡ 0 }
    {
        StdSource { reader, faults: 0 }
    }
}

impl<R: Read> Source for StdSource<R> {
    ghost use Rattle.std.specs.Prelude.{None};

    ghost left = { λ _. None };

    ghost faults = { λ s. s };

    fn read(&mut self, buf: &mut [u8]) -> Result<usize, Failed>
        ensures bound { IfOk result (λ n. n ≤ length buf.old) }
        ensures counted { self.new ≡ faults_after self.old result }
        ensures later { self.old ≤ self.new }
    {
        match self.reader.read(buf) {
            Ok(count) => Ok(count),
            Err(_) => {
                self.faults = self.faults.saturating_add(1);
                Err(Failed)
            }
        }
    }
}

#[cfg(test)]
mod tests {
    use super::*;
    use std::io;

    /// A reader that fails at each call but the first.
    #[derive(Drop)]
    struct Once(bool);

    impl Read for Once {
        fn read(&mut self, buf: &mut [u8]) -> io::Result<usize> {
            if self.0 {
                return Err(io::ErrorKind::Other.into());
            }
            self.0 = true;
            Ok(buf.len().min(1))
        }
    }

    #[test]
    fn passes_reads_on_and_faults_too(rt: HostRuntime) {
        let mut buf = [0; 2];
        let mut source = StdSource::new(b"abc".as_slice());
        assert_eq!(rt; source.read(&mut buf), Ok(2));
        assert_eq!(rt; buf, *b"ab");
        assert_eq!(rt; source.read(&mut buf), Ok(1));
        assert_eq!(rt; source.read(&mut buf), Ok(0));
        let mut broken = StdSource::new(Once(false));
        assert_eq!(rt; broken.read(&mut buf), Ok(1));
        assert_eq!(rt; broken.read(&mut buf), Err(Failed));
    }
}

//! The program `chilltune`: standard input and standard output around the call that does all the
//! work.
#![tactic(auto)]

use ch_io::{NoGate, StdSink, StdSource};
use ch_run::top;
use std::process::ExitCode;
use std::{env, io};

/// The words after the program's name.
fn words(rt: &HostRuntime) -> io::Result<Vec<String>> {
    let mut words = Vec::new(rt.alloc());
    for word in env::args(rt)?.skip(1) {
        words.push(word)?;
    }
    Ok(words)
}

fn main(rt: HostRuntime) -> ExitCode {
    let words = match words(&rt) {
        Ok(words) => words,
        Err(error) if error.kind() == io::ErrorKind::OutOfMemory => return ExitCode::from(5),
        // A word that isn't UTF-8 is no word of a command, and no words are none either.
        Err(_) => Vec::new(rt.alloc()),
    };
    let mut source = StdSource::new(rt.stdin());
    let mut sink = StdSink::new(rt.stdout());
    let status = top(&rt, rt.alloc(), &words, &mut source, &mut sink, &NoGate);
    ExitCode::from(status)
}

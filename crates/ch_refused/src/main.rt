//! Runs `eval` over each deck of a folder, in the order of their names, and prints what it answers
//! to each.
//!
//! The folder is the one that the program runs in, or the one that its first argument names.
#![tactic(auto)]

use anyhow::{Context, Result};
use ch_io::{MemSink, MemSource};
use ch_run::still;
use std::alloc::{AllocError, Global};
use std::{env, fs, io};

/// The most bytes that are kept of what `eval` writes: more than an accepted deck of this folder
/// prints.
const ROOM: usize = 1 << 20;

/// The names of the decks in the folder, in order.
fn deck_names(rt: &HostRuntime, folder: &str) -> io::Result<Vec<String>> {
    let mut names = Vec::new(rt.alloc());
    for entry in fs::read_dir(rt, folder)? {
        let entry = entry?;
        let name = entry.file_name();
        if name.ends_with(".deck") {
            names.push(String::from_str(rt.alloc(), name)?)?;
        }
    }
    names.sort_unstable();
    Ok(names)
}

/// What is printed of a deck: its refusal, `accepted` where it has none, or the status of a run
/// that told neither.
fn answer(alloc: Global, deck: Vec<u8>) -> Result<String, AllocError> {
    let mut words = Vec::new(alloc);
    words.push(String::from_str(alloc, "eval")?)?;
    let mut source = MemSource::new(deck, 4096, Vec::new(alloc));
    let mut sink = MemSink::new(alloc, ROOM, ROOM, Vec::new(alloc))?;
    let status = still(alloc, &words, &mut source, &mut sink);
    match (status, str::from_utf8(sink.taken())) {
        (0, _) => String::from_str(alloc, "accepted"),
        (1, Ok(line)) => String::from_str(alloc, line.trim_end()),
        _ => format!(in alloc; "status {status}"),
    }
}

fn main(rt: HostRuntime) -> Result<()> {
    let argument = env::args(&rt)?.nth(1);
    let folder = argument.as_ref().map_or(".", |folder| folder.as_str());
    for name in deck_names(&rt, folder)? {
        let path = format!(in rt.alloc(); "{folder}/{name}")?;
        let deck = fs::read(&rt, path.as_str()).context(name.as_str())?;
        let line = answer(rt.alloc(), deck)?;
        println!(rt; "{name}: {line}")?;
    }
    Ok(())
}

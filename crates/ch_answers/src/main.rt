//! Runs the program over each deck of a folder, in the order of their names, and prints what it
//! answers and with which status.
//!
//! The first line of a deck is a comment that has the words to run it with, as
//! `# chilltune check --at 2`. The folder is the one that the program runs in, or the one that its
//! first argument names.
#![tactic(auto)]

use anyhow::{Context, Result};
use ch_io::{MemSink, MemSource};
use ch_run::still;
use std::alloc::{AllocError, Global};
use std::{env, fs, io};

/// The most bytes that are kept of what a command writes: more than an answer of this folder has.
const ROOM: usize = 1 << 20;

/// What stands before the words in the first line of a deck.
const MARK: &str = "# chilltune ";

/// The names of the decks in the folder, in order.
fn deck_names(rt: &HostRuntime, folder: &str) -> io::Result<Vec<String>> {
    let mut names = Vec::new(rt.alloc());
    for entry in fs::read_dir(rt, folder)? {
        let entry = entry?;
        let name = entry.file_name();
        if name.ends_with(".deck") {
            names.push(String::from_str(rt.alloc(), name)?)?;
        }
    }
    names.sort_unstable();
    Ok(names)
}

/// The words that the first line of a deck tells, none where it tells none.
fn words_of(alloc: Global, deck: &str) -> Result<Vec<String>, AllocError> {
    let mut words = Vec::new(alloc);
    if let Some(line) = deck.lines().next() {
        if let Some(told) = line.strip_prefix(MARK) {
            for word in told.split_whitespace() {
                words.push(String::from_str(alloc, word)?)?;
            }
        }
    }
    Ok(words)
}

/// What is written of a deck, and the status.
fn answer(alloc: Global, words: &[String], deck: Vec<u8>) -> Result<String, AllocError> {
    let mut source = MemSource::new(deck, 4096, Vec::new(alloc));
    let mut sink = MemSink::new(alloc, ROOM, ROOM, Vec::new(alloc))?;
    let status = still(alloc, words, &mut source, &mut sink);
    match str::from_utf8(sink.taken()) {
        Ok(text) => format!(in alloc; "{text}status {status}"),
        Err(_) => format!(in alloc; "status {status}"),
    }
}

fn main(rt: HostRuntime) -> Result<()> {
    let argument = env::args(&rt)?.nth(1);
    let folder = argument.as_ref().map_or(".", |folder| folder.as_str());
    for name in deck_names(&rt, folder)? {
        let path = format!(in rt.alloc(); "{folder}/{name}")?;
        let deck = fs::read_to_string(&rt, path.as_str()).context(name.as_str())?;
        let words = words_of(rt.alloc(), deck.as_str())?;
        let text = answer(rt.alloc(), &words, deck.into_bytes())?;
        println!(rt; "{name}")?;
        println!(rt; "{text}")?;
    }
    Ok(())
}

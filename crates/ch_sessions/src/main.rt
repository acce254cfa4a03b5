//! Plays each script of a folder, in the order of their names, on a session and on a book. Prints
//! a line for each call with its answer, the history at the end, and whether the book said the
//! same.
//!
//! The folder is the one that the program runs in, or the one that its first argument names. The
//! word `measure` and a count in its place time a book's calls.
#![tactic(auto)]

mod answer;
mod desk;
mod measure;
mod on_book;
mod on_session;
mod plan;
mod script;
mod turns;

use anyhow::{Context, Result};
use std::alloc::Global;
use std::sync::Wait;
use std::thread::Threads;
use std::{env, fs, io};

/// The names of the scripts in the folder, in order.
fn script_names(rt: &HostRuntime, folder: &str) -> io::Result<Vec<String>> {
    let mut names = Vec::new(rt.alloc());
    for entry in fs::read_dir(rt, folder)? {
        let entry = entry?;
        let name = entry.file_name();
        if name.ends_with(".script") {
            names.push(String::from_str(rt.alloc(), name)?)?;
        }
    }
    names.sort_unstable();
    Ok(names)
}

/// What a script says on a session, and whether it says the same on a book.
fn played<R: Threads + Wait + Sync>(rt: &R, alloc: Global, script: &str) -> Result<String> {
    let mut out = on_session::transcript(alloc, script)?;
    let shared = on_book::transcript(rt, alloc, script)?;
    if shared.as_str() == out.as_str() {
        out.push_str("on a book: the same\n")?;
    } else {
        out.push_str("on a book:\n")?;
        out.push_str(shared.as_str())?;
    }
    Ok(out)
}

fn main(rt: HostRuntime) -> Result<()> {
    let alloc = rt.alloc();
    let word = env::args(&rt)?.nth(1);
    let word = word.as_ref().map_or(".", |word| word.as_str());
    if word == "measure" {
        let mut count = 1_000_000u32;
        if let Some(number) = env::args(&rt)?.nth(2) {
            count = number.parse().unwrap_or(1_000_000);
        }
        let times = measure::times(&rt, alloc, count)?;
        print!(rt; "{times}")?;
        return Ok(());
    }
    for name in script_names(&rt, word)? {
        let path = format!(in alloc; "{word}/{name}")?;
        let script = fs::read_to_string(&rt, path.as_str()).context(name.as_str())?;
        let said = played(&rt, alloc, script.as_str())?;
        print!(rt; "script {name}\n{said}")?;
    }
    Ok(())
}

//! Reads each case of a folder, in the order of their names: a deck of one program, a line `%%`,
//! and recipes, one a line. Prints what each recipe says of the program: its first refusal, by the
//! cause or by the least reversed pair, or how many pieces and instances are left. The line `pairs`
//! prints the dependences.
//!
//! The folder is the one that the program runs in, or the one that its first argument names; a
//! second argument says how often the legality of each command is asked for, which changes no
//! output, so that a run can be timed.
#![tactic(auto)]

mod plain;
mod recipe;
mod trace;
mod verdict;
mod walk;

use anyhow::{Context, Result};
use std::alloc::{AllocError, Global};
use std::{env, fs, io};

/// The names of the cases in the folder, in order.
fn case_names(rt: &HostRuntime, folder: &str) -> io::Result<Vec<String>> {
    let mut names = Vec::new(rt.alloc());
    for entry in fs::read_dir(rt, folder)? {
        let entry = entry?;
        let name = entry.file_name();
        if name.ends_with(".case") {
            names.push(String::from_str(rt.alloc(), name)?)?;
        }
    }
    names.sort_unstable();
    Ok(names)
}

fn main(rt: HostRuntime) -> Result<()> {
    let alloc = rt.alloc();
    let folder = env::args(&rt)?.nth(1);
    let folder = folder.as_ref().map_or(".", |folder| folder.as_str());
    let mut repeats = 1u32;
    if let Some(word) = env::args(&rt)?.nth(2) {
        repeats = word.parse().unwrap_or(1);
    }
    for name in case_names(&rt, folder)? {
        let path = format!(in alloc; "{folder}/{name}")?;
        let text = fs::read_to_string(&rt, path.as_str()).context(name.as_str())?;
        let Some((deck, recipes)) = text.split_once("%%\n") else {
            println!(rt; "{name}: no recipes")?;
            continue;
        };
        for recipe in recipes.lines() {
            let answer = verdict::verdict(alloc, deck, recipe, repeats)?;
            let answer = str::from_utf8(answer.as_bytes()).unwrap_or("");
            println!(rt; "{name}: {recipe}: {answer}")?;
        }
    }
    Ok(())
}

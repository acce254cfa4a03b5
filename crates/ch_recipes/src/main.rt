//! Reads each case of a folder, in the order of their names: a deck of one program, a line `%%`,
//! and recipes, one a line. Prints what each recipe makes of the program: its refusal, or how many
//! pieces and instances there are, and how many guards stand in the code. A recipe with parameters
//! has their values behind it, as ` at 2,-1`. Behind the word `code` the code of the variant is
//! printed too, and the line `original` prints the code of the program as it is.
//!
//! The folder is the one that the program runs in, or the one that its first argument names; a
//! second argument says how often each recipe's code is made, which changes no output, so that a
//! run can be timed.
#![tactic(auto)]

mod answers;
mod cases;
mod grids;
mod recipes;
mod texts;

use anyhow::{Context, Result};
use std::{env, fs, io};

/// The names of the cases in the folder, in order.
fn case_names(rt: &HostRuntime, folder: &str) -> io::Result<Vec<String>> {
    let mut names = Vec::new(rt.alloc());
    for entry in fs::read_dir(rt, folder)? {
        let entry = entry?;
        let name = entry.file_name();
        if name.ends_with(".case") {
            names.push(String::from_str(rt.alloc(), name)?)?;
        }
    }
    names.sort_unstable();
    Ok(names)
}

fn main(rt: HostRuntime) -> Result<()> {
    let alloc = rt.alloc();
    let folder = env::args(&rt)?.nth(1);
    let folder = folder.as_ref().map_or(".", |folder| folder.as_str());
    let mut repeats = 1u32;
    if let Some(word) = env::args(&rt)?.nth(2) {
        repeats = word.parse().unwrap_or(1);
    }
    for name in case_names(&rt, folder)? {
        let path = format!(in alloc; "{folder}/{name}")?;
        let text = fs::read_to_string(&rt, path.as_str()).context(name.as_str())?;
        let Some((deck, lines)) = text.split_once("%%\n") else {
            println!(rt; "{name}: no recipes")?;
            continue;
        };
        for line in lines.lines() {
            let answer = cases::answer(alloc, deck, line, repeats).context(line)?;
            let answer = str::from_utf8(answer.as_bytes()).unwrap_or("");
            println!(rt; "{name}: {line}: {answer}")?;
        }
    }
    Ok(())
}

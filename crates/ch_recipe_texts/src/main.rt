//! Reads each recipe of a folder, in the order of their names, and prints its refusal, or its text
//! and the forms of its conditions. Last comes a recipe of 80,000 commands.
//!
//! The folder is the one that the program runs in, or the one that its first argument names.
#![tactic(auto)]

mod answer;
mod forms;

use anyhow::{Context, Result};
use std::{env, fs, io};

/// The names of the recipes in the folder, in order.
fn recipe_names(rt: &HostRuntime, folder: &str) -> io::Result<Vec<String>> {
    let mut names = Vec::new(rt.alloc());
    for entry in fs::read_dir(rt, folder)? {
        let entry = entry?;
        let name = entry.file_name();
        if name.ends_with(".recipe") {
            names.push(String::from_str(rt.alloc(), name)?)?;
        }
    }
    names.sort_unstable();
    Ok(names)
}

fn main(rt: HostRuntime) -> Result<()> {
    let argument = env::args(&rt)?.nth(1);
    let folder = argument.as_ref().map_or(".", |folder| folder.as_str());
    for name in recipe_names(&rt, folder)? {
        let path = format!(in rt.alloc(); "{folder}/{name}")?;
        let text = fs::read(&rt, path.as_str()).context(name.as_str())?;
        let answer = answer::answer(rt.alloc(), &text)?;
        let answer = str::from_utf8(answer.as_bytes()).unwrap_or("");
        println!(rt; "{name}: {answer}")?;
    }
    let text = answer::long_text(rt.alloc())?;
    let answer = answer::answer(rt.alloc(), &text)?;
    let answer = str::from_utf8(answer.as_bytes()).unwrap_or("");
    println!(rt; "80000 commands: {answer}")?;
    Ok(())
}

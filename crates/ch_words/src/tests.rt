use super::*;
use std::alloc::{AllocError, Global};
use std::test::Fail;

/// What the words ask for, as `Debug` shows it.
fn asked(alloc: Global, words: &[&str]) -> Result<String, AllocError> {
    let mut texts = Vec::new(alloc);
    for word in words {
        texts.push(String::from_str(alloc, word)?)?;
    }
    let request = read_words(alloc, &texts)?;
    format!(in alloc; "{request:?}")
}

#[test]
fn each_command_is_read(rt: HostRuntime) -> Result<(), Fail> {
    let cases = [
        (
            ["--arrays", "sum", "eval"].as_slice(),
            "Some(Eval { sums: true })",
        ),
        (["check"].as_slice(), "Some(Check { at: None })"),
        (
            ["show", "--at=-1,02"].as_slice(),
            "Some(Show { at: Some(List { items: [-1, 2] }) })",
        ),
        (["search"].as_slice(), "Some(Search)"),
        (
            ["run", "--builders", "8"].as_slice(),
            "Some(Run { builders: 8, sums: false })",
        ),
        (["replay"].as_slice(), "Some(Replay)"),
        (
            ["demo", "--number", "7"].as_slice(),
            "Some(Demo { number: 7 })",
        ),
        (["demo"].as_slice(), "None"),
        (["check", "--at", "1,"].as_slice(), "None"),
    ];
    for (words, text) in cases {
        assert_eq!(rt; asked(rt.alloc(), words)?.as_str(), text);
    }
    Ok(())
}

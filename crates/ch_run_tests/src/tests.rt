//! Whole runs: a deck in, a text and a status out.

use ch_io::{MemSink, MemSource, NoGate};
use ch_run::{still, top};
use std::alloc::{AllocError, Global};
use std::test::Fail;

fn words_of(alloc: Global, words: &[&str]) -> Result<Vec<String>, AllocError> {
    let mut all = Vec::new(alloc);
    for word in words {
        all.push(String::from_str(alloc, word)?)?;
    }
    Ok(all)
}

/// What a command answers to a deck that is read in pieces of five bytes and written in pieces of
/// seven.
fn answer(alloc: Global, command: &str, deck: &[u8]) -> Result<(u8, Vec<u8>), AllocError> {
    let words = words_of(alloc, &[command])?;
    let mut source = MemSource::new(deck.to_vec(alloc)?, 5, Vec::new(alloc));
    let mut sink = MemSink::new(alloc, 4096, 7, Vec::new(alloc))?;
    let status = still(alloc, &words, &mut source, &mut sink);
    Ok((status, sink.taken().to_vec(alloc)?))
}

const PRODUCT: &[u8] = b"program mm { let n = 2;
array A[n][n] = fill(1, 1); array B[n][n] = fill(1, 5); array C[n][n] = fill(0, 0);
for (i = 0; i < n; i++) for (j = 0; j < n; j++) for (k = 0; k < n; k++)
C[i][j] = C[i][j] + A[i][k] * B[k][j]; }
";

const PRODUCT_TEXT: &[u8] =
    b"program mm\nA[2][2]: 1 2 3 4\nB[2][2]: 5 6 7 8\nC[2][2]: 19 22 43 50\nend\n";

#[test]
fn each_front_of_a_deck_is_read_or_refused(rt: HostRuntime) -> Result<(), Fail> {
    for k in 0..PRODUCT.len() {
        let (status, _) = answer(rt.alloc(), "eval", &PRODUCT[..k])?;
        // Nothing at all is a deck, and so is all but the last line feed.
        let whole = k == 0 || k + 1 == PRODUCT.len();
        assert_eq!(rt; status, u8::from(!whole));
    }
    Ok(())
}

#[test]
fn an_input_past_the_limit_is_refused_by_its_length(rt: HostRuntime) -> Result<(), Fail> {
    let alloc = rt.alloc();
    let words = words_of(alloc, &["eval"])?;
    let spaces = vec![in alloc; b' '; 1048577]?;
    let mut source = MemSource::new(spaces, 1048577, Vec::new(alloc));
    let mut sink = MemSink::new(alloc, 64, 64, Vec::new(alloc))?;
    let status = still(alloc, &words, &mut source, &mut sink);
    assert_eq!(rt; sink.taken(), b"refused D10\n".as_slice());
    assert_eq!(rt; status, 1);
    Ok(())
}

#[test]
fn a_failed_write_ends_the_text(rt: HostRuntime) -> Result<(), Fail> {
    let alloc = rt.alloc();
    let words = words_of(alloc, &["eval"])?;
    let mut source = MemSource::new(PRODUCT.to_vec(alloc)?, 4096, Vec::new(alloc));
    let mut sink = MemSink::new(alloc, 64, 4, [2].to_vec(alloc)?)?;
    let status = top(&rt, alloc, &words, &mut source, &mut sink, &NoGate);
    assert_eq!(rt; sink.taken(), b"prog".as_slice());
    assert_eq!(rt; status, 4);
    Ok(())
}

#[test]
fn a_failed_read_writes_nothing(rt: HostRuntime) -> Result<(), Fail> {
    let alloc = rt.alloc();
    let words = words_of(alloc, &["eval"])?;
    let mut source = MemSource::new(PRODUCT.to_vec(alloc)?, 64, [1].to_vec(alloc)?);
    let mut sink = MemSink::new(alloc, 64, 64, Vec::new(alloc))?;
    let status = top(&rt, alloc, &words, &mut source, &mut sink, &NoGate);
    assert_eq!(rt; sink.taken(), b"".as_slice());
    assert_eq!(rt; status, 3);
    Ok(())
}

#[test]
fn other_words_give_the_usage_line(rt: HostRuntime) -> Result<(), Fail> {
    let alloc = rt.alloc();
    let cases: [&[&str]; 6] = [
        &[],
        &["spin"],
        &["eval", "eval"],
        &["Eval"],
        &["eval", "--at", "1"],
        &["run", "--builders", "9"],
    ];
    for case in cases {
        let words = words_of(alloc, case)?;
        let mut source = MemSource::new(PRODUCT.to_vec(alloc)?, 64, Vec::new(alloc));
        let mut sink = MemSink::new(alloc, 4096, 4096, Vec::new(alloc))?;
        let status = top(&rt, alloc, &words, &mut source, &mut sink, &NoGate);
        assert_eq!(rt;
            sink.taken(),
            b"usage: chilltune eval|check|show|search|run|replay|demo [--at V,V] [--builders N] [--arrays all|sum] [--number N]\n".as_slice()
        );
        assert_eq!(rt; status, 2);
    }
    Ok(())
}

#[test]
fn the_matrix_product_is_printed_by_top(rt: HostRuntime) -> Result<(), Fail> {
    let alloc = rt.alloc();
    let words = words_of(alloc, &["eval"])?;
    let mut source = MemSource::new(PRODUCT.to_vec(alloc)?, 1, Vec::new(alloc));
    let mut sink = MemSink::new(alloc, 4096, 1, Vec::new(alloc))?;
    let status = top(&rt, alloc, &words, &mut source, &mut sink, &NoGate);
    assert_eq!(rt; sink.taken(), PRODUCT_TEXT);
    assert_eq!(rt; status, 0);
    Ok(())
}

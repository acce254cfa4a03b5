//! Programs that are refused, with the byte that the refusal names, and programs that are accepted.

use ch_affine::Text;
use ch_lex::{Code2, ParseError, tokens};
use ch_nestparse::{ParsedProgram, parse_program};
use std::alloc::Global;
use std::process::Abort;
use std::test::Fail;

/// What the section is read as with which the text begins.
fn parsed(alloc: Global, text: &[u8]) -> Result<ParsedProgram, ParseError> {
    if text.len() > 4096 {
        return Err(ParseError::Memory);
    }
    let found = tokens(alloc, text)?;
    parse_program(alloc, found.as_slice(), text, 0)
}

/// A text with the code, the byte and the number of its refusal.
type Refused<'a> = (&'a [u8], Code2, u32, i128);

fn compare_refusals(rt: &impl Abort, alloc: Global, cases: &[Refused<'_>]) -> Result<(), Fail> {
    for (text, code, at, value) in cases {
        match parsed(alloc, text) {
            Ok(_program) => return Err("a refusal".into()),
            Err(refusal) => {
                let want = ParseError::Refused {
                    code: *code,
                    at: *at,
                    value: *value,
                };
                assert_eq!(rt; refusal, want);
            }
        }
    }
    Ok(())
}

/// A text with the bytes of its accesses, the number of its tokens, and how many arrays and items
/// it has.
type Accepted<'a> = (&'a [u8], &'a [u32], u32, usize, usize);

#[test]
fn programs_are_read_whole(rt: HostRuntime) -> Result<(), Fail> {
    let cases: [Accepted; 7] = [
        (b"program none { } recipe", &[], 4, 0, 0),
        (
            b"program mm { let n = 2;\narray A[n][n] = fill(1, 1); array B[n][n] = fill(1, 5); array C[n][n] = fill(0, 0);\nfor (i = 0; i < n; i++) for (j = 0; j < n; j++) for (k = 0; k < n; k++)\nC[i][j] = C[i][j] + A[i][k] * B[k][j]; }",
            &[180, 190, 200, 210],
            128,
            3,
            1,
        ),
        (
            b"program w { # a comment; with signs\nlet big = -2147483648; let k = 3; array A[4][1][1][65536] = fill(-3, 2147483648); A[k*(2 - 1) - 1][0][-0][1] = -(big + -A[0][0][0][0]); }",
            &[118, 156],
            81,
            1,
            1,
        ),
        (
            b"program s { array A[4] = fill(0, 0); for (i = max(0, 1 - 1, 0, -5); i < min(4, 3, 4, 9); i++) { for (j = i; j <= i*2 + 1; j++) { A[i] = i; A[2*(i - i) + j - j] = A[i]; } } for (i = 0; i < 1; i++) A[i] = 7; }",
            &[129, 139, 162, 196],
            119,
            1,
            2,
        ),
        (
            b"program e { array A[1] = fill(0, 0); for (i = -1073741824; i < -1073741824; i++) for (j = 0; j <= 1073741824*i; j++) A[0] = 1; }",
            &[117],
            54,
            1,
            1,
        ),
        (
            b"program d { array A[1] = fill(0, 0); for (a = 0; a < 1; a++) for (b = 0; b < 1; b++) for (c = 0; c < 1; c++) for (d = 0; d < 1; d++) for (e = 0; e < 1; e++) for (f = 0; f < 1; f++) A[f] = -(-(-(-(-(-(-(-(-(-(-(-(-(-(-(-(1)))))))))))))))); }",
            &[181],
            150,
            1,
            1,
        ),
        (
            b"program o { array A[1] = fill(0, 0); A[0] = 1+1+1+1+1+1+1+1+1+1+1+1+1+1+1+1+1+1+1+1+1+1+1+1+1+1+1+1+1+1+1+1+1+1+1+1+1+1+1+1+1+1+1+1+1+1+1+1+1+1+1+1+1+1+1+1+1+1+1+1+1+1+1+1+1+1+1+1+1+1+1+1+1+1+1+1+1+1+1+1+1+1+1+1+1+1+1+1+1+1+1+1+1+1+1+1+1+1+1+1+1+1+1+1+1+1+1+1+1+1+1+1+1+1+1+1+1+1+1+1+1+1+1+1+1+1+1+1+1+1+1+1+1+1+1+1+1+1+1+1+1+1+1+1+1+1+1+1+1+1+1+1+1+1+1+1+1+1+1+1+1+1+1+1+1+1+1+1+1+1+1+1+1+1+1+1+1+1+1+1+1+1+1+1+1+1+1+1+1+1+1+1+1+1+1+1+1+1+1+1+1+1+1+1+1+1+1+1+1+1+1+1+1+1+1+1+1+1+1+1+1+1+1+1+1+1+1+1+1+1+1+1+1+1+1+1+1+1+1+1+1+1+1+1+1+1+1+1+1+1+1+1+1+1+1+1; A[0] = 1; A[0] = 1; A[0] = 1; A[0] = 1; A[0] = 1; A[0] = 1; A[0] = 1; A[0] = 1; A[0] = 1; A[0] = 1; A[0] = 1; A[0] = 1; A[0] = 1; A[0] = 1; A[0] = 1; }",
            &[
                37, 557, 567, 577, 587, 597, 607, 617, 627, 637, 647, 657, 667, 677, 687, 697,
            ],
            639,
            1,
            16,
        ),
    ];
    for (text, accesses, next, arrays, items) in cases {
        let program = parsed(rt.alloc(), text)?;
        assert_eq!(rt; program.accesses.as_slice(), accesses);
        assert_eq!(rt; program.next, next);
        assert_eq!(rt; program.fills.len(), arrays);
        assert_eq!(rt; program.nest.arrays.len(), arrays);
        assert_eq!(rt; program.nest.items.len(), items);
    }
    Ok(())
}

/// A program whose assignment stands in so many conditions.
fn conditions(alloc: Global, count: usize) -> Result<Text, Fail> {
    let mut text = Text::of(alloc, b"program p { array A[1] = fill(0, 0); ")?;
    for _condition in 0..count {
        text.append(b"if (0 < 1) ")?;
    }
    text.append(b"A[0] = 1; }")?;
    Ok(text)
}

#[test]
fn if_is_a_plain_name_elsewhere(rt: HostRuntime) -> Result<(), Fail> {
    let text =
        b"program p { array if[4] = fill(0, 0); if[0] = if[1]; if (1 > 0) { if[2] = 1; if[3] = 2; } }";
    parsed(rt.alloc(), text)?;
    compare_refusals(
        &rt,
        rt.alloc(),
        &[(
            b"program p { array A[64] = fill(0, 0); if = 1; }",
            Code2::P2,
            38,
            0,
        )],
    )
}

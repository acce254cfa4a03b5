//! Programs that are printed, and read back as the same programs.

use ch_affine::Text;
use ch_lex::tokens;
use ch_nestparse::{ParsedProgram, parse_program};
use ch_nestprint::print_program;
use std::alloc::Global;
use std::process::Abort;
use std::test::Fail;

fn parsed(alloc: Global, text: &[u8]) -> Result<ParsedProgram, Fail> {
    if text.len() > 4096 {
        return Err("a short text".into());
    }
    let found = tokens(alloc, text)?;
    let program = parse_program(alloc, found.as_slice(), text, 0)?;
    Ok(program)
}

fn printed(alloc: Global, text: &[u8]) -> Result<Text, Fail> {
    let program = parsed(alloc, text)?;
    let text = print_program(
        alloc,
        &program.name,
        &program.nest,
        program.fills.as_slice(),
    )?;
    Ok(text)
}

/// The program of a text is printed so, and what is printed is printed again as it stands.
fn prints(rt: &impl Abort, alloc: Global, text: &[u8], want: &[u8]) -> Result<(), Fail> {
    let first = printed(alloc, text)?;
    assert_eq!(rt; first.as_bytes(), want);
    let second = printed(alloc, first.as_bytes())?;
    assert_eq!(rt; second.as_bytes(), want);
    Ok(())
}

#[test]
fn loops_and_lets(rt: HostRuntime) -> Result<(), Fail> {
    let text =
        b"program p { let n = 5; let m = -7; array A[n][8] = fill(-1, 2); array Bc[9] = fill(0, 0); for (i = 0; i < n; i++) for (j = max(i - 1, 0); j <= min(7, 2*i); j++) { A[i][j] = Bc[j] * (m - 3) - (A[i][j] - -j) + m; Bc[j + 1] = -(1 + 2) * 4; } }";
    let want =
        b"program p {\n    let minus7 = -7;\n    array A[5][8] = fill (-1, 2);\n    array Bc[9] = fill (0, 0);\n    for (i0 = 0; i0 <= 4; i0++) {\n        for (i1 = max (i0 - 1, 0); i1 <= min (7, 2*i0); i1++) {\n            A[i0][i1] = Bc[i1]*(minus7 - 3) - (A[i0][i1] - -i1) + minus7;\n            Bc[i1 + 1] = -(1 + 2)*4;\n        }\n    }\n}\n";
    prints(&rt, rt.alloc(), text, want)
}

#[test]
fn ends_and_subscripts_at_the_limits(rt: HostRuntime) -> Result<(), Fail> {
    let text =
        b"program q { array A[4] = fill(2147483648, -2147483648); for (i = -1073741824; i < -1073741824; i++) A[3 - i] = 0; A[-0*3] = 2147483648 - (1 - 2) * (3 * (4 * 5)); }";
    let want =
        b"program q {\n    array A[4] = fill (2147483648, -2147483648);\n    for (i0 = 0 - 1073741824; i0 < 0 - 1073741824; i0++) {\n        A[0 - i0 + 3] = 0;\n    }\n    A[0] = 2147483648 - (1 - 2)*(3*(4*5));\n}\n";
    prints(&rt, rt.alloc(), text, want)
}

#[test]
fn steps_conditions_and_names_that_arrays_have_taken(rt: HostRuntime) -> Result<(), Fail> {
    let text =
        b"program r { array i1[9] = fill(0, 0); array if[9] = fill(0, 0); for (i = 1; i <= 8; i = i + 3) if (2*i > 5) { i1[i] = -i; if (i < 8) if[i] = i1[i]; } }";
    let want =
        b"program r {\n    array i1[9] = fill (0, 0);\n    array if[9] = fill (0, 0);\n    for (i_0 = 1; i_0 <= 8; i_0 = i_0 + 3) {\n        if (2*i_0 >= 6) {\n            i1[i_0] = -i_0;\n            if (0 - i_0 >= 0 - 7) {\n                if[i_0] = i1[i_0];\n            }\n        }\n    }\n}\n";
    prints(&rt, rt.alloc(), text, want)
}

#[test]
fn rows_beyond_affine_text(rt: HostRuntime) -> Result<(), Fail> {
    let text =
        b"program s { array A[4] = fill(0, 0); for (i = 0; i < 4; i++) if (-1073741824 - 1073741824*i > 1073741824*i + 1073741824) A[i] = 1; }";
    let want =
        b"program s {\n    array A[4] = fill (0, 0);\n    for (i0 = 0; i0 <= 3; i0++) {\n        if (0 - 1073741824*i0 - 1073741824 > 1073741824*i0 + 1073741824) {\n            A[i0] = 1;\n        }\n    }\n}\n";
    prints(&rt, rt.alloc(), text, want)
}

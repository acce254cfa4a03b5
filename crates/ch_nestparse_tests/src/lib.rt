//! Tests of ch_nestparse, apart from it so that its proof is not repeated: programs that are
//! refused, with the byte that the refusal names, and programs that are accepted.
#![tactic(auto)]

#[cfg(test)]
mod tests;

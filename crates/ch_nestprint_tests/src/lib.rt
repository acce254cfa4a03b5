//! Tests of ch_nestprint, apart from it so that its proof is not repeated: programs that are
//! printed, and read back as the same programs.
#![tactic(auto)]

#[cfg(test)]
mod tests;

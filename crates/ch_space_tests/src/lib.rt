//! Tests of ch_space, apart from it so that its proof is not repeated:
//! small nests and their spaces.
#![tactic(auto)]

#[cfg(test)]
mod tests;

//! Tests of ch_timed and ch_copied, apart from them so that their proofs are not repeated: each of
//! their laws can be called.
#![tactic(auto)]

#[cfg(test)]
mod tests;

//! Tests of ch_rank, apart from it so that its proof is not repeated: searches that were played by
//! hand or elsewhere.
#![tactic(auto)]

#[cfg(test)]
mod tests;

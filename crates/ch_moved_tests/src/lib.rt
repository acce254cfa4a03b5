//! Tests of ch_moved, apart from it so that its proof is not repeated:
//! changes of variables of small pieces.
#![tactic(auto)]

#[cfg(test)]
mod tests;

//! Tests of ch_affine, apart from it so that its proof is not repeated: each call once, and the
//! edges of the forms' limits.
#![tactic(auto)]

#[cfg(test)]
mod tests;

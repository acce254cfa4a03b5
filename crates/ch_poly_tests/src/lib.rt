//! Tests of ch_poly, apart from it so that its proof is not repeated: small systems against plain
//! enumeration of their boxes, and the edges of the types.
#![tactic(auto)]

#[cfg(test)]
mod tests;

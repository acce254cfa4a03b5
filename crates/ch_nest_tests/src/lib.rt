//! Tests of ch_nest, apart from it so that its proof is not repeated: the edges of the limits, and
//! small nests whose cells were worked out by hand.
#![tactic(auto)]

#[cfg(test)]
mod tests;

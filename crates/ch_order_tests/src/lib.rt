//! Tests of ch_order, apart from it so that its proof is not repeated: each law can be called, and
//! small lists in the other order.
#![tactic(auto)]

#[cfg(test)]
mod dependence_tests;
#[cfg(test)]
mod tests;

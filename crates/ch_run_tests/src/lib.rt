//! Tests of ch_run, apart from it so that its proof is not repeated: faults of the streams, other
//! words, and inputs at the limit. What the commands answer to decks is in ch_answers.
#![tactic(auto)]

#[cfg(test)]
mod tests;

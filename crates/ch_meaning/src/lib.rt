//! What a deck means to those who tune it.
#![tactic(auto)]

//! Fusing and distributing: loops side by side made one, and one loop made several. Only the places
//! of pieces change.
#![tactic(auto)]

mod distributing;
mod fusing;
pub mod laws;
mod placing;

pub use distributing::distribute;
pub use fusing::fuse;

//! Spaces: timed lists as pieces, each the integer points of a system of affine rows.
#![tactic(auto)]

mod accesses;
mod after;
mod closing;
pub mod copies;
mod error;
mod extremes;
mod judge;
mod level;
mod nest_pieces;
mod nest_space;
mod piece;
mod reading;
mod rows;
mod space;
mod turns;

pub use after::woven;
pub use closing::close_up;
pub use error::{ShapeError, SpaceError};
pub use extremes::ends;
pub use judge::{judged, judgement_is_sound};
pub use nest_space::{of_nest, space_of};
pub use piece::Piece;
pub use reading::{count, group, label, piece_count, pieces, places, share};
pub use space::Space;

//! The limits of a deck, each with its name in `specs/Limits.antt`.

pub(crate) const MOST_BYTES: usize = 1_048_576;

pub(crate) const MOST_PROGRAMS: usize = 16;

pub(crate) const MOST_RECIPES: usize = 16;

pub(crate) const MOST_SESSIONS: usize = 8;

pub(crate) const MOST_CLIENTS: usize = 16;

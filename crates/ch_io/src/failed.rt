use thiserror::Error;

/// A read or a write failed. What failed below is not kept: the caller can do nothing about it.
#[derive(Clone, Copy, Debug, PartialEq, Eq, Error)]
#[error("a read or a write failed")]
pub struct Failed;

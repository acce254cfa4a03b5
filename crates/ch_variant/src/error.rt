use ch_script::Refusal;
use std::alloc::AllocError;
use thiserror::Error;

/// Why a recipe makes no program.
#[derive(Debug, Drop, Error)]
pub enum ApplyError {
    /// A command's cause from the shape of the program, or the least pair of statement instances
    /// that it would reverse.
    #[error("a command of the recipe is refused")]
    Refused(Refusal),
    #[error("out of memory")]
    Memory,
}

impl From<AllocError> for ApplyError {
    ghost use Rattle.std.specs.Prelude.{◌≡◌};
    ghost use Rattle.ch_variant.specs.declared.error.ApplyError.TheVariants.{Memory};

    ghost from_gives = { λ _ e. e ≡ Memory };

    fn from(_error: AllocError) -> ApplyError {
        ApplyError::Memory
    }
}

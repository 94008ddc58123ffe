//! Refusals of substitution.
ghost use Rattle.std.specs.Prelude.{◌≡◌};
ghost use Rattle.hol_subst.specs.declared.error.SubstError.TheVariants.{Memory};

use std::alloc::AllocError;
use thiserror::Error;

/// Why a term was not substituted.
#[derive(Clone, Copy, Debug, PartialEq, Eq, Error)]
pub enum SubstError {
    /// The second part of a pair is no variable, or its type is not that of the first part.
    #[error("bad pair")]
    BadPair,
    /// There is no memory left.
    #[error("out of memory")]
    Memory,
}

impl From<AllocError> for SubstError {
    ghost from_gives = { λ _ e. e ≡ Memory };

    fn from(_e: AllocError) -> SubstError {
        SubstError::Memory
    }
}

//! Why rewriting did not come to an end.
ghost use Rattle.std.specs.Prelude.{◌≡◌};
ghost use Rattle.hol_conv.specs.declared.error.ConvError.TheVariants.{Memory};

use std::alloc::AllocError;
use thiserror::Error;

/// Why rewriting did not come to an end.
#[derive(Clone, Copy, Debug, PartialEq, Eq, Error)]
pub enum ConvError {
    /// There is something to rewrite, and no turn is left.
    #[error("turn limit")]
    Limit,
    /// A turn made a term of over 20,000 nodes.
    #[error("too large")]
    TooLarge,
    /// There is no memory left.
    #[error("out of memory")]
    Memory,
}

impl From<AllocError> for ConvError {
    ghost from_gives = { λ _ e. e ≡ Memory };

    fn from(_e: AllocError) -> ConvError {
        ConvError::Memory
    }
}

//! Why an expression isn't resolved.
ghost use Rattle.std.specs.Prelude.{◌≡◌};
ghost use Rattle.hol_exec.specs.declared.resolving.unresolved.Unresolved.TheVariants.{Memory};

use crate::reports::RefusalKind;
use std::alloc::{AllocError, AllocFailed};
use thiserror::Error;

/// Why an expression isn't resolved.
#[derive(Debug, Drop, Error)]
pub(crate) enum Unresolved {
    /// It is refused, and this is what the refusal speaks of.
    #[error("{0:?}: {1}")]
    Refused(RefusalKind, String),
    /// Memory is short.
    #[error("no memory")]
    Memory,
}

impl From<AllocError> for Unresolved {
    ghost from_gives = { λ _ e. e ≡ Memory };

    fn from(_error: AllocError) -> Unresolved {
        Unresolved::Memory
    }
}

impl<T: Drop> From<AllocFailed<T>> for Unresolved {
    ghost from_gives = { λ _ e. e ≡ Memory };

    fn from(_error: AllocFailed<T>) -> Unresolved {
        Unresolved::Memory
    }
}

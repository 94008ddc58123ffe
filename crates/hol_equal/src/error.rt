//! Why a rule of equations gives nothing.
ghost use Rattle.std.specs.Prelude.{◌≡◌};
ghost use Rattle.hol_equal.specs.declared.error.EqualError.TheVariants.{Memory};

use std::alloc::{AllocError, AllocFailed};
use thiserror::Error;

/// The rules of equations that may not apply, as a refusal names them.
#[derive(Clone, Copy, Debug, PartialEq, Eq)]
pub enum Rule {
    /// From `s = t`, `t = s`.
    Sym,
    /// From `s = t`, `f s = f t`.
    ApTerm,
    /// From `s = t`, `s x = t x`.
    ApThm,
    /// `s = t`, for terms that are equal up to bound names.
    Alpha,
    /// `(\x. b) r = b` with `r` for `x`.
    BetaConv,
    /// From `s = t` and `m` with `s` for a variable, `m` with `t` for it.
    Subst,
}

/// Why a rule of equations gives nothing.
#[derive(Clone, Copy, Debug, PartialEq, Eq, Error)]
pub enum EqualError {
    /// The rule does not apply to what it was handed.
    #[error("the rule does not apply")]
    Refused(Rule),
    /// Memory is short.
    #[error("out of memory")]
    Memory,
}

impl From<AllocError> for EqualError {
    ghost from_gives = { λ _ e. e ≡ Memory };

    fn from(_error: AllocError) -> EqualError {
        EqualError::Memory
    }
}

impl<T: Drop> From<AllocFailed<T>> for EqualError {
    ghost from_gives = { λ _ e. e ≡ Memory };

    fn from(_error: AllocFailed<T>) -> EqualError {
        EqualError::Memory
    }
}

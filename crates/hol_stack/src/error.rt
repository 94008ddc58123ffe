//! Why a call on a goal stack does nothing.
ghost use Rattle.std.specs.Prelude.{◌≡◌};
ghost use Rattle.hol_stack.specs.declared.error.StackError.TheVariants.{Memory};

use std::alloc::AllocError;
use thiserror::Error;

/// Why a call on a goal stack does nothing.
#[derive(Debug, Drop, Error)]
pub enum StackError {
    /// The history has one element only.
    #[error("nothing to undo")]
    NothingToUndo,
    /// No goal is open.
    #[error("no goal is open")]
    NoGoal,
    /// A goal is open.
    #[error("goals remain")]
    GoalsRemain,
    /// Memory is short.
    #[error("out of memory")]
    Memory,
}

impl From<AllocError> for StackError {
    ghost from_gives = { λ _ e. e ≡ Memory };

    fn from(_error: AllocError) -> StackError {
        StackError::Memory
    }
}

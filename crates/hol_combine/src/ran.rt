//! What runs answer.
ghost use Rattle.std.specs.Prelude.{◌≡◌};
ghost use Rattle.hol_combine.specs.declared.ran.RunError.TheVariants.{Memory};

use hol_just::Step;
use hol_types::Name;
use std::alloc::{AllocError, AllocFailed};
use std::fmt;
use thiserror::Error;

/// What an expression did to a goal.
#[derive(Drop)]
pub struct Ran {
    /// The step.
    pub step: Step,
    /// The turns left.
    pub left: u32,
    /// The names that were tested, in order.
    pub tested: Vec<Name>,
}

/// Why an expression was refused.
#[derive(Debug, Drop, Error)]
pub enum Refusal {
    /// The function on goals, or the tactical, of this name doesn't fit the goal.
    #[error("{0} refused")]
    DoesNotFit(String),
    /// A hypothesis of a theorem given to the function of this name is no assumption.
    #[error("a hypothesis of a theorem given to {0} is no assumption")]
    LacksHyps(String),
}

/// Why an expression left no goals. All but the last have the names that were tested, in order.
#[derive(Drop, Error)]
pub enum RunError {
    /// Refused, with the turns left.
    #[error("{0}")]
    Refused(Refusal, u32, Vec<Name>),
    /// No turn was left to go on with.
    #[error("no turn is left")]
    TurnLimit(Vec<Name>),
    /// A goal that a function left, or a term on the way to one, has over 20,000 nodes.
    #[error("a goal is too large")]
    LargeGoal(Vec<Name>),
    /// Memory is short.
    #[error("no memory")]
    Memory,
}

impl fmt::Debug for RunError {
    fn fmt<W: fmt::Write>(&self, f: &mut fmt::Formatter<W>) -> fmt::Result {
        match self {
            RunError::Refused(refusal, left, _) => write!(f, "Refused({refusal:?}, {left})"),
            RunError::TurnLimit(_) => write!(f, "TurnLimit"),
            RunError::LargeGoal(_) => write!(f, "LargeGoal"),
            RunError::Memory => write!(f, "Memory"),
        }
    }
}

impl From<AllocError> for RunError {
    ghost from_gives = { λ _ e. e ≡ Memory };

    fn from(_error: AllocError) -> RunError {
        RunError::Memory
    }
}

impl<T: Drop> From<AllocFailed<T>> for RunError {
    ghost from_gives = { λ _ e. e ≡ Memory };

    fn from(_error: AllocFailed<T>) -> RunError {
        RunError::Memory
    }
}

//! What the functions on goals answer.
ghost use Rattle.std.specs.Prelude.{◌≡◌, IfOk};
ghost use Rattle.hol_just.specs.declared.tried.TacFault.TheVariants.{Memory};

use crate::just::Just;
use hol_goal::{Goal, copies};
use hol_types::Name;
use std::alloc::{AllocError, AllocFailed, Global};
use std::fmt;
use thiserror::Error;

/// The goals that are left of a goal, and why they are.
#[derive(Drop)]
pub struct Step {
    /// The goals.
    pub goals: Vec<Goal>,
    /// Makes theorems of them into a theorem of the goal.
    pub just: Just,
}

impl Step {
    /// An equal step.
    pub fn copy(&self, alloc: Global) -> Result<Step, AllocError>
        ensures goals { IfOk result (λ step. step.goals.items ≡ self.now.goals.items) }
        ensures just { IfOk result (λ step. step.just ≡ self.now.just) }
    {
        Ok(Step {
            goals: copies(alloc, &self.goals)?,
            just: self.just.copy(alloc)?,
        })
    }
}

/// What a function on goals did.
#[derive(Drop)]
pub struct Tried {
    /// The step.
    pub step: Step,
    /// The turns left.
    pub left: u32,
    /// The names that were tested, in order.
    pub tested: Vec<Name>,
}

/// Why a function on goals did nothing. All but the last have the names that were tested, in order.
#[derive(Drop, Error)]
pub enum TacFault {
    /// The function doesn't fit the goal, or takes other arguments. The turns left.
    #[error("the goal or the arguments don't fit")]
    Refused(u32, Vec<Name>),
    /// A turn was to be paid, and none was left.
    #[error("no turn is left")]
    TurnLimit(Vec<Name>),
    /// A turn made a term of over 20,000 nodes.
    #[error("a term is too large")]
    TooLarge(Vec<Name>),
    /// Memory is short.
    #[error("no memory")]
    Memory,
}

impl fmt::Debug for TacFault {
    fn fmt<W: fmt::Write>(&self, f: &mut fmt::Formatter<W>) -> fmt::Result {
        match self {
            TacFault::Refused(left, _) => write!(f, "Refused({left})"),
            TacFault::TurnLimit(_) => write!(f, "TurnLimit"),
            TacFault::TooLarge(_) => write!(f, "TooLarge"),
            TacFault::Memory => write!(f, "Memory"),
        }
    }
}

impl From<AllocError> for TacFault {
    ghost from_gives = { λ _ e. e ≡ Memory };

    fn from(_error: AllocError) -> TacFault {
        TacFault::Memory
    }
}

impl<T: Drop> From<AllocFailed<T>> for TacFault {
    ghost from_gives = { λ _ e. e ≡ Memory };

    fn from(_error: AllocFailed<T>) -> TacFault {
        TacFault::Memory
    }
}

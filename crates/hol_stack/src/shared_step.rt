//! Steps that are kept.
ghost use Rattle.std.specs.Prelude.{◌≡◌, IfOk};

use crate::weight::Weight;
use hol_goal::Goal;
use hol_just::{Just, Step};
use std::alloc::{AllocError, Global};
use std::marker::Model;
use std::rc::Rc;

/// A step: the goals that are left of a goal, and why. Its copies share it.
#[derive(Drop)]
pub struct SharedStep {
    shared: Rc<Step>,
}

impl Model for SharedStep {
    ghost use Rattle.std.specs.Coded.{codes};
    ghost use Rattle.hol_terms.specs.Code.{coded_named};
    ghost use Rattle.hol_kernel.specs.Given.{given_code};
    ghost use Rattle.hol_conv.specs.Traces.{trace_code};
    ghost use Rattle.hol_goal.specs.Goal.{goal_code};
    ghost use Rattle.hol_stack.specs.StackValue.{SharedStepValue};

    ghost Value = { SharedStepValue };

    ghost coded = { Prim.hlevel (codes, goal_code, coded_named, given_code, trace_code) };

    ghost view = { λ s. record { goals = s.shared.value.goals.items; moves = s.shared.value.just } };
}

impl SharedStep {
    /// The step, kept.
    pub fn new(alloc: Global, step: Step) -> Result<SharedStep, AllocError>
        ensures { IfOk result (λ shared. shared ≡ record { goals = step.goals.items; moves = step.just }) }
    {
        Ok(SharedStep {
            shared: Rc::new(alloc, step)?,
        })
    }

    /// The goals that are left.
    pub fn goals(&self) -> &[Goal]
        ensures { result.now ≡ self.now.goals }
    {
        &self.shared.goals
    }

    /// Why they are.
    pub(crate) fn just(&self) -> &Just
        ensures { result.now ≡ self.now.moves }
    {
        &self.shared.just
    }

    /// How much it holds, in nodes of terms, up to 2^32 - 1: its goals, and why they are left. What it shares counts too.
    pub fn weight(&self) -> u32 {
        let mut weight = Weight::none();
        weight.add_goals(self.goals());
        weight.add_moves(self.just().moves());
        weight.nodes()
    }

    /// The same step.
    /// An error says that no count is left for one more copy.
    pub fn copy(&self) -> Result<SharedStep, AllocError>
        ensures { IfOk result (λ step. step ≡ self.now) }
    {
        Ok(SharedStep {
            shared: self.shared.clone()?,
        })
    }
}

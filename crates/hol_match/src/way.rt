//! Ways from theorems' conclusions to the formulas of their rules.
ghost use Rattle.std.specs.Prelude.{◌≡◌, ◌∷◌, [], IfOk};
ghost use Rattle.hol_match.specs.WayView.{steps_of};

use crate::rule_step::RuleStep;
use std::alloc::{AllocError, Global};
use std::marker::Model;
use std::rc::Rc;

/// Steps that are taken one after the other. Ways that begin alike share their first steps.
#[cycle(way)]
#[derive(Drop)]
pub struct Way {
    node: Rc<WayNode>,
}

/// The last step of a way, and those before it.
#[cycle(way)]
#[derive(Drop)]
pub enum WayNode {
    /// No step.
    Start,
    /// Steps, and then one more.
    After(Way, RuleStep),
}

impl Model for Way {
    ghost use Rattle.std.specs.Prelude.{List, length};
    ghost use Rattle.hol_match.specs.declared.rule_step.RuleStep.{RuleStep};
    ghost use Rattle.hol_match.specs.StepCode.{way_code};

    ghost Value = { List RuleStep };

    ghost coded = { way_code };

    ghost use Rattle.hol_match.specs.WayView.{steps_of};

    ghost view = { λ a. steps_of a.node.value };

    ghost size = { length };

    ghost use Rattle.hol_match.specs.WayFalls.{deep_le_length};

    ghost size_decreases = { λ a h. deep_le_length a.node.value };
}

impl Way {
    /// No step.
    pub(crate) fn start(alloc: Global) -> Result<Way, AllocError>
        ensures { IfOk result (λ w. w ≡ []) }
    {
        Ok(Way {
            node: Rc::new(alloc, WayNode::Start)?,
        })
    }

    /// The steps, and then one more.
    pub(crate) fn then(&self, alloc: Global, last: RuleStep) -> Result<Way, AllocError>
        ensures { IfOk result (λ w. w ≡ last ∷ self.now) }
    {
        let before = self.copy()?;
        Ok(Way {
            node: Rc::new(alloc, WayNode::After(before, last))?,
        })
    }

    /// The last step, and those before it.
    pub fn node(&self) -> &WayNode
        ensures { steps_of result.now ≡ self.now }
    {
        self.node.as_ref()
    }

    /// The same steps.
    pub fn copy(&self) -> Result<Way, AllocError>
        ensures { IfOk result (λ w. w ≡ self.now) }
    {
        Ok(Way {
            node: self.node.clone()?,
        })
    }
}

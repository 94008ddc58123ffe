//! Steps on equations.
ghost use Rattle.std.specs.Prelude.{◌≡◌, ◌∷◌, IfOk, Some, []};
ghost use Rattle.hol_terms.specs.Named.{named_type};
ghost use Rattle.hol_terms.specs.Nameless.{nameless};
ghost use Rattle.hol_formulas.specs.Equation.{bool_type};
ghost use Rattle.hol_formulas.specs.Formula.{implication};
ghost use Rattle.hol_just.specs.Leaving.{concluding};
ghost use Rattle.hol_just.specs.Justifies.{SplitsIntoImplications};

use crate::steps::{implying, leaving_two};
use hol_goal::Goal;
use hol_just::{Just, Step};
use hol_terms::Term;
use std::alloc::{AllocError, Global};

/// The step to both directions.
pub fn eq_step(alloc: Global, goal: &Goal, p: &Term, q: &Term) -> Result<Step, AllocError>
    requires left { named_type p.now ≡ Some bool_type }
    requires right { named_type q.now ≡ Some bool_type }
    ensures goals { IfOk result (λ step. step.goals.items ≡ concluding goal.now (implication (nameless [] p.now) (nameless [] q.now)) ∷ concluding goal.now (implication (nameless [] q.now) (nameless [] p.now)) ∷ []) }
    ensures just { IfOk result (λ step. SplitsIntoImplications step.just) }
{
    let there = implying(alloc, goal, p, q)?;
    let back = implying(alloc, goal, q, p)?;
    let just = Just::eq_tac(alloc)?;
    leaving_two(alloc, there, back, just)
}

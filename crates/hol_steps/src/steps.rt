//! Steps by the goals that they leave.
ghost use Rattle.std.specs.Prelude.{◌≡◌, ◌∷◌, IfOk, Some, []};
ghost use Rattle.hol_terms.specs.Named.{named_type};
ghost use Rattle.hol_terms.specs.Nameless.{nameless};
ghost use Rattle.hol_formulas.specs.Equation.{bool_type};
ghost use Rattle.hol_formulas.specs.Formula.{implication};
ghost use Rattle.hol_just.specs.Leaving.{concluding, assuming};

use hol_formulas::mk_imp;
use hol_goal::Goal;
use hol_just::{Just, Step};
use hol_terms::{Term, add_copies};
use std::alloc::{AllocError, Global};

/// A step that closes the goal.
pub fn closing(alloc: Global, just: Just) -> Step
    ensures goals { result.goals.items ≡ [] }
    ensures just { result.just ≡ just }
{
    Step {
        goals: Vec::new(alloc),
        just,
    }
}

/// A step that leaves one goal.
pub fn leaving_one(alloc: Global, goal: Goal, just: Just) -> Result<Step, AllocError>
    ensures goals { IfOk result (λ step. step.goals.items ≡ goal ∷ []) }
    ensures just { IfOk result (λ step. step.just ≡ just) }
{
    let mut goals = Vec::new(alloc);
    goals.push(goal)?;
    Ok(Step { goals, just })
}

/// A step that leaves two goals.
pub(crate) fn leaving_two(
    alloc: Global,
    first: Goal,
    second: Goal,
    just: Just,
) -> Result<Step, AllocError>
    ensures goals { IfOk result (λ step. step.goals.items ≡ first ∷ second ∷ []) }
    ensures just { IfOk result (λ step. step.just ≡ just) }
{
    let mut goals = Vec::new(alloc);
    goals.push(first)?;
    goals.push(second)?;
    Ok(Step { goals, just })
}

/// The goal with the conclusion `p ==> q`.
pub(crate) fn implying(alloc: Global, goal: &Goal, p: &Term, q: &Term) -> Result<Goal, AllocError>
    requires first { named_type p.now ≡ Some bool_type }
    requires second { named_type q.now ≡ Some bool_type }
    ensures { IfOk result (λ g. g ≡ concluding goal.now (implication (nameless [] p.now) (nameless [] q.now))) }
{
    let conclusion = mk_imp(alloc, p, q)?;
    goal.with_conclusion(alloc, &conclusion)
}

/// The goal with the conclusion `q`, and `p` as its newest assumption.
pub(crate) fn assume(alloc: Global, goal: &Goal, p: &Term, q: &Term) -> Result<Goal, AllocError>
    requires assumption { named_type p.now ≡ Some bool_type }
    requires conclusion { named_type q.now ≡ Some bool_type }
    ensures { IfOk result (λ g. g ≡ assuming goal.now (nameless [] p.now) (nameless [] q.now)) }
{
    let mut assumptions = Vec::new(alloc);
    assumptions.push(p.copy()?)?;
    add_copies(&mut assumptions, goal.assumptions())?;
    Goal::new(alloc, assumptions, q.copy()?)
}

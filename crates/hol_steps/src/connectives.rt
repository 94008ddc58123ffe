//! Steps on connectives.
ghost use Rattle.std.specs.Prelude.{◌≡◌, ◌∷◌, IfOk, Some, []};
ghost use Rattle.hol_terms.specs.Named.{named_type};
ghost use Rattle.hol_terms.specs.Nameless.{nameless};
ghost use Rattle.hol_formulas.specs.Equation.{bool_type};
ghost use Rattle.hol_formulas.specs.Formula.{falsity, implication};
ghost use Rattle.hol_kernel.specs.Given.{given_sequent};
ghost use Rattle.hol_just.specs.Leaving.{concluding, assuming};
ghost use Rattle.hol_just.specs.Justifies.{SplitsConjunction, LeavesLeft, LeavesRight, LeavesConsequent, LeavesRefutation, LeavesImplication, LeavesAssuming, LeavesCases};

use crate::steps::{assume, implying, leaving_one, leaving_two};
use hol_formulas::mk_falsity;
use hol_goal::Goal;
use hol_just::{Just, Step};
use hol_kernel::Given;
use hol_terms::Term;
use std::alloc::{AllocError, Global};

/// The step to both conjuncts.
pub fn conj_step(alloc: Global, goal: &Goal, p: &Term, q: &Term) -> Result<Step, AllocError>
    requires first { named_type p.now ≡ Some bool_type }
    requires second { named_type q.now ≡ Some bool_type }
    ensures goals { IfOk result (λ step. step.goals.items ≡ concluding goal.now (nameless [] p.now) ∷ concluding goal.now (nameless [] q.now) ∷ []) }
    ensures just { IfOk result (λ step. SplitsConjunction step.just) }
{
    let first = goal.with_conclusion(alloc, p)?;
    let second = goal.with_conclusion(alloc, q)?;
    let just = Just::conj_tac(alloc)?;
    leaving_two(alloc, first, second, just)
}

/// The step to the consequent of an implication.
pub fn disch_step(alloc: Global, goal: &Goal, p: &Term, q: &Term) -> Result<Step, AllocError>
    requires antecedent { named_type p.now ≡ Some bool_type }
    requires consequent { named_type q.now ≡ Some bool_type }
    ensures goals { IfOk result (λ step. step.goals.items ≡ assuming goal.now (nameless [] p.now) (nameless [] q.now) ∷ []) }
    ensures just { IfOk result (λ step. LeavesConsequent (nameless [] p.now) step.just) }
{
    let left = assume(alloc, goal, p, q)?;
    let just = Just::disch_tac(alloc, p)?;
    leaving_one(alloc, left, just)
}

/// The step to falsity, of a negation.
pub fn disch_neg_step(alloc: Global, goal: &Goal, p: &Term) -> Result<Step, AllocError>
    requires { named_type p.now ≡ Some bool_type }
    ensures goals { IfOk result (λ step. step.goals.items ≡ assuming goal.now (nameless [] p.now) falsity ∷ []) }
    ensures just { IfOk result (λ step. LeavesRefutation (nameless [] p.now) step.just) }
{
    let left = assume(alloc, goal, p, &mk_falsity(alloc)?)?;
    let just = Just::disch_neg_tac(alloc, p)?;
    leaving_one(alloc, left, just)
}

/// The step to the implication from the theorem.
pub fn mp_step(alloc: Global, th: &Given, goal: &Goal) -> Result<Step, AllocError>
    ensures goals { IfOk result (λ step. step.goals.items ≡ concluding goal.now (implication (given_sequent th.now).concl goal.now.conclusion) ∷ []) }
    ensures just { IfOk result (λ step. LeavesImplication th.now step.just) }
{
    let left = implying(alloc, goal, th.concl(), goal.conclusion())?;
    let just = Just::mp_tac(alloc, th)?;
    leaving_one(alloc, left, just)
}

/// The step to the goal with the theorem assumed.
pub fn assume_step(alloc: Global, th: &Given, goal: &Goal) -> Result<Step, AllocError>
    ensures goals { IfOk result (λ step. step.goals.items ≡ assuming goal.now (given_sequent th.now).concl goal.now.conclusion ∷ []) }
    ensures just { IfOk result (λ step. LeavesAssuming th.now step.just) }
{
    let left = assume(alloc, goal, th.concl(), goal.conclusion())?;
    let just = Just::assume_tac(alloc, th)?;
    leaving_one(alloc, left, just)
}

/// The step to the left disjunct.
pub fn disj1_step(alloc: Global, goal: &Goal, p: &Term, q: &Term) -> Result<Step, AllocError>
    requires { named_type p.now ≡ Some bool_type }
    ensures goals { IfOk result (λ step. step.goals.items ≡ concluding goal.now (nameless [] p.now) ∷ []) }
    ensures just { IfOk result (λ step. LeavesLeft (nameless [] q.now) step.just) }
{
    let left = goal.with_conclusion(alloc, p)?;
    let just = Just::disj1_tac(alloc, q)?;
    leaving_one(alloc, left, just)
}

/// The step to the right disjunct.
pub fn disj2_step(alloc: Global, goal: &Goal, p: &Term, q: &Term) -> Result<Step, AllocError>
    requires { named_type q.now ≡ Some bool_type }
    ensures goals { IfOk result (λ step. step.goals.items ≡ concluding goal.now (nameless [] q.now) ∷ []) }
    ensures just { IfOk result (λ step. LeavesRight (nameless [] p.now) step.just) }
{
    let left = goal.with_conclusion(alloc, q)?;
    let just = Just::disj2_tac(alloc, p)?;
    leaving_one(alloc, left, just)
}

/// The step to the goal with each disjunct assumed.
pub fn disj_cases_step(
    alloc: Global,
    th: &Given,
    goal: &Goal,
    p: &Term,
    q: &Term,
) -> Result<Step, AllocError>
    requires first { named_type p.now ≡ Some bool_type }
    requires second { named_type q.now ≡ Some bool_type }
    ensures goals { IfOk result (λ step. step.goals.items ≡ assuming goal.now (nameless [] p.now) goal.now.conclusion ∷ assuming goal.now (nameless [] q.now) goal.now.conclusion ∷ []) }
    ensures just { IfOk result (λ step. LeavesCases th.now step.just) }
{
    let left = assume(alloc, goal, p, goal.conclusion())?;
    let right = assume(alloc, goal, q, goal.conclusion())?;
    let just = Just::disj_cases_tac(alloc, th)?;
    leaving_two(alloc, left, right, just)
}

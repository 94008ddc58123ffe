//! Steps on quantifiers.
ghost use Rattle.std.specs.Prelude.{◌≡◌, ◌∷◌, false, map, IfOk, IsErrOf, Ok, Some, []};
ghost use Rattle.hol_terms.specs.Named.{named_type};
ghost use Rattle.hol_terms.specs.Nameless.{free, nameless, base_of};
ghost use Rattle.hol_subst.specs.Closing.{open_with};
ghost use Rattle.hol_subst.specs.Variant.{is_free_in};
ghost use Rattle.hol_subst.specs.declared.error.SubstError.TheVariants as SubstError;
ghost use Rattle.hol_formulas.specs.Equation.{bool_type};
ghost use Rattle.hol_just.specs.Fresh.{fresh};
ghost use Rattle.hol_just.specs.Leaving.{concluding, goal_terms};
ghost use Rattle.hol_just.specs.QuantifierTacs.{of_fresh};
ghost use Rattle.hol_just.specs.Justifies.{LeavesProperty, LeavesAtWitness};
ghost use Rattle.hol_steps.specs.Fresh.{IsFresh, abstraction_of};

use crate::fresh::{FreeingStep, FreshVariable, fresh_variable};
use crate::steps::leaving_one;
use hol_formulas::occurrence;
use hol_goal::{Goal, Names};
use hol_just::{Just, Step};
use hol_subst::{SubstError, is_free_in_one, vsubst};
use hol_terms::{Term, Variable, add_copies};
use std::alloc::{AllocError, Global};

/// The step to the property at a variable of a new name.
pub fn gen_step(
    alloc: Global,
    goal: &Goal,
    names: &Names,
    x: &Variable,
    p: &Term,
) -> Result<FreeingStep, AllocError>
    requires body { named_type p.now ≡ Some bool_type }
    ensures goals { IfOk result (λ f. (f.step.goals.items, f.tested.items) ≡ of_fresh goal.now (abstraction_of x.now p.now) (fresh names.now (goal_terms goal.now) (base_of x.now.0))) }
    ensures just { IfOk result (λ f. LeavesProperty ((fresh names.now (goal_terms goal.now) (base_of x.now.0)).name, x.now.1) f.step.just) }
    ensures absent { IfOk result (λ f. is_free_in (goal_terms goal.now) ((fresh names.now (goal_terms goal.now) (base_of x.now.0)).name, x.now.1) ≡ false) }
{
    let FreshVariable { variable, tested } = new_variable(alloc, goal, names, x)?;
    Ok(FreeingStep {
        step: x_gen_step(alloc, goal, x, p, &variable)?,
        tested,
    })
}

// A variable of the type of `x` and a new name, that of nothing in the goal.
fn new_variable(
    alloc: Global,
    goal: &Goal,
    names: &Names,
    x: &Variable,
) -> Result<FreshVariable, AllocError>
    ensures { IfOk result (λ f. IsFresh names.now (goal_terms goal.now) x.now f.variable f.tested.items) }
{
    let avoid = all_terms(alloc, goal)?;
    fresh_variable(alloc, names, avoid.as_slice(), x)
}

/// Copies of all its terms.
pub(crate) fn all_terms(alloc: Global, goal: &Goal) -> Result<Vec<Term>, AllocError>
    ensures { IfOk result (λ terms. map (nameless []) terms.items ≡ goal_terms goal.now) }
{
    let mut terms = Vec::new(alloc);
    terms.push(goal.conclusion().copy()?)?;
    add_copies(&mut terms, goal.assumptions())?;
    Ok(terms)
}

/// The step to the property at the variable.
pub fn x_gen_step(
    alloc: Global,
    goal: &Goal,
    x: &Variable,
    p: &Term,
    v: &Variable,
) -> Result<Step, AllocError>
    requires same { v.now.1 ≡ x.now.1 }
    requires body { named_type p.now ≡ Some bool_type }
    ensures goals { IfOk result (λ step. step.goals.items ≡ concluding goal.now (open_with (free v.now) 0 (nameless (x.now ∷ []) p.now)) ∷ []) }
    ensures just { IfOk result (λ step. LeavesProperty v.now step.just) }
{
    let left = instance_at(alloc, goal, x, p, v)?;
    let just = Just::gen_tac(alloc, v)?;
    leaving_one(alloc, left, just)
}

/// The step to the property of the witness.
pub fn exists_step(
    alloc: Global,
    goal: &Goal,
    x: &Variable,
    p: &Term,
    t: &Term,
) -> Result<Step, AllocError>
    requires witness { named_type t.now ≡ Some x.now.1 }
    requires body { named_type p.now ≡ Some bool_type }
    ensures goals { IfOk result (λ step. step.goals.items ≡ concluding goal.now (open_with (nameless [] t.now) 0 (nameless (x.now ∷ []) p.now)) ∷ []) }
    ensures just { IfOk result (λ step. LeavesAtWitness goal.now.conclusion (nameless [] t.now) step.just) }
{
    let left = instance(alloc, goal, x, p, t)?;
    let just = Just::exists_tac(alloc, goal.conclusion(), t)?;
    leaving_one(alloc, left, just)
}

// The goal with the conclusion `p`, with the variable for `x`.
fn instance_at(
    alloc: Global,
    goal: &Goal,
    x: &Variable,
    p: &Term,
    v: &Variable,
) -> Result<Goal, AllocError>
    requires same { v.now.1 ≡ x.now.1 }
    requires body { named_type p.now ≡ Some bool_type }
    ensures { IfOk result (λ g. g ≡ concluding goal.now (open_with (free v.now) 0 (nameless (x.now ∷ []) p.now))) }
{
    let conclusion = at_variable(alloc, x, p, v)?;
    goal.with_conclusion(alloc, &conclusion)
}

// The goal with the conclusion `p`, with `t` for `x`.
fn instance(
    alloc: Global,
    goal: &Goal,
    x: &Variable,
    p: &Term,
    t: &Term,
) -> Result<Goal, AllocError>
    requires argument { named_type t.now ≡ Some x.now.1 }
    requires body { named_type p.now ≡ Some bool_type }
    ensures { IfOk result (λ g. g ≡ concluding goal.now (open_with (nameless [] t.now) 0 (nameless (x.now ∷ []) p.now))) }
{
    let conclusion = at(alloc, x, p, t)?;
    goal.with_conclusion(alloc, &conclusion)
}

/// `p` with `t` for `x`.
pub(crate) fn at(alloc: Global, x: &Variable, p: &Term, t: &Term) -> Result<Term, AllocError>
    requires argument { named_type t.now ≡ Some x.now.1 }
    requires body { named_type p.now ≡ Some bool_type }
    ensures is { IfOk result (λ r. nameless [] r ≡ open_with (nameless [] t.now) 0 (nameless (x.now ∷ []) p.now)) }
    ensures typed { IfOk result (λ r. named_type r ≡ Some bool_type) }
{
    let mut pairs = Vec::new(alloc);
    let own = occurrence(alloc, x)?;
    pairs.push((t.copy()?, own))?;
    substituted(vsubst(alloc, &pairs, p))
}

/// `p` with the variable for `x`.
pub(crate) fn at_variable(
    alloc: Global,
    x: &Variable,
    p: &Term,
    v: &Variable,
) -> Result<Term, AllocError>
    requires same { v.now.1 ≡ x.now.1 }
    requires body { named_type p.now ≡ Some bool_type }
    ensures is { IfOk result (λ r. nameless [] r ≡ open_with (free v.now) 0 (nameless (x.now ∷ []) p.now)) }
    ensures typed { IfOk result (λ r. named_type r ≡ Some bool_type) }
{
    let variable = occurrence(alloc, v)?;
    at(alloc, x, p, &variable)
}

// The term that was substituted, where no pair was bad.
fn substituted(answer: Result<Term, SubstError>) -> Result<Term, AllocError>
    requires { IsErrOf answer SubstError.BadPair → ⊥ }
    ensures { IfOk result (λ t. answer ≡ Ok t) }
{
    match answer {
        Ok(t) => Ok(t),
        Err(SubstError::Memory) => Err(AllocError),
        Err(SubstError::BadPair) => unreachable!(),
    }
}

/// Whether the variable is free in the goal.
pub fn is_free_in_goal(goal: &Goal, v: &Variable) -> bool
    ensures { result ≡ is_free_in (goal_terms goal.now) v.now }
{
    if goal.conclusion().vfree_in(v) {
        return true;
    }
    is_free_in_one(goal.assumptions(), v)
}

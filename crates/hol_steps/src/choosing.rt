//! Steps that assume what a theorem says to exist.
ghost use Rattle.std.specs.Prelude.{◌≡◌, ◌∷◌, ℕ, List, false, map, IfOk, Some, []};
ghost use Rattle.hol_subst.specs.FreeName.{is_taken};
ghost use Rattle.hol_terms.specs.Named.{named_type};
ghost use Rattle.hol_terms.specs.Nameless.{free, nameless, base_of};
ghost use Rattle.hol_subst.specs.Closing.{open_with};
ghost use Rattle.hol_subst.specs.Variant.{is_free_in};
ghost use Rattle.hol_formulas.specs.Equation.{bool_type};
ghost use Rattle.hol_just.specs.Fresh.{fresh};
ghost use Rattle.hol_just.specs.Leaving.{assuming};
ghost use Rattle.hol_just.specs.QuantifierTacs.{terms_by, assuming_fresh};
ghost use Rattle.hol_just.specs.Justifies.{LeavesChosen};
ghost use Rattle.hol_steps.specs.Fresh.{IsFresh, abstraction_of};

use crate::fresh::{FreeingStep, FreshVariable, fresh_variable};
use crate::quantifiers::{all_terms, at_variable, is_free_in_goal};
use crate::steps::{assume, leaving_one};
use hol_goal::{Goal, Names};
use hol_just::{Just, Step};
use hol_kernel::Given;
use hol_subst::is_free_in_one;
use hol_terms::{Term, Variable, add_copies};
use std::alloc::{AllocError, Global};

/// The step to the goal with the property at a variable of a new name assumed.
pub fn choose_step(
    alloc: Global,
    th: &Given,
    goal: &Goal,
    names: &Names,
    x: &Variable,
    p: &Term,
) -> Result<FreeingStep, AllocError>
    requires body { named_type p.now ≡ Some bool_type }
    ensures goals { IfOk result (λ f. (f.step.goals.items, f.tested.items) ≡ assuming_fresh goal.now (abstraction_of x.now p.now) (fresh names.now (terms_by th.now goal.now) (base_of x.now.0))) }
    ensures just { IfOk result (λ f. LeavesChosen ((fresh names.now (terms_by th.now goal.now) (base_of x.now.0)).name, x.now.1) th.now f.step.just) }
    ensures absent { IfOk result (λ f. is_free_in (terms_by th.now goal.now) ((fresh names.now (terms_by th.now goal.now) (base_of x.now.0)).name, x.now.1) ≡ false) }
{
    let FreshVariable { variable, tested } = chosen_variable(alloc, th, goal, names, x)?;
    Ok(FreeingStep {
        step: x_choose_step(alloc, th, goal, x, p, &variable)?,
        tested,
    })
}

// A variable of the type of `x` and a new name, that of nothing in the goal and the theorem.
fn chosen_variable(
    alloc: Global,
    th: &Given,
    goal: &Goal,
    names: &Names,
    x: &Variable,
) -> Result<FreshVariable, AllocError>
    ensures { IfOk result (λ f. IsFresh names.now (terms_by th.now goal.now) x.now f.variable f.tested.items) }
{
    let avoid = all_terms_by(alloc, th, goal)?;
    fresh_variable(alloc, names, avoid.as_slice(), x)
}

/// Copies of all terms of the goal and the theorem.
pub(crate) fn all_terms_by(alloc: Global, th: &Given, goal: &Goal) -> Result<Vec<Term>, AllocError>
    ensures { IfOk result (λ terms. (a : List ℕ) → is_taken (map (nameless []) terms.items) a ≡ is_taken (terms_by th.now goal.now) a) }
{
    let mut terms = all_terms(alloc, goal)?;
    terms.push(th.concl().copy()?)?;
    add_copies(&mut terms, th.hyps())?;
    Ok(terms)
}

/// The step to the goal with the property at the variable assumed.
pub fn x_choose_step(
    alloc: Global,
    th: &Given,
    goal: &Goal,
    x: &Variable,
    p: &Term,
    v: &Variable,
) -> Result<Step, AllocError>
    requires same { v.now.1 ≡ x.now.1 }
    requires body { named_type p.now ≡ Some bool_type }
    ensures goals { IfOk result (λ step. step.goals.items ≡ assuming goal.now (open_with (free v.now) 0 (nameless (x.now ∷ []) p.now)) goal.now.conclusion ∷ []) }
    ensures just { IfOk result (λ step. LeavesChosen v.now th.now step.just) }
{
    let left = chosen_goal(alloc, goal, x, p, v)?;
    let just = Just::choose_tac(alloc, v, th)?;
    leaving_one(alloc, left, just)
}

// The goal with the property at the variable assumed.
fn chosen_goal(
    alloc: Global,
    goal: &Goal,
    x: &Variable,
    p: &Term,
    v: &Variable,
) -> Result<Goal, AllocError>
    requires same { v.now.1 ≡ x.now.1 }
    requires body { named_type p.now ≡ Some bool_type }
    ensures { IfOk result (λ g. g ≡ assuming goal.now (open_with (free v.now) 0 (nameless (x.now ∷ []) p.now)) goal.now.conclusion) }
{
    let chosen = at_variable(alloc, x, p, v)?;
    assume(alloc, goal, &chosen, goal.conclusion())
}

/// Whether the variable is free in the goal or the theorem.
pub fn is_free_by(th: &Given, goal: &Goal, v: &Variable) -> bool
    ensures { result ≡ is_free_in (terms_by th.now goal.now) v.now }
{
    if is_free_in_goal(goal, v) {
        return true;
    }
    if th.concl().vfree_in(v) {
        return true;
    }
    is_free_in_one(th.hyps(), v)
}

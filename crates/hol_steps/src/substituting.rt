//! Steps that replace each occurrence of a term.
ghost use Rattle.std.specs.Prelude.{◌≡◌, ◌∷◌, ℕ, List, IfOk, Some, []};
ghost use Rattle.hol_types.specs.Tree.{TypeTree};
ghost use Rattle.hol_terms.specs.Named.{named_type};
ghost use Rattle.hol_terms.specs.Nameless.{free, nameless};
ghost use Rattle.hol_formulas.specs.Equation.{bool_type, dest_eq};
ghost use Rattle.hol_formulas.specs.Formula.{universal};
ghost use Rattle.hol_kernel.specs.Given.{given_sequent};
ghost use Rattle.hol_kernel.specs.Sequent.{Hyps};
ghost use Rattle.hol_derived.specs.Rules.{over_variable};
ghost use Rattle.hol_goal.specs.Achieves.{AreAllowed};
ghost use Rattle.hol_just.specs.Leaving.{concluding};
ghost use Rattle.hol_just.specs.Replacing.{replace_each};
ghost use Rattle.hol_just.specs.Valid.{IsValid};
ghost use Rattle.hol_just.specs.Justifies.{holds_given, LeavesGeneralized};
ghost use Rattle.hol_steps.specs.Unused.{HasNo};

use crate::replacing::{other_variable, replaced, template};
use crate::steps::leaving_one;
use hol_formulas::{Sides, mk_forall, occurrence};
use hol_goal::Goal;
use hol_just::{Just, Step};
use hol_kernel::Given;
use hol_terms::{Term, Variable};
use std::alloc::{AllocError, Global};

/// The step to the conclusion with one side for the other.
pub fn subst1_step(
    alloc: Global,
    th: &Given,
    goal: &Goal,
    sides: &Sides<'_>,
) -> Result<Step, AllocError>
    requires equation { dest_eq (given_sequent th.now).concl ≡ Some (record { sides_type = sides.now.ty.now; left = nameless [] sides.now.left.now; right = nameless [] sides.now.right.now }) }
    requires left { named_type sides.now.left.now ≡ Some sides.now.ty.now }
    requires right { named_type sides.now.right.now ≡ Some sides.now.ty.now }
    ensures goals { IfOk result (λ step. step.goals.items ≡ concluding goal.now (replace_each (nameless [] sides.now.left.now) (nameless [] sides.now.right.now) goal.now.conclusion) ∷ []) }
    ensures just { IfOk result (λ step. (extra : Hyps) → AreAllowed extra goal.now.assumptions (given_sequent th.now).hyps → IsValid (holds_given th.now) extra step.just (goal.now ∷ []) (concluding goal.now (replace_each (nameless [] sides.now.left.now) (nameless [] sides.now.right.now) goal.now.conclusion) ∷ [])) }
{
    let formula = goal.conclusion();
    let v = other_variable(alloc, formula, sides.ty)?;
    let template = template(alloc, formula, sides.left, &v)?;
    templated_step(alloc, th, goal, formula, sides, &v, &template)
}

// The same step, by the template of the conclusion, the formula, with the variable for the left side.
fn templated_step(
    alloc: Global,
    th: &Given,
    goal: &Goal,
    formula: &Term,
    sides: &Sides<'_>,
    v: &Variable,
    template: &Term,
) -> Result<Step, AllocError>
    requires equation { dest_eq (given_sequent th.now).concl ≡ Some (record { sides_type = sides.now.ty.now; left = nameless [] sides.now.left.now; right = nameless [] sides.now.right.now }) }
    requires right { named_type sides.now.right.now ≡ Some sides.now.ty.now }
    requires conclusion { nameless [] formula.now ≡ goal.now.conclusion }
    requires formula { named_type formula.now ≡ Some bool_type }
    requires of_type { v.now.1 ≡ sides.now.ty.now }
    requires other { HasNo v.now formula.now }
    requires is { nameless [] template.now ≡ replace_each (nameless [] sides.now.left.now) (free v.now) (nameless [] formula.now) }
    requires typed { named_type template.now ≡ named_type formula.now }
    ensures goals { IfOk result (λ step. step.goals.items ≡ concluding goal.now (replace_each (nameless [] sides.now.left.now) (nameless [] sides.now.right.now) goal.now.conclusion) ∷ []) }
    ensures just { IfOk result (λ step. (extra : Hyps) → AreAllowed extra goal.now.assumptions (given_sequent th.now).hyps → IsValid (holds_given th.now) extra step.just (goal.now ∷ []) (concluding goal.now (replace_each (nameless [] sides.now.left.now) (nameless [] sides.now.right.now) goal.now.conclusion) ∷ [])) }
{
    let conclusion = replaced(alloc, formula, sides.left, sides.right, v, template)?;
    let left = goal.with_conclusion(alloc, &conclusion)?;
    let just = Just::subst1_tac(alloc, v, template, th)?;
    leaving_one(alloc, left, just)
}

/// The step to the general formula.
pub fn spec_step(alloc: Global, goal: &Goal, t: &Term, x: &Variable) -> Result<Step, AllocError>
    requires { named_type t.now ≡ Some x.now.1 }
    ensures goals { IfOk result (λ step. step.goals.items ≡ concluding goal.now (universal (over_variable x.now (replace_each (nameless [] t.now) (free x.now) goal.now.conclusion))) ∷ []) }
    ensures just { IfOk result (λ step. (v : List ℕ × TypeTree) → LeavesGeneralized (nameless [] t.now) v step.just) }
{
    let general = general_formula(alloc, goal.conclusion(), t, x)?;
    let left = goal.with_conclusion(alloc, &general)?;
    let just = Just::spec_tac(alloc, t)?;
    leaving_one(alloc, left, just)
}

// The formula with the variable for each occurrence of the term, for all its values.
fn general_formula(
    alloc: Global,
    formula: &Term,
    t: &Term,
    x: &Variable,
) -> Result<Term, AllocError>
    requires of_type { named_type t.now ≡ Some x.now.1 }
    requires formula { named_type formula.now ≡ Some bool_type }
    ensures is { IfOk result (λ g. nameless [] g ≡ universal (over_variable x.now (replace_each (nameless [] t.now) (free x.now) (nameless [] formula.now)))) }
    ensures typed { IfOk result (λ g. named_type g ≡ Some bool_type) }
{
    let v = other_variable(alloc, formula, x.ty())?;
    let template = template(alloc, formula, t, &v)?;
    let body = with_variable(alloc, formula, t, x, &v, &template)?;
    mk_forall(alloc, x, &body)
}

// The formula with the variable for each occurrence of the term, by its template.
fn with_variable(
    alloc: Global,
    formula: &Term,
    t: &Term,
    x: &Variable,
    v: &Variable,
    template: &Term,
) -> Result<Term, AllocError>
    requires formula { named_type formula.now ≡ Some bool_type }
    requires of_type { v.now.1 ≡ x.now.1 }
    requires other { HasNo v.now formula.now }
    requires is { nameless [] template.now ≡ replace_each (nameless [] t.now) (free v.now) (nameless [] formula.now) }
    requires typed { named_type template.now ≡ named_type formula.now }
    ensures is { IfOk result (λ r. nameless [] r ≡ replace_each (nameless [] t.now) (free x.now) (nameless [] formula.now)) }
    ensures typed { IfOk result (λ r. named_type r ≡ Some bool_type) }
{
    let variable = occurrence(alloc, x)?;
    replaced(alloc, formula, t, &variable, v, template)
}

//! Rules of the quantifiers (bool.ml). The names of bound variables in what they give are those of what they were handed.
ghost use Rattle.std.specs.Prelude.{◌≡◌, ◌∷◌, IfOk, [], true};
ghost use Rattle.std.specs.FinSet as set;
ghost use Rattle.hol_types.specs.Fun.{fun_type};
ghost use Rattle.hol_terms.specs.Nameless.{nameless, lam, base_of};
ghost use Rattle.hol_terms.specs.Alpha.{alpha_eq};
ghost use Rattle.hol_subst.specs.Closing.{open_with};
ghost use Rattle.hol_subst.specs.Variant.{is_free_in};
ghost use Rattle.hol_formulas.specs.Equation.{bool_type};
ghost use Rattle.hol_kernel.specs.Theorem.{over};
ghost use Rattle.hol_kernel.specs.Typing.{HasType, is_type};
ghost use Rattle.hol_kernel.specs.Gives.{Gives};
ghost use Rattle.hol_derived.specs.Applied.{abstraction_in, abstraction_term};
ghost use Rattle.hol_bool.specs.Rules.{spec_of, gen_of, exists_of, choose_of, choose_left};
ghost use Rattle.hol_bool.specs.Refusals.{in_bool};
ghost use Rattle.hol_bool.specs.declared.error.Rule.TheVariants as rule;

use crate::error::{BoolError, Rule};
use hol_derived::{applied, contracted, forall_of};
use hol_equal::applied::sides_of;
use hol_formulas::{dest_exists, occurrence};
use hol_kernel::Thm;
use hol_subst::is_free_in_one;
use hol_terms::{Term, TermNode, Variable};
use std::alloc::{AllocError, Global};

// Whether the variable is free in a hypothesis.
fn is_free_in_hypotheses(a: &Thm, v: &Variable) -> bool
    ensures { result ≡ is_free_in (set.items a.now.sequent.hyps) v.now }
{
    is_free_in_one(a.hyps(), v)
}

/// The rule of specialization (bool.ml, SPEC): from `!x. p`, `p` with `t` for `x`. Bound variables keep the names that they have in the
/// theorem and in `t`.
///
/// Refused by [`Rule::Spec`] where the theorem is no universal quantification, and where `t` is not well typed over the prelude and
/// the theorem's basis or not of the type of `x`.
pub fn spec(alloc: Global, t: &Term, a: &Thm) -> Result<Thm, BoolError>
    ensures sequent { Gives in_bool rule.Spec (over a.now.basis (spec_of a.now.basis (nameless [] t.now) a.now.sequent)) result }
    ensures basis { IfOk result (λ th. th.basis ≡ a.now.basis) }
{
    let Some((v, _)) = forall_of(a) else {
        return Err(BoolError::Refused(Rule::Spec));
    };
    if !a.basis().has_type(alloc, t, v.ty())? {
        return Err(BoolError::Refused(Rule::Spec));
    }
    Ok(applied::spec(alloc, t, a)?)
}

/// The rule of generalization (bool.ml, GEN): from `p`, `!v. p`, for a variable that is free in no hypothesis.
///
/// Refused by [`Rule::Gen`] where `v` is no variable or not of a type over the theorem's basis, and where it is free in a hypothesis.
pub fn generalize(alloc: Global, v: &Term, a: &Thm) -> Result<Thm, BoolError>
    ensures sequent { Gives in_bool rule.Gen (over a.now.basis (gen_of a.now.basis v.now a.now.sequent)) result }
    ensures basis { IfOk result (λ th. th.basis ≡ a.now.basis) }
{
    let TermNode::Var(variable) = v.node() else {
        return Err(BoolError::Refused(Rule::Gen));
    };
    if !a.basis().is_type(variable.ty()) {
        return Err(BoolError::Refused(Rule::Gen));
    }
    if is_free_in_hypotheses(a, variable) {
        return Err(BoolError::Refused(Rule::Gen));
    }
    Ok(applied::generalize(alloc, v, a)?)
}

// Whether the theorem is, up to bound names, what the body says of `t` for the variable.
fn says_of(alloc: Global, a: &Thm, x: &Variable, p: &Term, t: &Term) -> Result<bool, AllocError>
    requires function { HasType a.now.basis (lam (base_of x.now.0) x.now.1 (nameless (x.now ∷ []) p.now)) (fun_type x.now.1 bool_type) }
    requires argument { HasType a.now.basis (nameless [] t.now) x.now.1 }
    ensures { IfOk result (λ is. is ≡ alpha_eq (open_with (nameless [] t.now) 0 (nameless (x.now ∷ []) p.now)) a.now.sequent.concl) }
{
    let f = Term::abstraction(alloc, x, p)?;
    let equal = contracted(alloc, a.basis(), &f, t)?;
    let Some(sides) = sides_of(&equal) else {
        unreachable!()
    };
    Ok(sides.right.alpha_equivalent(a.concl()))
}

// Whether the variable is free in a hypothesis other than the body with it for `x`.
fn is_free_in_left(
    alloc: Global,
    v: &Variable,
    x: &Variable,
    p: &Term,
    b: &Thm,
) -> Result<bool, AllocError>
    requires fits { v.now.1 ≡ x.now.1 }
    ensures { IfOk result (λ is. is ≡ is_free_in (set.items (choose_left v.now b.now.sequent.hyps (record { base = base_of x.now.0; domain = x.now.1; body = nameless (x.now ∷ []) p.now }))) v.now) }
{
    let rest = applied::left_of_choice(alloc, v, x, p, b)?;
    Ok(is_free_in_one(rest.terms(), v))
}

/// The rule of existence (bool.ml, EXISTS): from `p` with `t` for `x`, up to bound names, the formula `?x. p` that is handed in.
///
/// Refused by [`Rule::Exists`] where `e` is no existential quantification or not well typed over the prelude and the theorem's basis, where `t` is not or not of the
/// type of `x`, and where the theorem is not what `e` says of `t`.
#[tactic(auto, using(crate::proofs::DisjunctionRules::refused))]
pub fn exists(alloc: Global, e: &Term, t: &Term, a: &Thm) -> Result<Thm, BoolError>
    ensures sequent { Gives in_bool rule.Exists (over a.now.basis (exists_of a.now.basis (nameless [] e.now) (nameless [] t.now) a.now.sequent)) result }
    ensures basis { IfOk result (λ th. th.basis ≡ a.now.basis) }
{
    let Some((x, p)) = dest_exists(e) else {
        return Err(BoolError::Refused(Rule::Exists));
    };
    if !a.basis().is_typed(alloc, e)? {
        return Err(BoolError::Refused(Rule::Exists));
    }
    if !a.basis().has_type(alloc, t, x.ty())? {
        return Err(BoolError::Refused(Rule::Exists));
    }
    if !says_of(alloc, a, x, p, t)? {
        return Err(BoolError::Refused(Rule::Exists));
    }
    Ok(applied::exists(e, t, a)?)
}

/// The rule of choice of a witness (bool.ml, CHOOSE): from `?x. s` and `t`, `t` without the hypothesis `s` with `v` for `x`.
///
/// Refused by [`Rule::Choose`] where `v` is no variable of the type of `x`, where the first theorem is no existential quantification, and where `v` is free in it, in `t`, or in
/// another hypothesis of the second.
#[tactic(auto, using(crate::proofs::DisjunctionRules::refused))]
pub fn choose(alloc: Global, v: &Term, a: &Thm, b: &Thm) -> Result<Thm, BoolError>
    requires one_basis { a.now.basis ≡ b.now.basis }
    ensures sequent { Gives in_bool rule.Choose (over a.now.basis (choose_of v.now a.now.sequent b.now.sequent)) result }
    ensures basis { IfOk result (λ th. th.basis ≡ a.now.basis) }
{
    a.well_typed();
    let TermNode::Var(variable) = v.node() else {
        return Err(BoolError::Refused(Rule::Choose));
    };
    let Some((x, p)) = dest_exists(a.concl()) else {
        return Err(BoolError::Refused(Rule::Choose));
    };
    if !variable.ty().same(x.ty()) {
        return Err(BoolError::Refused(Rule::Choose));
    }
    if a.concl().vfree_in(variable) {
        return Err(BoolError::Refused(Rule::Choose));
    }
    if b.concl().vfree_in(variable) {
        return Err(BoolError::Refused(Rule::Choose));
    }
    if is_free_in_left(alloc, variable, x, p, b)? {
        return Err(BoolError::Refused(Rule::Choose));
    }
    Ok(applied::choose(alloc, v, a, b)?)
}

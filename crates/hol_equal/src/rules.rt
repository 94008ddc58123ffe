//! Rules of equations (equal.ml, bool.ml). The names of bound variables in what they give are those of what they were handed.
ghost use Rattle.std.specs.Prelude.{◌≡◌, IfOk, []};
ghost use Rattle.hol_terms.specs.Named.{var};
ghost use Rattle.hol_terms.specs.Nameless.{nameless};
ghost use Rattle.hol_formulas.specs.Equation.{bool_type, equation};
ghost use Rattle.hol_kernel.specs.Typing.{HasType};
ghost use Rattle.hol_kernel.specs.Theorem.{over};
ghost use Rattle.hol_kernel.specs.Gives.{Gives};
ghost use Rattle.hol_equal.specs.Applied.{lhs, rhs};
ghost use Rattle.hol_equal.specs.Rules.{sym_of, ap_term_of, ap_thm_of, alpha_of, beta_conv_of, subst_of};
ghost use Rattle.hol_equal.specs.Refusals.{in_equal};
ghost use Rattle.hol_equal.specs.declared.error.Rule.TheVariants as rule;

use crate::applied::{self, known_sides, sides_of};
use crate::error::{EqualError, Rule};
use crate::replacement::m_with;
use hol_kernel::{Basis, Thm};
use hol_terms::{Term, TermNode, Variable};
use std::alloc::{AllocError, Global};

/// The rule of symmetry (equal.ml, SYM): from `s = t`, `t = s`.
///
/// Refused by [`Rule::Sym`] where the theorem is no equation.
pub fn sym(alloc: Global, a: &Thm) -> Result<Thm, EqualError>
    ensures sequent { Gives in_equal rule.Sym (over a.now.basis (sym_of a.now.sequent)) result }
    ensures basis { IfOk result (λ th. th.basis ≡ a.now.basis) }
{
    let Some(_sides) = sides_of(a) else {
        return Err(EqualError::Refused(Rule::Sym));
    };
    Ok(applied::sym(alloc, a)?)
}

/// The rule of alpha equivalence (equal.ml, ALPHA): `s = t` over the basis, for terms that are equal up to bound names.
///
/// Refused by [`Rule::Alpha`] where they are not, and where one is not well typed over the prelude and the basis.
pub fn alpha(alloc: Global, basis: &Basis, s: &Term, t: &Term) -> Result<Thm, EqualError>
    ensures sequent { Gives in_equal rule.Alpha (over basis.now (alpha_of basis.now (nameless [] s.now) (nameless [] t.now))) result }
    ensures basis { IfOk result (λ th. th.basis ≡ basis.now) }
{
    if !s.alpha_equivalent(t) {
        return Err(EqualError::Refused(Rule::Alpha));
    }
    if !basis.is_typed(alloc, s)? {
        return Err(EqualError::Refused(Rule::Alpha));
    }
    if !basis.is_typed(alloc, t)? {
        return Err(EqualError::Refused(Rule::Alpha));
    }
    Ok(applied::alpha(alloc, basis, s.type_of(), s, t)?)
}

/// The rule of the operand (equal.ml, AP_TERM): from `s = t`, `f s = f t`.
///
/// Refused by [`Rule::ApTerm`] where the theorem is no equation, and where `f` is not well typed over the prelude and the theorem's
/// basis or no function of what has the type of `s`.
#[tactic(auto, using(crate::proofs::Answered::ap_terms))]
pub fn ap_term(alloc: Global, f: &Term, a: &Thm) -> Result<Thm, EqualError>
    ensures sequent { Gives in_equal rule.ApTerm (over a.now.basis (ap_term_of a.now.basis (nameless [] f.now) a.now.sequent)) result }
    ensures basis { IfOk result (λ th. th.basis ≡ a.now.basis) }
{
    let Some(sides) = sides_of(a) else {
        return Err(EqualError::Refused(Rule::ApTerm));
    };
    let Some((domain, _range)) = f.type_of().dest_fun() else {
        return Err(EqualError::Refused(Rule::ApTerm));
    };
    if !domain.same(sides.ty) {
        return Err(EqualError::Refused(Rule::ApTerm));
    }
    if !a.basis().is_typed(alloc, f)? {
        return Err(EqualError::Refused(Rule::ApTerm));
    }
    Ok(applied::ap_term(alloc, f.type_of(), f, a)?)
}

/// The rule of the operator (equal.ml, AP_THM): from `s = t`, `s x = t x`.
///
/// Refused by [`Rule::ApThm`] where the theorem is no equation of functions, and where `x` is not well typed over the prelude and the
/// theorem's basis or not of the type of their arguments.
#[tactic(auto, using(crate::proofs::Answered::ap_thms))]
pub fn ap_thm(alloc: Global, a: &Thm, x: &Term) -> Result<Thm, EqualError>
    ensures sequent { Gives in_equal rule.ApThm (over a.now.basis (ap_thm_of a.now.basis a.now.sequent (nameless [] x.now))) result }
    ensures basis { IfOk result (λ th. th.basis ≡ a.now.basis) }
{
    let Some(sides) = sides_of(a) else {
        return Err(EqualError::Refused(Rule::ApThm));
    };
    let Some((domain, _range)) = sides.ty.dest_fun() else {
        return Err(EqualError::Refused(Rule::ApThm));
    };
    if !a.basis().has_type(alloc, x, domain)? {
        return Err(EqualError::Refused(Rule::ApThm));
    }
    Ok(applied::ap_thm(alloc, a, domain, x)?)
}

/// The rule of beta conversion (equal.ml, BETA_CONV): `(\x. b) r = b` over the basis, with `r` for `x` on the right. Bound variables keep
/// the names that they have in `b` and in `r`.
///
/// Refused by [`Rule::BetaConv`] where the term is no application of an abstraction, or not well typed over the prelude and the basis.
#[tactic(auto, using(crate::proofs::Answered::beta_conv_untyped))]
pub fn beta_conv(alloc: Global, basis: &Basis, redex: &Term) -> Result<Thm, EqualError>
    ensures sequent { Gives in_equal rule.BetaConv (over basis.now (beta_conv_of basis.now (nameless [] redex.now))) result }
    ensures basis { IfOk result (λ th. th.basis ≡ basis.now) }
{
    let TermNode::Comb(f, _x) = redex.node() else {
        return Err(EqualError::Refused(Rule::BetaConv));
    };
    let TermNode::Abs(_v, _b) = f.node() else {
        return Err(EqualError::Refused(Rule::BetaConv));
    };
    if !basis.is_typed(alloc, redex)? {
        return Err(EqualError::Refused(Rule::BetaConv));
    }
    Ok(applied::beta_conv(alloc, basis, redex.type_of(), redex)?)
}

/// The rule of substitution (SUBST): from `s = t` and a theorem that concludes `m` with `s` for `v`, up to bound names, `m` with `t` for `v`.
///
/// Refused by [`Rule::Subst`] where `v` is no variable of the type of `s` or the first theorem no equation, where `m` is no formula that is well
/// typed over the prelude and the theorems' basis, and where the second theorem concludes something else.
#[tactic(auto, using(crate::proofs::Replaced::substs))]
pub fn subst(alloc: Global, a: &Thm, v: &Term, m: &Term, b: &Thm) -> Result<Thm, EqualError>
    requires one_basis { a.now.basis ≡ b.now.basis }
    ensures sequent { Gives in_equal rule.Subst (over a.now.basis (subst_of a.now.basis a.now.sequent v.now (nameless [] m.now) b.now.sequent)) result }
    ensures basis { IfOk result (λ th. th.basis ≡ a.now.basis) }
{
    let TermNode::Var(variable) = v.node() else {
        return Err(EqualError::Refused(Rule::Subst));
    };
    let Some(sides) = sides_of(a) else {
        return Err(EqualError::Refused(Rule::Subst));
    };
    if !variable.ty().same(sides.ty) {
        return Err(EqualError::Refused(Rule::Subst));
    }
    if !a.basis().is_formula(alloc, m)? {
        return Err(EqualError::Refused(Rule::Subst));
    }
    with_right_side(alloc, a, variable, m, b)
}

// SUBST, for an equation of the variable's type and a formula.
#[tactic(auto, using(crate::proofs::Replaced::substs))]
fn with_right_side(
    alloc: Global,
    a: &Thm,
    v: &Variable,
    m: &Term,
    b: &Thm,
) -> Result<Thm, EqualError>
    requires one_basis { a.now.basis ≡ b.now.basis }
    requires equal { a.now.sequent.concl ≡ equation v.now.1 (lhs a.now.sequent.concl) (rhs a.now.sequent.concl) }
    requires typed { HasType a.now.basis (nameless [] m.now) bool_type }
    ensures sequent { Gives in_equal rule.Subst (over a.now.basis (subst_of a.now.basis a.now.sequent (var v.now) (nameless [] m.now) b.now.sequent)) result }
    ensures basis { IfOk result (λ th. th.basis ≡ a.now.basis) }
{
    a.well_typed();
    let sides = known_sides(a);
    let image = m_with(alloc, sides.left, v, m)?;
    if !image.alpha_equivalent(b.concl()) {
        return Err(EqualError::Refused(Rule::Subst));
    }
    Ok(applied::subst(alloc, a, v, m, b)?)
}

//! The rules for callers that know that they apply: such a call is not refused.
ghost use Rattle.std.specs.Prelude.{◌≡◌, true, IfOk, IsTrue, MatchOption, Some, None, Ok, [], ◌∷◌};
ghost use Rattle.hol_terms.specs.Nameless.{nameless};
ghost use Rattle.hol_terms.specs.Alpha.{alpha_eq};
ghost use Rattle.hol_subst.specs.Substitution.{types_inst};
ghost use Rattle.hol_formulas.specs.Equation.{bool_type, equation, dest_eq};
ghost use Rattle.hol_terms.specs.Named.{var};
ghost use Rattle.hol_kernel.specs.Rules.{reflexive, trans_of, mk_comb_of, abs_of, eq_mp_of, sequent_image};
ghost use Rattle.hol_kernel.specs.Typing.{HasType, is_type, is_typed};
ghost use Rattle.hol_kernel.specs.Sequent.{sequent_of, no_hyps, only_hyp};
ghost use Rattle.hol_kernel.specs.Theorem.{theorem_on};
ghost use Rattle.hol_equal.specs.Applied.{transitive, combined, concluded, symmetric, under, at_argument, abstracted, contraction};
ghost use Rattle.hol_equal.specs.Rules.{sym_of, prove_hyp_of, beta_conv_of};
ghost use Rattle.hol_equal.specs.Unrefused.{IsUnrefused};

pub use crate::replacement::{m_with, subst};
use hol_formulas::{Sides, dest_eq, occurrence};
use hol_kernel::{Basis, KernelError, Thm};
use hol_subst::Hypotheses;
use hol_terms::{Term, TermNode, Variable};
use hol_types::{Name, Ty};
use std::alloc::{AllocError, Global};

/// The theorem of a call that is not refused.
pub fn unrefused(answer: Result<Thm, KernelError>) -> Result<Thm, AllocError>
    requires { IsUnrefused answer }
    ensures { IfOk result (λ th. answer ≡ Ok th) }
{
    match answer {
        Ok(th) => Ok(th),
        Err(KernelError::Memory) => Err(AllocError),
        Err(KernelError::Refused(_)) => unreachable!(),
        Err(KernelError::Clash(_)) => unreachable!(),
    }
}

/// REFL: `|- t = t`, for a term of the type that is well typed over the basis.
#[inline(never)]
pub fn refl(alloc: Global, basis: &Basis, ty: &Ty, t: &Term) -> Result<Thm, AllocError>
    requires typed { HasType basis.now (nameless [] t.now) ty.now }
    ensures { IfOk result (λ th. th ≡ theorem_on basis.now (reflexive (nameless [] t.now) ty.now)) }
{
    Thm::refl_typed(alloc, basis, t)
}

/// TRANS: from `s = m` and `n = t`, where `m` and `n` are equal up to bound names, `s = t`.
#[inline(never)]
pub fn trans(alloc: Global, a: &Thm, b: &Thm) -> Result<Thm, AllocError>
    requires one_basis { a.now.basis ≡ b.now.basis }
    requires applies { trans_of a.now.sequent b.now.sequent ≡ Some (transitive a.now.sequent b.now.sequent) }
    ensures { IfOk result (λ th. th ≡ theorem_on a.now.basis (transitive a.now.sequent b.now.sequent)) }
{
    unrefused(Thm::trans(alloc, a, b))
}

/// MK_COMB: from `f = g` and `x = y` of fitting types, `f x = g y`.
#[inline(never)]
pub fn mk_comb(alloc: Global, a: &Thm, b: &Thm) -> Result<Thm, AllocError>
    requires one_basis { a.now.basis ≡ b.now.basis }
    requires applies { mk_comb_of a.now.sequent b.now.sequent ≡ Some (combined a.now.sequent b.now.sequent) }
    ensures { IfOk result (λ th. th ≡ theorem_on a.now.basis (combined a.now.sequent b.now.sequent)) }
{
    unrefused(Thm::mk_comb(alloc, a, b))
}

/// EQ_MP: from `l = r` and `m`, where `l` and `m` are equal up to bound names, `r`.
pub fn eq_mp(alloc: Global, a: &Thm, b: &Thm) -> Result<Thm, AllocError>
    requires one_basis { a.now.basis ≡ b.now.basis }
    requires applies { eq_mp_of a.now.sequent b.now.sequent ≡ Some (concluded a.now.sequent b.now.sequent) }
    ensures { IfOk result (λ th. th ≡ theorem_on a.now.basis (concluded a.now.sequent b.now.sequent)) }
{
    unrefused(Thm::eq_mp(alloc, a, b))
}

/// ASSUME: `{p} |- p`, for a term of type `bool` that is well typed over the basis.
pub fn assume(alloc: Global, basis: &Basis, p: &Term) -> Result<Thm, AllocError>
    requires typed { HasType basis.now (nameless [] p.now) bool_type }
    ensures { IfOk result (λ th. th ≡ theorem_on basis.now (sequent_of (only_hyp (nameless [] p.now)) (nameless [] p.now))) }
{
    Thm::assume_typed(alloc, basis, p)
}

/// ABS: from `l = r`, for a variable of a type over the basis that is free in no hypothesis, `(\v. l) = (\v. r)`.
#[inline(never)]
pub fn abs(alloc: Global, v: &Variable, a: &Thm) -> Result<Thm, AllocError>
    requires applies { abs_of a.now.basis (var v.now) a.now.sequent ≡ Some (abstracted v.now a.now.sequent) }
    ensures { IfOk result (λ th. th ≡ theorem_on a.now.basis (abstracted v.now a.now.sequent)) }
{
    let own = occurrence(alloc, v)?;
    unrefused(Thm::abs(alloc, &own, a))
}

/// The sides of the theorem's conclusion.
pub fn sides_of(th: &Thm) -> Option<Sides<'_>>
    ensures { MatchOption result (dest_eq th.now.sequent.concl ≡ None) (λ x. th.now.sequent.concl ≡ equation x.ty.now (nameless [] x.left.now) (nameless [] x.right.now)) }
{
    dest_eq(th.concl())
}

/// The sides of a theorem that is an equation.
pub(crate) fn known_sides(th: &Thm) -> Sides<'_>
    requires equation { dest_eq th.now.sequent.concl ≡ None → ⊥ }
    ensures { th.now.sequent.concl ≡ equation result.ty.now (nameless [] result.left.now) (nameless [] result.right.now) }
{
    let Some(sides) = sides_of(th) else {
        unreachable!()
    };
    sides
}

/// ALPHA: `s = t`, for terms that are well typed over the basis and equal up to bound names; the type is that of `s`.
pub(crate) fn alpha(
    alloc: Global,
    basis: &Basis,
    ty: &Ty,
    s: &Term,
    t: &Term,
) -> Result<Thm, AllocError>
    requires typed { HasType basis.now (nameless [] s.now) ty.now }
    requires second { is_typed basis.now (nameless [] t.now) ≡ true }
    requires equal { alpha_eq (nameless [] s.now) (nameless [] t.now) ≡ true }
    ensures { IfOk result (λ th. th ≡ theorem_on basis.now (sequent_of no_hyps (equation ty.now (nameless [] s.now) (nameless [] t.now)))) }
{
    let left = refl(alloc, basis, ty, s)?;
    let right = refl(alloc, basis, t.type_of(), t)?;
    trans(alloc, &left, &right)
}

/// SYM: from `s = t`, `t = s`.
pub fn sym(alloc: Global, a: &Thm) -> Result<Thm, AllocError>
    requires applies { sym_of a.now.sequent ≡ Some (symmetric a.now.sequent) }
    ensures { IfOk result (λ th. th ≡ theorem_on a.now.basis (symmetric a.now.sequent)) }
{
    Thm::sym(alloc, a)
}

/// AP_TERM: from `s = t`, `f s = f t`, for a function of the type.
pub fn ap_term(alloc: Global, ty: &Ty, f: &Term, a: &Thm) -> Result<Thm, AllocError>
    requires typed { HasType a.now.basis (nameless [] f.now) ty.now }
    requires applies { mk_comb_of (reflexive (nameless [] f.now) ty.now) a.now.sequent ≡ Some (combined (reflexive (nameless [] f.now) ty.now) a.now.sequent) }
    ensures { IfOk result (λ th. th ≡ theorem_on a.now.basis (under ty.now (nameless [] f.now) a.now.sequent)) }
{
    Thm::ap_term(alloc, ty, f, a)
}

/// AP_THM: from `s = t`, `s x = t x`, for an argument of the type.
pub fn ap_thm(alloc: Global, a: &Thm, ty: &Ty, x: &Term) -> Result<Thm, AllocError>
    requires typed { HasType a.now.basis (nameless [] x.now) ty.now }
    requires applies { mk_comb_of a.now.sequent (reflexive (nameless [] x.now) ty.now) ≡ Some (combined a.now.sequent (reflexive (nameless [] x.now) ty.now)) }
    ensures { IfOk result (λ th. th ≡ theorem_on a.now.basis (at_argument (nameless [] x.now) a.now.sequent)) }
{
    a.promise();
    let sides = known_sides(a);
    let Some((_domain, range)) = sides.ty.dest_fun() else {
        unreachable!()
    };
    let left = Term::application_to(alloc, sides.left, x, range)?;
    let right = Term::application_to(alloc, sides.right, x, range)?;
    let concl = a.basis().equation(alloc, range, &left, &right)?;
    let hyps = a.hypotheses().copy()?;
    Thm::closed(a.basis(), hyps, concl)
}

/// PROVE_HYP: from `A |- p` and `B |- q`, `A u (B - p) |- q`.
pub fn prove_hyp(alloc: Global, a: &Thm, b: &Thm) -> Result<Thm, AllocError>
    requires one_basis { a.now.basis ≡ b.now.basis }
    ensures { IfOk result (λ th. th ≡ theorem_on a.now.basis (prove_hyp_of a.now.sequent b.now.sequent)) }
{
    Thm::prove_hyp(alloc, a, b)
}

/// INST_TYPE: the theorem with a type over its basis for the type variable of the name.
pub fn inst_type(alloc: Global, ty: &Ty, name: &str, a: &Thm) -> Result<Thm, AllocError>
    requires stands { is_type a.now.basis ty.now ≡ true }
    ensures { IfOk result (λ th. th ≡ theorem_on a.now.basis (sequent_image (types_inst ((ty.now, name.now) ∷ [])) a.now.sequent)) }
{
    let mut pairs = Vec::new(alloc);
    let own = Name::new(alloc, name)?;
    pairs.push((ty.copy()?, own))?;
    unrefused(Thm::inst_type(alloc, &pairs, a))
}

/// BETA_CONV: `(\x. b) r = b` with `r` for `x`, for a redex of the type that is well typed over the basis. At `x` itself it is BETA.
#[inline(never)]
pub fn beta_conv(alloc: Global, basis: &Basis, ty: &Ty, redex: &Term) -> Result<Thm, AllocError>
    requires typed { HasType basis.now (nameless [] redex.now) ty.now }
    requires applies { beta_conv_of basis.now (nameless [] redex.now) ≡ Some (contraction ty.now (nameless [] redex.now)) }
    ensures { IfOk result (λ th. th ≡ theorem_on basis.now (contraction ty.now (nameless [] redex.now))) }
{
    let TermNode::Comb(f, x) = redex.node() else {
        unreachable!()
    };
    let TermNode::Abs(v, b) = f.node() else {
        unreachable!()
    };
    if is_occurrence(x, v) {
        return Thm::beta_typed(alloc, basis, redex);
    }
    let reduced = m_with(alloc, x, v, b)?;
    let concl = basis.equation(alloc, ty, redex, &reduced)?;
    Thm::closed(basis, Hypotheses::none(), concl)
}

// Whether the term is the variable.
fn is_occurrence(t: &Term, v: &Variable) -> bool
    ensures { IsTrue result → t.now ≡ var v.now }
{
    match t.node() {
        TermNode::Var(w) => w.same(v),
        TermNode::Const(_, _) => false,
        TermNode::Comb(_, _) => false,
        TermNode::Abs(_, _) => false,
    }
}

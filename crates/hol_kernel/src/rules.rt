//! The primitive rules of HOL Light (fusion.ml) that need no substitution.
ghost use Rattle.std.specs.Prelude.{◌≡◌, true, IfOk, IsSome, Some, []};
ghost use Rattle.hol_types.specs.Fun.{fun_type};
ghost use Rattle.hol_terms.specs.Named.{abs, comb, named_type};
ghost use Rattle.hol_formulas.specs.Equation.{bool_type, mk_eq};
ghost use Rattle.hol_terms.specs.Nameless.{nameless};
ghost use Rattle.hol_kernel.specs.Typing.{HasType, is_typed};
ghost use Rattle.hol_kernel.specs.Rules.{refl_of, assume_of, beta_of, trans_of, mk_comb_of, abs_of, eq_mp_of, deduct_antisym_of};
ghost use Rattle.hol_kernel.specs.Theorem.{theorem_on, over};
ghost use Rattle.hol_kernel.specs.Gives.{Gives, in_kernel};
ghost use Rattle.hol_kernel.specs.declared.error.Rule.TheVariants as rule;

use crate::basis::Basis;
use crate::error::{KernelError, Rule};
use crate::thm::Thm;
use hol_formulas::{Sides, dest_eq, is_bool, mk_eq_from};
use hol_subst::Hypotheses;
use hol_terms::{Term, TermNode, Variable};
use hol_types::Ty;
use std::alloc::{AllocError, Global};

impl Thm {
    /// The rule of reflexivity (fusion.ml, REFL): `|- t = t` over the basis.
    ///
    /// Refused by [`Rule::Refl`] where `t` is not well typed over the prelude and the basis.
    #[tactic(auto, using(crate::proofs::TermRules::refls))]
    pub fn refl(alloc: Global, basis: &Basis, term: &Term) -> Result<Thm, KernelError>
        ensures sequent { Gives in_kernel rule.Refl (over basis.now (refl_of basis.now (nameless [] term.now))) result }
        ensures basis { IfOk result (λ th. th.basis ≡ basis.now) }
    {
        if !basis.is_typed(alloc, term)? {
            return Err(KernelError::Refused(Rule::Refl));
        }
        Ok(Thm::refl_typed(alloc, basis, term)?)
    }

    /// [`Thm::refl`] of a term that is known to be well typed over the basis: it isn't walked.
    pub fn refl_typed(alloc: Global, basis: &Basis, term: &Term) -> Result<Thm, AllocError>
        requires typed { is_typed basis.now (nameless [] term.now) ≡ true }
        ensures sequent { IfOk result (λ th. over basis.now (refl_of basis.now (nameless [] term.now)) ≡ Some th) }
        ensures basis { IfOk result (λ th. th.basis ≡ basis.now) }
    {
        let concl = basis.equation(alloc, term.type_of(), term, term)?;
        Thm::unconditional(basis, concl)
    }

    /// The rule of assumption (fusion.ml, ASSUME): `{p} |- p` over the basis.
    ///
    /// Refused by [`Rule::Assume`] where `p` is not well typed over the prelude and the basis, or not of type `bool`.
    #[tactic(auto, using(crate::proofs::TermRules::assumes, crate::proofs::TermRules::formula_typed))]
    pub fn assume(alloc: Global, basis: &Basis, p: &Term) -> Result<Thm, KernelError>
        ensures sequent { Gives in_kernel rule.Assume (over basis.now (assume_of basis.now (nameless [] p.now))) result }
        ensures basis { IfOk result (λ th. th.basis ≡ basis.now) }
    {
        if !is_bool(p.type_of()) || !basis.is_typed(alloc, p)? {
            return Err(KernelError::Refused(Rule::Assume));
        }
        Ok(Thm::assume_typed(alloc, basis, p)?)
    }

    /// [`Thm::assume`] of a term that is known to be well typed over the basis, of type `bool`: it isn't walked.
    pub fn assume_typed(alloc: Global, basis: &Basis, p: &Term) -> Result<Thm, AllocError>
        requires typed { HasType basis.now (nameless [] p.now) bool_type }
        ensures sequent { IfOk result (λ th. over basis.now (assume_of basis.now (nameless [] p.now)) ≡ Some th) }
        ensures basis { IfOk result (λ th. th.basis ≡ basis.now) }
    {
        let _ty = p.type_of();
        let concl = p.copy()?;
        let hyps = Hypotheses::one(alloc, p)?;
        Thm::closed(basis, hyps, concl)
    }

    /// The rule of transitivity (fusion.ml, TRANS): from `s = m` and `n = t`, where `m` and `n` are alpha equivalent, `s = t`.
    ///
    /// Refused by [`Rule::Trans`] where a theorem is no equation or `m` and `n` are not alpha equivalent.
    pub fn trans(alloc: Global, a: &Thm, b: &Thm) -> Result<Thm, KernelError>
        requires one_basis { a.now.basis ≡ b.now.basis }
        ensures sequent { Gives in_kernel rule.Trans (over a.now.basis (trans_of a.now.sequent b.now.sequent)) result }
        ensures basis { IfOk result (λ th. th.basis ≡ a.now.basis) }
    {
        a.promise();
        b.promise();
        let Some(x) = dest_eq(a.concl()) else {
            return Err(KernelError::Refused(Rule::Trans));
        };
        let Some(y) = dest_eq(b.concl()) else {
            return Err(KernelError::Refused(Rule::Trans));
        };
        if !x.right.alpha_equivalent(y.left) {
            return Err(KernelError::Refused(Rule::Trans));
        }
        let concl = mk_eq_from(alloc, x, y.right)?;
        let hyps = a.hypotheses().union(alloc, b.hypotheses())?;
        Ok(Thm::closed(a.basis(), hyps, concl)?)
    }

    /// The rule of application (fusion.ml, MK_COMB): from `f = g` and `x = y`, `f x = g y`.
    ///
    /// Refused by [`Rule::MkComb`] where a theorem is no equation, or the type of `x` is not that of the argument of `f`.
    pub fn mk_comb(alloc: Global, a: &Thm, b: &Thm) -> Result<Thm, KernelError>
        requires one_basis { a.now.basis ≡ b.now.basis }
        ensures sequent { Gives in_kernel rule.MkComb (over a.now.basis (mk_comb_of a.now.sequent b.now.sequent)) result }
        ensures basis { IfOk result (λ th. th.basis ≡ a.now.basis) }
    {
        a.promise();
        b.promise();
        let Some(x) = dest_eq(a.concl()) else {
            return Err(KernelError::Refused(Rule::MkComb));
        };
        let Some(y) = dest_eq(b.concl()) else {
            return Err(KernelError::Refused(Rule::MkComb));
        };
        let Some((domain, range)) = x.ty.dest_fun() else {
            return Err(KernelError::Refused(Rule::MkComb));
        };
        if !domain.same(y.ty) {
            return Err(KernelError::Refused(Rule::MkComb));
        }
        let concl = applied(alloc, a.basis(), x, y, range)?;
        let hyps = a.hypotheses().union(alloc, b.hypotheses())?;
        Ok(Thm::closed(a.basis(), hyps, concl)?)
    }

    /// The rule of abstraction (fusion.ml, ABS): from `l = r`, for a variable `v` that is free in no hypothesis,
    /// `(\v. l) = (\v. r)`.
    ///
    /// Refused by [`Rule::Abs`] where the theorem is no equation, where `v` is no variable or not of a type over the theorem's basis,
    /// and where it is free in a hypothesis.
    pub fn abs(alloc: Global, v: &Term, a: &Thm) -> Result<Thm, KernelError>
        ensures sequent { Gives in_kernel rule.Abs (over a.now.basis (abs_of a.now.basis v.now a.now.sequent)) result }
        ensures basis { IfOk result (λ th. th.basis ≡ a.now.basis) }
    {
        a.promise();
        let TermNode::Var(variable) = v.node() else {
            return Err(KernelError::Refused(Rule::Abs));
        };
        let Some(x) = dest_eq(a.concl()) else {
            return Err(KernelError::Refused(Rule::Abs));
        };
        if !a.basis().is_type(variable.ty()) || a.hypotheses().has_free(variable) {
            return Err(KernelError::Refused(Rule::Abs));
        }
        let concl = abstracted(alloc, a.basis(), variable, x)?;
        let hyps = a.hypotheses().copy()?;
        Ok(Thm::closed(a.basis(), hyps, concl)?)
    }

    /// The rule of beta conversion (fusion.ml, BETA): `(\v. b) v = b` over the basis, for a term that is an abstraction applied to
    /// its own variable.
    ///
    /// Refused by [`Rule::Beta`] where the term is of another form or not well typed over the prelude and the basis.
    #[tactic(auto, using(crate::proofs::TermRules::betas))]
    pub fn beta(alloc: Global, basis: &Basis, redex: &Term) -> Result<Thm, KernelError>
        ensures sequent { Gives in_kernel rule.Beta (over basis.now (beta_of basis.now redex.now)) result }
        ensures basis { IfOk result (λ th. th.basis ≡ basis.now) }
    {
        let _ty = redex.type_of();
        let TermNode::Comb(function, argument) = redex.node() else {
            return Err(KernelError::Refused(Rule::Beta));
        };
        let (TermNode::Abs(v, _body), TermNode::Var(w)) = (function.node(), argument.node()) else {
            return Err(KernelError::Refused(Rule::Beta));
        };
        if !v.same(w) {
            return Err(KernelError::Refused(Rule::Beta));
        }
        if !basis.is_typed(alloc, redex)? {
            return Err(KernelError::Refused(Rule::Beta));
        }
        Ok(Thm::beta_typed(alloc, basis, redex)?)
    }

    /// [`Thm::beta`] of a term to which it is known to apply: it isn't walked.
    pub fn beta_typed(alloc: Global, basis: &Basis, redex: &Term) -> Result<Thm, AllocError>
        requires applies { IsSome (beta_of basis.now redex.now) }
        ensures sequent { IfOk result (λ th. over basis.now (beta_of basis.now redex.now) ≡ Some th) }
        ensures basis { IfOk result (λ th. th.basis ≡ basis.now) }
    {
        let TermNode::Comb(function, _argument) = redex.node() else {
            unreachable!()
        };
        let TermNode::Abs(_v, body) = function.node() else {
            unreachable!()
        };
        let concl = basis.equation(alloc, redex.type_of(), redex, body)?;
        Thm::unconditional(basis, concl)
    }

    /// The rule of modus ponens for equations (fusion.ml, EQ_MP): from `l = r` and `m`, where `l` and `m` are alpha equivalent, `r`.
    ///
    /// Refused by [`Rule::EqMp`] where the first theorem is no equation or `l` and `m` are not alpha equivalent.
    pub fn eq_mp(alloc: Global, a: &Thm, b: &Thm) -> Result<Thm, KernelError>
        requires one_basis { a.now.basis ≡ b.now.basis }
        ensures sequent { Gives in_kernel rule.EqMp (over a.now.basis (eq_mp_of a.now.sequent b.now.sequent)) result }
        ensures basis { IfOk result (λ th. th.basis ≡ a.now.basis) }
    {
        a.promise();
        b.promise();
        let Some(x) = dest_eq(a.concl()) else {
            return Err(KernelError::Refused(Rule::EqMp));
        };
        if !x.left.alpha_equivalent(b.concl()) {
            return Err(KernelError::Refused(Rule::EqMp));
        }
        let concl = x.right.copy()?;
        let hyps = a.hypotheses().union(alloc, b.hypotheses())?;
        Ok(Thm::closed(a.basis(), hyps, concl)?)
    }

    /// The rule of deduction (fusion.ml, DEDUCT_ANTISYM_RULE): from `A |- p` and `B |- q`, `(A - q) u (B - p) |- p = q`.
    /// It applies to any two theorems.
    pub fn deduct_antisym(alloc: Global, a: &Thm, b: &Thm) -> Result<Thm, AllocError>
        requires one_basis { a.now.basis ≡ b.now.basis }
        ensures { IfOk result (λ th. th ≡ theorem_on a.now.basis (deduct_antisym_of a.now.sequent b.now.sequent)) }
    {
        a.promise();
        b.promise();
        let first = a.hypotheses().without(alloc, b.concl())?;
        let second = b.hypotheses().without(alloc, a.concl())?;
        let concl = a
            .basis()
            .equation(alloc, a.concl().type_of(), a.concl(), b.concl())?;
        let hyps = first.union(alloc, &second)?;
        Thm::closed(a.basis(), hyps, concl)
    }
}

// The equation of the applications of the sides: those of `x` are functions to `range`.
#[tactic(auto, using(hol_formulas::proofs::PartTypes::applications))]
fn applied(
    alloc: Global,
    basis: &Basis,
    x: Sides<'_>,
    y: Sides<'_>,
    range: &Ty,
) -> Result<Term, AllocError>
    requires functions { x.ty.now ≡ fun_type y.ty.now range.now }
    requires left { named_type x.left.now ≡ Some x.ty.now }
    requires right { named_type x.right.now ≡ Some x.ty.now }
    requires left_argument { named_type y.left.now ≡ Some y.ty.now }
    requires right_argument { named_type y.right.now ≡ Some y.ty.now }
    ensures is { IfOk result (λ t. t ≡ mk_eq range.now (comb x.entry.left.now y.entry.left.now) (comb x.entry.right.now y.entry.right.now)) }
    ensures typed { IfOk result (λ t. named_type t ≡ Some bool_type) }
{
    let left = Term::application_to(alloc, x.left, y.left, range)?;
    let right = Term::application_to(alloc, x.right, y.right, range)?;
    basis.equation(alloc, range, &left, &right)
}

// The equation of the abstractions of the sides.
fn abstracted(alloc: Global, basis: &Basis, v: &Variable, x: Sides<'_>) -> Result<Term, AllocError>
    requires left { named_type x.left.now ≡ Some x.ty.now }
    requires right { named_type x.right.now ≡ Some x.ty.now }
    ensures is { IfOk result (λ t. t ≡ mk_eq (fun_type v.now.1 x.entry.ty.now) (abs v.now x.entry.left.now) (abs v.now x.entry.right.now)) }
    ensures typed { IfOk result (λ t. named_type t ≡ Some bool_type) }
{
    let left = Term::abstraction(alloc, v, x.left)?;
    let right = Term::abstraction(alloc, v, x.right)?;
    basis.equation(alloc, left.type_of(), &left, &right)
}

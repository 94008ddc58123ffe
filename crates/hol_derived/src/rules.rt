//! The rules of the connectives and GEN, for callers that know that they apply, each made at once (bool.ml).
ghost use Rattle.std.specs.Prelude.{◌≡◌, [], true, false, IfOk, IsSome, Some};
ghost use Rattle.std.specs.FinSet as set;
ghost use Rattle.hol_terms.specs.Nameless.{nameless};
ghost use Rattle.hol_subst.specs.Variant.{is_free_in};
ghost use Rattle.hol_formulas.specs.Formula.{negation, truth};
ghost use Rattle.hol_kernel.specs.Sequent.{no_hyps, sequent_of};
ghost use Rattle.hol_terms.specs.Named.{named_type};
ghost use Rattle.hol_formulas.specs.Equation.{bool_type, mk_eq};
ghost use Rattle.hol_formulas.specs.Making.{mk_conj, mk_disj, mk_falsity, mk_imp, mk_neg, mk_truth};
ghost use Rattle.hol_kernel.specs.Theorem.{theorem_on, over};
ghost use Rattle.hol_kernel.specs.Typing.{is_type};
ghost use Rattle.hol_equal.specs.Applied.{rand};
ghost use Rattle.hol_derived.specs.Applied.{generalized, false_of};
ghost use Rattle.hol_derived.specs.Rules.{conj_of, conjunct1_of, conjunct2_of, mp_of, disch_of, undisch_of, not_intro_of, disj1_of, disj2_of, contr_of, gen_of, eqt_intro_of};

use hol_formulas::{dest_conj, dest_imp, dest_neg, mk_forall, mk_truth};
use hol_kernel::{Basis, Thm};
use hol_subst::Hypotheses;
use hol_terms::{Term, TermNode, Variable};
use std::alloc::{AllocError, Global};

/// TRUTH: `T`.
pub fn truth(alloc: Global, basis: &Basis) -> Result<Thm, AllocError>
    ensures { IfOk result (λ th. th ≡ theorem_on basis.now (sequent_of no_hyps truth)) }
{
    let concl = mk_truth(alloc)?;
    Thm::closed(basis, Hypotheses::none(), concl)
}

/// CONJ: from `p` and `q`, `p /\ q`.
pub fn conj(alloc: Global, a: &Thm, b: &Thm) -> Result<Thm, AllocError>
    requires same_basis { a.now.basis ≡ b.now.basis }
    ensures { IfOk result (λ th. th ≡ theorem_on a.now.basis (conj_of a.now.sequent b.now.sequent)) }
{
    a.promise();
    b.promise();
    a.well_typed();
    b.well_typed();
    let concl = mk_conj(alloc, a, a.concl(), b.concl())?;
    let both = a.hypotheses().union(alloc, b.hypotheses())?;
    Thm::closed(a.basis(), both, concl)
}

/// CONJUNCT1: from `p /\ q`, `p`.
pub fn conjunct1(a: &Thm) -> Result<Thm, AllocError>
    requires applies { IsSome (over a.now.basis (conjunct1_of a.now.sequent)) }
    ensures { IfOk result (λ th. over a.now.basis (conjunct1_of a.now.sequent) ≡ Some th) }
{
    a.promise();
    a.well_typed();
    let Some((p, _q)) = dest_conj(a.concl()) else {
        unreachable!()
    };
    let concl = p.copy()?;
    let hyps = a.hypotheses().copy()?;
    Thm::closed(a.basis(), hyps, concl)
}

/// CONJUNCT2: from `p /\ q`, `q`.
pub fn conjunct2(a: &Thm) -> Result<Thm, AllocError>
    requires applies { IsSome (over a.now.basis (conjunct2_of a.now.sequent)) }
    ensures { IfOk result (λ th. over a.now.basis (conjunct2_of a.now.sequent) ≡ Some th) }
{
    a.promise();
    a.well_typed();
    let Some((_p, q)) = dest_conj(a.concl()) else {
        unreachable!()
    };
    let concl = q.copy()?;
    let hyps = a.hypotheses().copy()?;
    Thm::closed(a.basis(), hyps, concl)
}

/// MP: from `p ==> q` and `p'` that is `p` up to bound names, `q`.
pub fn mp(alloc: Global, a: &Thm, b: &Thm) -> Result<Thm, AllocError>
    requires same_basis { a.now.basis ≡ b.now.basis }
    requires applies { IsSome (over a.now.basis (mp_of a.now.sequent b.now.sequent)) }
    ensures { IfOk result (λ th. over a.now.basis (mp_of a.now.sequent b.now.sequent) ≡ Some th) }
{
    a.promise();
    b.promise();
    a.well_typed();
    let Some((_p, q)) = dest_imp(a.concl()) else {
        unreachable!()
    };
    let concl = q.copy()?;
    let hyps = a.hypotheses().union(alloc, b.hypotheses())?;
    Thm::closed(a.basis(), hyps, concl)
}

/// UNDISCH: from `p ==> q`, `q` under the hypothesis `p`.
pub fn undisch(alloc: Global, a: &Thm) -> Result<Thm, AllocError>
    requires applies { IsSome (over a.now.basis (undisch_of a.now.sequent)) }
    ensures { IfOk result (λ th. over a.now.basis (undisch_of a.now.sequent) ≡ Some th) }
{
    a.promise();
    a.well_typed();
    let Some((p, q)) = dest_imp(a.concl()) else {
        unreachable!()
    };
    let concl = q.copy()?;
    let assumed = Hypotheses::one(alloc, p)?;
    let hyps = a.hypotheses().union(alloc, &assumed)?;
    Thm::closed(a.basis(), hyps, concl)
}

/// DISCH: from `q`, `p ==> q` without the hypothesis `p`.
pub fn disch(alloc: Global, p: &Term, a: &Thm) -> Result<Thm, AllocError>
    requires applies { IsSome (over a.now.basis (disch_of a.now.basis (nameless [] p.now) a.now.sequent)) }
    ensures { IfOk result (λ th. over a.now.basis (disch_of a.now.basis (nameless [] p.now) a.now.sequent) ≡ Some th) }
{
    a.promise();
    a.well_typed();
    let _ty = p.type_of();
    let concl = mk_imp(alloc, a, p, a.concl())?;
    let hyps = a.hypotheses().without(alloc, p)?;
    Thm::closed(a.basis(), hyps, concl)
}

/// NOT_INTRO: from `p ==> F`, `~p`.
pub fn not_intro(alloc: Global, a: &Thm) -> Result<Thm, AllocError>
    requires applies { IsSome (over a.now.basis (not_intro_of a.now.sequent)) }
    ensures { IfOk result (λ th. over a.now.basis (not_intro_of a.now.sequent) ≡ Some th) }
{
    a.promise();
    a.well_typed();
    let Some((p, _falsity)) = dest_imp(a.concl()) else {
        unreachable!()
    };
    let concl = mk_neg(alloc, a, p)?;
    let hyps = a.hypotheses().copy()?;
    Thm::closed(a.basis(), hyps, concl)
}

/// EQF_INTRO: from `~p`, `p <=> F`.
pub fn eqf_intro(alloc: Global, a: &Thm) -> Result<Thm, AllocError>
    requires is { a.now.sequent.concl ≡ negation (rand a.now.sequent.concl) }
    ensures { IfOk result (λ th. th ≡ theorem_on a.now.basis (false_of a.now.sequent)) }
{
    a.promise();
    a.well_typed();
    let Some(p) = dest_neg(a.concl()) else {
        unreachable!()
    };
    let concl = mk_refuted(alloc, a.basis(), p)?;
    let hyps = a.hypotheses().copy()?;
    Thm::closed(a.basis(), hyps, concl)
}

/// DISJ1: from `p`, `p \/ q`, for a formula over the basis.
pub fn disj1(alloc: Global, a: &Thm, q: &Term) -> Result<Thm, AllocError>
    requires applies { IsSome (over a.now.basis (disj1_of a.now.basis a.now.sequent (nameless [] q.now))) }
    ensures { IfOk result (λ th. over a.now.basis (disj1_of a.now.basis a.now.sequent (nameless [] q.now)) ≡ Some th) }
{
    a.promise();
    a.well_typed();
    let _ty = q.type_of();
    let concl = mk_disj(alloc, a, a.concl(), q)?;
    let hyps = a.hypotheses().copy()?;
    Thm::closed(a.basis(), hyps, concl)
}

/// DISJ2: from `q`, `p \/ q`, for a formula over the basis.
pub fn disj2(alloc: Global, p: &Term, a: &Thm) -> Result<Thm, AllocError>
    requires applies { IsSome (over a.now.basis (disj2_of a.now.basis (nameless [] p.now) a.now.sequent)) }
    ensures { IfOk result (λ th. over a.now.basis (disj2_of a.now.basis (nameless [] p.now) a.now.sequent) ≡ Some th) }
{
    a.promise();
    a.well_typed();
    let _ty = p.type_of();
    let concl = mk_disj(alloc, a, p, a.concl())?;
    let hyps = a.hypotheses().copy()?;
    Thm::closed(a.basis(), hyps, concl)
}

/// CONTR: from `F`, a formula over the basis.
pub fn contr(p: &Term, a: &Thm) -> Result<Thm, AllocError>
    requires applies { IsSome (over a.now.basis (contr_of a.now.basis (nameless [] p.now) a.now.sequent)) }
    ensures { IfOk result (λ th. over a.now.basis (contr_of a.now.basis (nameless [] p.now) a.now.sequent) ≡ Some th) }
{
    a.promise();
    a.well_typed();
    let _ty = p.type_of();
    let concl = p.copy()?;
    let hyps = a.hypotheses().copy()?;
    Thm::closed(a.basis(), hyps, concl)
}

/// EQT_INTRO: from `p`, `p <=> T`.
pub fn eqt_intro(alloc: Global, a: &Thm) -> Result<Thm, AllocError>
    ensures { IfOk result (λ th. th ≡ theorem_on a.now.basis (eqt_intro_of a.now.sequent)) }
{
    a.promise();
    a.well_typed();
    let concl = mk_proved(alloc, a.basis(), a.concl())?;
    let hyps = a.hypotheses().copy()?;
    Thm::closed(a.basis(), hyps, concl)
}

/// GEN: from `p`, `!v. p`, for a variable of a type over the basis that is free in no hypothesis.
pub fn for_each(alloc: Global, v: &Variable, a: &Thm) -> Result<Thm, AllocError>
    requires stands { is_type a.now.basis v.now.1 ≡ true }
    requires absent { is_free_in (set.items a.now.sequent.hyps) v.now ≡ false }
    ensures { IfOk result (λ th. th ≡ theorem_on a.now.basis (generalized v.now a.now.sequent)) }
{
    a.promise();
    a.well_typed();
    let concl = mk_forall(alloc, v, a.concl())?;
    let same = a.hypotheses().copy()?;
    Thm::closed(a.basis(), same, concl)
}

/// GEN: from `p`, `!v. p`, for a variable that is free in no hypothesis.
pub fn generalize(alloc: Global, v: &Term, a: &Thm) -> Result<Thm, AllocError>
    requires applies { IsSome (over a.now.basis (gen_of a.now.basis v.now a.now.sequent)) }
    ensures { IfOk result (λ th. over a.now.basis (gen_of a.now.basis v.now a.now.sequent) ≡ Some th) }
{
    let TermNode::Var(variable) = v.node() else {
        unreachable!()
    };
    for_each(alloc, variable, a)
}

// `p /\ q`, by the theorem's constants.
fn mk_conj(alloc: Global, th: &Thm, p: &Term, q: &Term) -> Result<Term, AllocError>
    requires first { named_type p.now ≡ Some bool_type }
    requires second { named_type q.now ≡ Some bool_type }
    ensures is { IfOk result (λ t. t ≡ mk_conj p.now q.now) }
    ensures typed { IfOk result (λ t. named_type t ≡ Some bool_type) }
{
    th.basis().connectives(alloc)?.conj(alloc, p, q)
}

// `p \/ q`, by the theorem's constants.
fn mk_disj(alloc: Global, th: &Thm, p: &Term, q: &Term) -> Result<Term, AllocError>
    requires first { named_type p.now ≡ Some bool_type }
    requires second { named_type q.now ≡ Some bool_type }
    ensures is { IfOk result (λ t. t ≡ mk_disj p.now q.now) }
    ensures typed { IfOk result (λ t. named_type t ≡ Some bool_type) }
{
    th.basis().connectives(alloc)?.disj(alloc, p, q)
}

// `p ==> q`, by the theorem's constants.
fn mk_imp(alloc: Global, th: &Thm, p: &Term, q: &Term) -> Result<Term, AllocError>
    requires first { named_type p.now ≡ Some bool_type }
    requires second { named_type q.now ≡ Some bool_type }
    ensures is { IfOk result (λ t. t ≡ mk_imp p.now q.now) }
    ensures typed { IfOk result (λ t. named_type t ≡ Some bool_type) }
{
    th.basis().connectives(alloc)?.imp(alloc, p, q)
}

// `~p`, by the theorem's constants.
fn mk_neg(alloc: Global, th: &Thm, p: &Term) -> Result<Term, AllocError>
    requires { named_type p.now ≡ Some bool_type }
    ensures is { IfOk result (λ t. t ≡ mk_neg p.now) }
    ensures typed { IfOk result (λ t. named_type t ≡ Some bool_type) }
{
    th.basis().connectives(alloc)?.neg(alloc, p)
}

// `p <=> F`.
fn mk_refuted(alloc: Global, basis: &Basis, p: &Term) -> Result<Term, AllocError>
    requires typed { named_type p.now ≡ Some bool_type }
    ensures is { IfOk result (λ t. t ≡ mk_eq bool_type p.now mk_falsity) }
    ensures typed { IfOk result (λ t. named_type t ≡ Some bool_type) }
{
    let connectives = basis.connectives(alloc)?;
    let falsity = connectives.falsity();
    basis.equation(alloc, falsity.type_of(), p, falsity)
}

// `p <=> T`.
fn mk_proved(alloc: Global, basis: &Basis, p: &Term) -> Result<Term, AllocError>
    requires typed { named_type p.now ≡ Some bool_type }
    ensures is { IfOk result (λ t. t ≡ mk_eq bool_type p.now mk_truth) }
    ensures typed { IfOk result (λ t. named_type t ≡ Some bool_type) }
{
    let connectives = basis.connectives(alloc)?;
    let truth = connectives.truth();
    basis.equation(alloc, truth.type_of(), p, truth)
}

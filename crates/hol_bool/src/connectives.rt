//! Rules of the connectives and truth values (bool.ml). The names of bound variables in what they give are those of what they were handed.
ghost use Rattle.std.specs.Prelude.{◌≡◌, IfOk, []};
ghost use Rattle.hol_terms.specs.Nameless.{nameless};
ghost use Rattle.hol_kernel.specs.Theorem.{over};
ghost use Rattle.hol_kernel.specs.Gives.{Gives};
ghost use Rattle.hol_bool.specs.Rules.{conjunct1_of, conjunct2_of, mp_of, disch_of, undisch_of, not_intro_of, disj1_of, disj2_of, disj_cases_of, contr_of, eqf_intro_of};
ghost use Rattle.hol_bool.specs.Refusals.{in_bool};
ghost use Rattle.hol_bool.specs.declared.error.Rule.TheVariants as rule;

use crate::error::{BoolError, Rule};
use hol_derived::applied;
use hol_formulas::{dest_imp, is_conj, is_disj, is_falsity, is_imp, is_neg};
use hol_kernel::Thm;
use hol_terms::Term;
use std::alloc::Global;

/// The rule of the first conjunct (bool.ml, CONJUNCT1): from `p /\ q`, `p`.
///
/// Refused by [`Rule::Conjunct1`] where the theorem is no conjunction.
#[tactic(auto, using(crate::proofs::ConnectiveRules::refusals))]
pub fn conjunct1(a: &Thm) -> Result<Thm, BoolError>
    ensures sequent { Gives in_bool rule.Conjunct1 (over a.now.basis (conjunct1_of a.now.sequent)) result }
    ensures basis { IfOk result (λ th. th.basis ≡ a.now.basis) }
{
    if !is_conj(a.concl()) {
        return Err(BoolError::Refused(Rule::Conjunct1));
    }
    Ok(applied::conjunct1(a)?)
}

/// The rule of the second conjunct (bool.ml, CONJUNCT2): from `p /\ q`, `q`.
///
/// Refused by [`Rule::Conjunct2`] where the theorem is no conjunction.
#[tactic(auto, using(crate::proofs::ConnectiveRules::refusals))]
pub fn conjunct2(a: &Thm) -> Result<Thm, BoolError>
    ensures sequent { Gives in_bool rule.Conjunct2 (over a.now.basis (conjunct2_of a.now.sequent)) result }
    ensures basis { IfOk result (λ th. th.basis ≡ a.now.basis) }
{
    if !is_conj(a.concl()) {
        return Err(BoolError::Refused(Rule::Conjunct2));
    }
    Ok(applied::conjunct2(a)?)
}

/// Modus ponens (bool.ml, MP): from `p ==> q` and `p'` that is `p` up to bound names, `q`.
///
/// Refused by [`Rule::Mp`] where the first theorem is no implication, and where the second is not what it implies from.
#[tactic(auto, using(crate::proofs::ConnectiveRules::refusals))]
pub fn mp(alloc: Global, a: &Thm, b: &Thm) -> Result<Thm, BoolError>
    requires one_basis { a.now.basis ≡ b.now.basis }
    ensures sequent { Gives in_bool rule.Mp (over a.now.basis (mp_of a.now.sequent b.now.sequent)) result }
    ensures basis { IfOk result (λ th. th.basis ≡ a.now.basis) }
{
    let Some((p, _)) = dest_imp(a.concl()) else {
        return Err(BoolError::Refused(Rule::Mp));
    };
    if !p.alpha_equivalent(b.concl()) {
        return Err(BoolError::Refused(Rule::Mp));
    }
    Ok(applied::mp(alloc, a, b)?)
}

/// The rule of discharging (bool.ml, DISCH): from `q`, `p ==> q` without the hypothesis `p`.
///
/// Refused by [`Rule::Disch`] where `p` is not well typed over the prelude and the theorem's basis or not of type `bool`.
#[tactic(auto, using(crate::proofs::ConnectiveRules::refusals))]
pub fn disch(alloc: Global, p: &Term, a: &Thm) -> Result<Thm, BoolError>
    ensures sequent { Gives in_bool rule.Disch (over a.now.basis (disch_of a.now.basis (nameless [] p.now) a.now.sequent)) result }
    ensures basis { IfOk result (λ th. th.basis ≡ a.now.basis) }
{
    if !a.basis().is_formula(alloc, p)? {
        return Err(BoolError::Refused(Rule::Disch));
    }
    Ok(applied::disch(alloc, p, a)?)
}

/// The rule of undischarging (bool.ml, UNDISCH): from `p ==> q`, `q` under the hypothesis `p`.
///
/// Refused by [`Rule::Undisch`] where the theorem is no implication.
#[tactic(auto, using(crate::proofs::ConnectiveRules::refusals))]
pub fn undisch(alloc: Global, a: &Thm) -> Result<Thm, BoolError>
    ensures sequent { Gives in_bool rule.Undisch (over a.now.basis (undisch_of a.now.sequent)) result }
    ensures basis { IfOk result (λ th. th.basis ≡ a.now.basis) }
{
    if !is_imp(a.concl()) {
        return Err(BoolError::Refused(Rule::Undisch));
    }
    Ok(applied::undisch(alloc, a)?)
}

/// The rule of negations (bool.ml, NOT_INTRO): from `p ==> F`, `~p`.
///
/// Refused by [`Rule::NotIntro`] where the theorem is no implication of `F`.
#[tactic(auto, using(crate::proofs::DisjunctionRules::refused))]
pub fn not_intro(alloc: Global, a: &Thm) -> Result<Thm, BoolError>
    ensures sequent { Gives in_bool rule.NotIntro (over a.now.basis (not_intro_of a.now.sequent)) result }
    ensures basis { IfOk result (λ th. th.basis ≡ a.now.basis) }
{
    let Some((_, q)) = dest_imp(a.concl()) else {
        return Err(BoolError::Refused(Rule::NotIntro));
    };
    if !is_falsity(q) {
        return Err(BoolError::Refused(Rule::NotIntro));
    }
    Ok(applied::not_intro(alloc, a)?)
}

/// The rule of the left disjunct (bool.ml, DISJ1): from `p`, `p \/ q`.
///
/// Refused by [`Rule::Disj1`] where `q` is not well typed over the prelude and the theorem's basis or not of type `bool`.
#[tactic(auto, using(crate::proofs::DisjunctionRules::refused))]
pub fn disj1(alloc: Global, a: &Thm, q: &Term) -> Result<Thm, BoolError>
    ensures sequent { Gives in_bool rule.Disj1 (over a.now.basis (disj1_of a.now.basis a.now.sequent (nameless [] q.now))) result }
    ensures basis { IfOk result (λ th. th.basis ≡ a.now.basis) }
{
    if !a.basis().is_formula(alloc, q)? {
        return Err(BoolError::Refused(Rule::Disj1));
    }
    Ok(applied::disj1(alloc, a, q)?)
}

/// The rule of the right disjunct (bool.ml, DISJ2): from `q`, `p \/ q`.
///
/// Refused by [`Rule::Disj2`] where `p` is not well typed over the prelude and the theorem's basis or not of type `bool`.
#[tactic(auto, using(crate::proofs::DisjunctionRules::refused))]
pub fn disj2(alloc: Global, p: &Term, a: &Thm) -> Result<Thm, BoolError>
    ensures sequent { Gives in_bool rule.Disj2 (over a.now.basis (disj2_of a.now.basis (nameless [] p.now) a.now.sequent)) result }
    ensures basis { IfOk result (λ th. th.basis ≡ a.now.basis) }
{
    if !a.basis().is_formula(alloc, p)? {
        return Err(BoolError::Refused(Rule::Disj2));
    }
    Ok(applied::disj2(alloc, p, a)?)
}

/// The rule of cases (bool.ml, DISJ_CASES): from `p \/ q`, `r` and `r'` that is `r` up to bound names, `r` without the hypotheses `p` of the one and `q` of
/// the other.
///
/// Refused by [`Rule::DisjCases`] where the first theorem is no disjunction, and where the others' conclusions differ.
#[tactic(auto, using(crate::proofs::DisjunctionRules::refused))]
pub fn disj_cases(alloc: Global, a: &Thm, b: &Thm, c: &Thm) -> Result<Thm, BoolError>
    requires one_basis { a.now.basis ≡ b.now.basis }
    requires same_basis { a.now.basis ≡ c.now.basis }
    ensures sequent { Gives in_bool rule.DisjCases (over a.now.basis (disj_cases_of a.now.sequent b.now.sequent c.now.sequent)) result }
    ensures basis { IfOk result (λ th. th.basis ≡ a.now.basis) }
{
    if !is_disj(a.concl()) {
        return Err(BoolError::Refused(Rule::DisjCases));
    }
    if !b.concl().alpha_equivalent(c.concl()) {
        return Err(BoolError::Refused(Rule::DisjCases));
    }
    Ok(applied::disj_cases(alloc, a, b, c)?)
}

/// The rule of contradiction (bool.ml, CONTR): from `F`, the formula.
///
/// Refused by [`Rule::Contr`] where the theorem is not `F`, and where `p` is not well typed over the prelude and the theorem's basis or not of type `bool`.
#[tactic(auto, using(crate::proofs::DisjunctionRules::refused))]
pub fn contr(alloc: Global, p: &Term, a: &Thm) -> Result<Thm, BoolError>
    ensures sequent { Gives in_bool rule.Contr (over a.now.basis (contr_of a.now.basis (nameless [] p.now) a.now.sequent)) result }
    ensures basis { IfOk result (λ th. th.basis ≡ a.now.basis) }
{
    if !is_falsity(a.concl()) {
        return Err(BoolError::Refused(Rule::Contr));
    }
    if !a.basis().is_formula(alloc, p)? {
        return Err(BoolError::Refused(Rule::Contr));
    }
    Ok(applied::contr(p, a)?)
}

/// The rule of an equation with falsity (bool.ml, EQF_INTRO): from `~p`, `p <=> F`.
///
/// Refused by [`Rule::EqfIntro`] where the theorem is no negation.
#[tactic(auto, using(crate::proofs::DisjunctionRules::refused))]
pub fn eqf_intro(alloc: Global, a: &Thm) -> Result<Thm, BoolError>
    ensures sequent { Gives in_bool rule.EqfIntro (over a.now.basis (eqf_intro_of a.now.sequent)) result }
    ensures basis { IfOk result (λ th. th.basis ≡ a.now.basis) }
{
    if !is_neg(a.concl()) {
        return Err(BoolError::Refused(Rule::EqfIntro));
    }
    Ok(applied::eqf_intro(alloc, a)?)
}

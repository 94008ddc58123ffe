//! The justifications of the functions on goals.
ghost use Rattle.std.specs.Prelude.{IfOk, []};
ghost use Rattle.hol_terms.specs.Nameless.{nameless};
ghost use Rattle.hol_just.specs.Justifies.{ClosesEquation, ClosesByGiven, ClosesByFalsity, SplitsApplications, LeavesArguments, LeavesFunctions, SplitsEquivalence, SplitsIntoImplications};
ghost use Rattle.hol_just.specs.Justifies.{SplitsConjunction, LeavesLeft, LeavesRight, LeavesConsequent, UnfoldsNegation, LeavesRefutation, TakesOut, SplitsByImplication, LeavesImplication, LeavesAssuming, LeavesFalsity, LeavesProperty, LeavesAtWitness};

use crate::just::Just;
use crate::reason::Reason;
use hol_formulas::occurrence;
use hol_kernel::Given;
use hol_match::conclusion_typed;
use hol_terms::{Term, Variable};
use std::alloc::{AllocError, Global};

impl Just {
    /// That of REFL_TAC, which closes an equation with this left side.
    pub fn refl_tac(alloc: Global, left: &Term) -> Result<Just, AllocError>
        ensures { IfOk result (λ just. ClosesEquation (nameless [] left.now) just) }
    {
        Just::one(alloc, Reason::Reflexivity(left.copy()?))
    }

    /// That of ACCEPT_TAC by this theorem.
    pub fn accept_tac(alloc: Global, th: &Given) -> Result<Just, AllocError>
        ensures { IfOk result (λ just. ClosesByGiven th.now just) }
    {
        Just::one(alloc, Reason::Premise(th.copy()?))
    }

    /// That of MK_COMB_TAC.
    pub fn mk_comb_tac(alloc: Global) -> Result<Just, AllocError>
        ensures { IfOk result (λ just. SplitsApplications just) }
    {
        Just::one(alloc, Reason::Combination)
    }

    /// That of AP_TERM_TAC, where both sides apply this function: AP_TERM is MK_COMB of its reflexivity.
    pub fn ap_term_tac(alloc: Global, function: &Term) -> Result<Just, AllocError>
        ensures { IfOk result (λ just. LeavesArguments (nameless [] function.now) just) }
    {
        let closing = Just::refl_tac(alloc, function)?;
        let just = Just::mk_comb_tac(alloc)?;
        just.joined(0, closing)
    }

    /// That of AP_THM_TAC, where both sides are functions of this argument: AP_THM is MK_COMB of its reflexivity.
    pub fn ap_thm_tac(alloc: Global, argument: &Term) -> Result<Just, AllocError>
        ensures { IfOk result (λ just. LeavesFunctions (nameless [] argument.now) just) }
    {
        let closing = Just::refl_tac(alloc, argument)?;
        let just = Just::mk_comb_tac(alloc)?;
        just.joined(1, closing)
    }

    /// That of leaving `q`, with `p` assumed, and `p`, with `q` assumed, of `p <=> q`.
    pub fn deduct_antisym(alloc: Global) -> Result<Just, AllocError>
        ensures { IfOk result (λ just. SplitsEquivalence just) }
    {
        Just::one(alloc, Reason::Antisymmetry)
    }

    /// That of EQ_TAC: of `p <=> q` both directions are left, and of each what it assumes is taken out.
    pub fn eq_tac(alloc: Global) -> Result<Just, AllocError>
        ensures { IfOk result (λ just. SplitsIntoImplications just) }
    {
        let taking = Just::undisch_tac(alloc)?;
        let mut just = Just::deduct_antisym(alloc)?;
        just.then_at(0, &taking)?;
        just.then_at(1, &taking)?;
        Ok(just)
    }

    /// That of CONJ_TAC.
    pub fn conj_tac(alloc: Global) -> Result<Just, AllocError>
        ensures { IfOk result (λ just. SplitsConjunction just) }
    {
        Just::one(alloc, Reason::Conjunction)
    }

    /// That of DISJ1_TAC, where this is on the right.
    pub fn disj1_tac(alloc: Global, right: &Term) -> Result<Just, AllocError>
        ensures { IfOk result (λ just. LeavesLeft (nameless [] right.now) just) }
    {
        Just::one(alloc, Reason::LeftDisjunct(right.copy()?))
    }

    /// That of DISJ2_TAC, where this is on the left.
    pub fn disj2_tac(alloc: Global, left: &Term) -> Result<Just, AllocError>
        ensures { IfOk result (λ just. LeavesRight (nameless [] left.now) just) }
    {
        Just::one(alloc, Reason::RightDisjunct(left.copy()?))
    }

    /// That of DISCH_TAC on an implication from this term.
    pub fn disch_tac(alloc: Global, antecedent: &Term) -> Result<Just, AllocError>
        ensures { IfOk result (λ just. LeavesConsequent (nameless [] antecedent.now) just) }
    {
        Just::one(alloc, Reason::Discharge(antecedent.copy()?))
    }

    /// That of leaving `p ==> F` of `~p`.
    pub fn not_intro(alloc: Global) -> Result<Just, AllocError>
        ensures { IfOk result (λ just. UnfoldsNegation just) }
    {
        Just::one(alloc, Reason::Negation)
    }

    /// That of DISCH_TAC on a negation of this term: `p ==> F` is left, and of that what it assumes.
    pub fn disch_neg_tac(alloc: Global, denied: &Term) -> Result<Just, AllocError>
        ensures { IfOk result (λ just. LeavesRefutation (nameless [] denied.now) just) }
    {
        let assuming = Just::disch_tac(alloc, denied)?;
        let just = Just::not_intro(alloc)?;
        just.joined(0, assuming)
    }

    /// That of UNDISCH_TAC.
    pub fn undisch_tac(alloc: Global) -> Result<Just, AllocError>
        ensures { IfOk result (λ just. TakesOut just) }
    {
        Just::one(alloc, Reason::Undischarge)
    }

    /// That of leaving `p ==> q` and `p` of `q`.
    pub fn mp(alloc: Global) -> Result<Just, AllocError>
        ensures { IfOk result (λ just. SplitsByImplication just) }
    {
        Just::one(alloc, Reason::ModusPonens)
    }

    /// That of MP_TAC by this theorem.
    pub fn mp_tac(alloc: Global, th: &Given) -> Result<Just, AllocError>
        ensures { IfOk result (λ just. LeavesImplication th.now just) }
    {
        conclusion_typed(th);
        let closing = Just::accept_tac(alloc, th)?;
        let just = Just::mp(alloc)?;
        just.joined(1, closing)
    }

    /// That of ASSUME_TAC by this theorem: MP_TAC leaves an implication from it, and of that what it assumes.
    pub fn assume_tac(alloc: Global, th: &Given) -> Result<Just, AllocError>
        ensures { IfOk result (λ just. LeavesAssuming th.now just) }
    {
        let assuming = Just::disch_tac(alloc, th.concl())?;
        let just = Just::mp_tac(alloc, th)?;
        just.joined(0, assuming)
    }

    /// That of leaving `F` of this formula.
    pub fn contr(alloc: Global, formula: &Term) -> Result<Just, AllocError>
        ensures { IfOk result (λ just. LeavesFalsity (nameless [] formula.now) just) }
    {
        Just::one(alloc, Reason::Contradiction(formula.copy()?))
    }

    /// That of CONTR_TAC by this theorem, where this is the conclusion.
    pub fn contr_tac(alloc: Global, conclusion: &Term, th: &Given) -> Result<Just, AllocError>
        ensures { IfOk result (λ just. ClosesByFalsity (nameless [] conclusion.now) th.now just) }
    {
        let closing = Just::accept_tac(alloc, th)?;
        let just = Just::contr(alloc, conclusion)?;
        just.joined(0, closing)
    }

    /// That of GEN_TAC and X_GEN_TAC, which leave the property at this variable.
    pub fn gen_tac(alloc: Global, v: &Variable) -> Result<Just, AllocError>
        ensures { IfOk result (λ just. LeavesProperty v.now just) }
    {
        let variable = occurrence(alloc, v)?;
        Just::one(alloc, Reason::Generalization(variable))
    }

    /// That of EXISTS_TAC, where this is the conclusion, at the witness.
    pub fn exists_tac(alloc: Global, conclusion: &Term, witness: &Term) -> Result<Just, AllocError>
        ensures { IfOk result (λ just. LeavesAtWitness (nameless [] conclusion.now) (nameless [] witness.now) just) }
    {
        let formula = conclusion.copy()?;
        Just::one(alloc, Reason::Existence(formula, witness.copy()?))
    }
}

//! The justifications of the functions on goals that take a theorem apart.
ghost use Rattle.std.specs.Prelude.{IfOk, ℕ, List, []};
ghost use Rattle.hol_types.specs.Tree.{TypeTree};
ghost use Rattle.hol_terms.specs.Nameless.{nameless};
ghost use Rattle.hol_just.specs.Justifies.{CutsBy, SplitsByCases, LeavesCases, LeavesConjunctionRight, LeavesConjunctionLeft, ClosesByLeft, ClosesByRight, LeavesConjuncts};
ghost use Rattle.hol_just.specs.Justifies.{TurnsEquation, SplitsByEquation, LeavesReplaced, LeavesGeneralized, SplitsByExistence, LeavesChosen};

use crate::just::Just;
use crate::reason::Reason;
use hol_formulas::occurrence;
use hol_kernel::Given;
use hol_match::conclusion_typed;
use hol_terms::{Term, Variable};
use std::alloc::{AllocError, Global};

impl Just {
    /// That of leaving `p`, and `q` with `p` assumed, of `q`: a cut.
    pub fn prove_hyp(alloc: Global) -> Result<Just, AllocError>
        ensures { IfOk result (λ just. CutsBy just) }
    {
        Just::one(alloc, Reason::Cut)
    }

    /// That of leaving `p /\ q` of `p`.
    pub fn conjunct1(alloc: Global) -> Result<Just, AllocError>
        ensures { IfOk result (λ just. LeavesConjunctionRight just) }
    {
        Just::one(alloc, Reason::LeftConjunct)
    }

    /// That of leaving `p /\ q` of `q`.
    pub fn conjunct2(alloc: Global) -> Result<Just, AllocError>
        ensures { IfOk result (λ just. LeavesConjunctionLeft just) }
    {
        Just::one(alloc, Reason::RightConjunct)
    }

    // That of closing `p` by this theorem `p /\ q`.
    fn left_of(alloc: Global, th: &Given) -> Result<Just, AllocError>
        ensures { IfOk result (λ just. ClosesByLeft th.now just) }
    {
        conclusion_typed(th);
        let closing = Just::accept_tac(alloc, th)?;
        let just = Just::conjunct1(alloc)?;
        just.joined(0, closing)
    }

    // That of closing `q` by this theorem `p /\ q`.
    fn right_of(alloc: Global, th: &Given) -> Result<Just, AllocError>
        ensures { IfOk result (λ just. ClosesByRight th.now just) }
    {
        conclusion_typed(th);
        let closing = Just::accept_tac(alloc, th)?;
        let just = Just::conjunct2(alloc)?;
        just.joined(0, closing)
    }

    /// That of leaving `r` with `q` and `p` assumed, of `r`, by this theorem `p /\ q`.
    pub fn conjuncts(alloc: Global, th: &Given) -> Result<Just, AllocError>
        ensures { IfOk result (λ just. LeavesConjuncts th.now just) }
    {
        conclusion_typed(th);
        let left = Just::left_of(alloc, th)?;
        let just = Just::prove_hyp(alloc)?;
        let just = just.joined(0, left)?;
        let cutting = Just::prove_hyp(alloc)?;
        let just = just.joined(0, cutting)?;
        let right = Just::right_of(alloc, th)?;
        just.joined(0, right)
    }

    /// That of leaving `p \/ q`, `r` with `p` assumed, and `r` with `q` assumed, of `r`.
    pub fn disj_cases(alloc: Global) -> Result<Just, AllocError>
        ensures { IfOk result (λ just. SplitsByCases just) }
    {
        Just::one(alloc, Reason::Cases)
    }

    /// That of DISJ_CASES_TAC by this theorem.
    pub fn disj_cases_tac(alloc: Global, th: &Given) -> Result<Just, AllocError>
        ensures { IfOk result (λ just. LeavesCases th.now just) }
    {
        conclusion_typed(th);
        let closing = Just::accept_tac(alloc, th)?;
        let just = Just::disj_cases(alloc)?;
        just.joined(0, closing)
    }

    /// That of leaving `t = s` of `s = t`.
    pub fn sym(alloc: Global) -> Result<Just, AllocError>
        ensures { IfOk result (λ just. TurnsEquation just) }
    {
        Just::one(alloc, Reason::Symmetry)
    }

    /// That of leaving `t = s`, and `p` with `t` for each `s`, of `p`, where the template is `p` with the variable for each `s`.
    pub fn subst(alloc: Global, v: &Variable, template: &Term) -> Result<Just, AllocError>
        ensures { IfOk result (λ just. SplitsByEquation v.now (nameless [] template.now) just) }
    {
        let variable = occurrence(alloc, v)?;
        Just::one(alloc, Reason::Replacement(variable, template.copy()?))
    }

    /// That of SUBST1_TAC by this theorem `s = t`, where the template is the conclusion with the variable for each `s`.
    pub fn subst1_tac(
        alloc: Global,
        v: &Variable,
        template: &Term,
        th: &Given,
    ) -> Result<Just, AllocError>
        ensures { IfOk result (λ just. LeavesReplaced v.now (nameless [] template.now) th.now just) }
    {
        conclusion_typed(th);
        let turning = Just::sym(alloc)?;
        let closing = Just::accept_tac(alloc, th)?;
        let mut just = Just::subst(alloc, v, template)?;
        just.then_at(0, &turning)?;
        just.then_at(0, &closing)?;
        Ok(just)
    }

    /// That of SPEC_TAC on this term.
    pub fn spec_tac(alloc: Global, t: &Term) -> Result<Just, AllocError>
        ensures { IfOk result (λ just. (v : List ℕ × TypeTree) → LeavesGeneralized (nameless [] t.now) v just) }
    {
        Just::one(alloc, Reason::Specialization(t.copy()?))
    }

    /// That of leaving `?x. p`, and `q` with `p` at this variable assumed, of `q`.
    pub fn choose(alloc: Global, v: &Variable) -> Result<Just, AllocError>
        ensures { IfOk result (λ just. SplitsByExistence v.now just) }
    {
        let variable = occurrence(alloc, v)?;
        Just::one(alloc, Reason::Choice(variable))
    }

    /// That of CHOOSE_TAC and X_CHOOSE_TAC by this theorem, at this variable.
    pub fn choose_tac(alloc: Global, v: &Variable, th: &Given) -> Result<Just, AllocError>
        ensures { IfOk result (λ just. LeavesChosen v.now th.now just) }
    {
        conclusion_typed(th);
        let closing = Just::accept_tac(alloc, th)?;
        let just = Just::choose(alloc, v)?;
        just.joined(0, closing)
    }
}

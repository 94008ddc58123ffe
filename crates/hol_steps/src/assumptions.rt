//! Steps that take assumptions out.
ghost use Rattle.std.specs.Prelude.{◌≡◌, ◌∷◌, map, IfOk, IfSome, MatchOption, Some, None, []};
ghost use Rattle.hol_terms.specs.Named.{named_type};
ghost use Rattle.hol_terms.specs.Nameless.{nameless};
ghost use Rattle.hol_formulas.specs.Equation.{bool_type};
ghost use Rattle.hol_formulas.specs.Formula.{implication};
ghost use Rattle.hol_goal.specs.Formulas.{AreFormulas};
ghost use Rattle.hol_just.specs.ConnectiveTacs.{taken_out};
ghost use Rattle.hol_just.specs.Justifies.{TakesOut};

use crate::steps::leaving_one;
use hol_formulas::mk_imp;
use hol_goal::Goal;
use hol_just::{Just, Step};
use hol_terms::{Term, add_copies};
use std::alloc::{AllocError, Global};

/// The step to the implication from the assumption.
pub fn undisch_step(
    alloc: Global,
    goal: &Goal,
    p: &Term,
    rest: Vec<Term>,
) -> Result<Step, AllocError>
    requires formula { named_type p.now ≡ Some bool_type }
    requires formulas { AreFormulas rest.items }
    ensures goals { IfOk result (λ step. step.goals.items ≡ record { assumptions = map (nameless []) rest.items; conclusion = implication (nameless [] p.now) goal.now.conclusion } ∷ []) }
    ensures just { IfOk result (λ step. TakesOut step.just) }
{
    let conclusion = mk_imp(alloc, p, goal.conclusion())?;
    let left = Goal::new(alloc, rest, conclusion)?;
    let just = Just::undisch_tac(alloc)?;
    leaving_one(alloc, left, just)
}

/// The first of the terms that is this one up to bound names, and the others.
#[tactic(auto, using(crate::proofs::AssumptionLaws::searches))]
pub fn take_out(
    alloc: Global,
    terms: &[Term],
    t: &Term,
) -> Result<Option<(Term, Vec<Term>)>, AllocError>
    requires { AreFormulas terms.now }
    ensures taken { IfOk result (λ o. MatchOption o (taken_out (nameless [] t.now) (map (nameless []) terms.now) ≡ None) (λ x. taken_out (nameless [] t.now) (map (nameless []) terms.now) ≡ Some (nameless [] x.0, map (nameless []) x.1.items))) }
    ensures formula { IfOk result (λ o. IfSome o (λ x. named_type x.0 ≡ Some bool_type)) }
    ensures formulas { IfOk result (λ o. IfSome o (λ x. AreFormulas x.1.items)) }
{
    let mut newer = Vec::new(alloc);
    let mut left = terms;
    'search: while let Some((p, older)) = left.split_first() {
        if p.alpha_equivalent(t) {
            add_copies(&mut newer, older)?;
            return Ok(Some((p.copy()?, newer)));
        }
        newer.push(p.copy()?)?;
        left = older;
    }
    Ok(None)
}

//! The functions that strip.
ghost use Rattle.std.specs.Prelude.{◌≡◌, ◌∷◌, map, IfOk, Some, []};
ghost use Rattle.hol_terms.specs.Named.{named_type};
ghost use Rattle.hol_terms.specs.Nameless.{nameless};
ghost use Rattle.hol_formulas.specs.Equation.{bool_type};
ghost use Rattle.hol_formulas.specs.Formula.{falsity, dest_imp, dest_neg};
ghost use Rattle.hol_kernel.specs.Given.{given_sequent};
ghost use Rattle.hol_goal.specs.Arguments.{Nothing, Theorem};
ghost use Rattle.hol_goal.specs.ArgumentsView.{args_value};
ghost use Rattle.hol_goal.specs.declared.tac_code.TacCode.TheVariants as code;
ghost use Rattle.hol_just.specs.Leaving.{concluding, theorem_terms};
ghost use Rattle.hol_goal.specs.Answer.{starting};
ghost use Rattle.hol_just.specs.Strip.{avoiding, waiting, strip};
ghost use Rattle.hol_just.specs.Answering.{AnswersCode, IsJustified};
ghost use Rattle.hol_steps.specs.Fresh.{AreAlike};
ghost use Rattle.hol_steps.specs.Stripping.{IsStripped};

use crate::connectives::conj_tac;
use crate::quantifiers::gen_tac;
use hol_formulas::{dest_imp, dest_neg, is_conj, is_forall, mk_falsity};
use hol_goal::{Goal, Names, TacArgs};
use hol_just::{Just, TacFault, Tried};
use hol_kernel::Given;
use hol_steps::{Waiting, strip};
use hol_terms::{Term, add_copies};
use std::alloc::{AllocError, Global};

/// STRIP_ASSUME_TAC assumes the parts of a theorem.
pub fn strip_assume_tac(
    alloc: Global,
    args: &TacArgs,
    goal: &Goal,
    names: &Names,
    turns: u32,
) -> Result<Tried, TacFault>
    ensures answer { AnswersCode code.StripAssumeTac (args_value args.now) goal.now names.now turns result }
    ensures valid { IfOk result (λ tried. IsJustified (args_value args.now) goal.now tried.step) }
{
    let TacArgs::Theorem(th) = args else {
        return Err(TacFault::Refused(turns, Vec::new(alloc)));
    };
    strip_theorem(alloc, th, goal, names, turns)
}

// Assumes the parts of the theorem.
fn strip_theorem(
    alloc: Global,
    th: &Given,
    goal: &Goal,
    names: &Names,
    turns: u32,
) -> Result<Tried, TacFault>
    ensures answer { IsStripped (strip (avoiding (theorem_terms th.now) names.now) (waiting ((given_sequent th.now).concl ∷ []) goal.now) (starting turns)) result }
    ensures valid { IfOk result (λ tried. IsJustified (Theorem th.now) goal.now tried.step) }
{
    let before = Just::assume_tac(alloc, th)?;
    let others = theorem_terms(alloc, th)?;
    let first = Waiting::one(alloc, th.concl(), goal.copy()?)?;
    strip(alloc, &others, names, before, first, turns)
}

// Copies of all terms of the theorem.
fn theorem_terms(alloc: Global, th: &Given) -> Result<Vec<Term>, AllocError>
    ensures { IfOk result (λ terms. AreAlike (map (nameless []) terms.items) (theorem_terms th.now)) }
{
    let mut terms = Vec::new(alloc);
    terms.push(th.concl().copy()?)?;
    add_copies(&mut terms, th.hyps())?;
    Ok(terms)
}

/// STRIP_TAC is GEN_TAC, or CONJ_TAC, or assumes the parts of `p`, of `p ==> q`, which leaves `q`, and of `~p`, which leaves `F`.
pub fn strip_tac(
    alloc: Global,
    args: &TacArgs,
    goal: &Goal,
    names: &Names,
    turns: u32,
) -> Result<Tried, TacFault>
    ensures answer { AnswersCode code.StripTac (args_value args.now) goal.now names.now turns result }
    ensures valid { IfOk result (λ tried. IsJustified (args_value args.now) goal.now tried.step) }
{
    if is_forall(goal.conclusion()) {
        return gen_tac(alloc, args, goal, names, turns);
    }
    if is_conj(goal.conclusion()) {
        return conj_tac(alloc, args, goal, names, turns);
    }
    let TacArgs::Nothing = args else {
        return Err(TacFault::Refused(turns, Vec::new(alloc)));
    };
    if let Some((p, q)) = dest_imp(goal.conclusion()) {
        return strip_imp(alloc, goal, names, p, q, turns);
    }
    if let Some(p) = dest_neg(goal.conclusion()) {
        return strip_neg(alloc, goal, names, p, turns);
    }
    Err(TacFault::Refused(turns, Vec::new(alloc)))
}

// Assumes the parts of the antecedent.
fn strip_imp(
    alloc: Global,
    goal: &Goal,
    names: &Names,
    p: &Term,
    q: &Term,
    turns: u32,
) -> Result<Tried, TacFault>
    requires antecedent { named_type p.now ≡ Some bool_type }
    requires consequent { named_type q.now ≡ Some bool_type }
    requires parts { dest_imp goal.now.conclusion ≡ Some (nameless [] p.now, nameless [] q.now) }
    ensures answer { IsStripped (strip (avoiding [] names.now) (waiting (nameless [] p.now ∷ []) (concluding goal.now (nameless [] q.now))) (starting turns)) result }
    ensures valid { IfOk result (λ tried. IsJustified Nothing goal.now tried.step) }
{
    let before = Just::disch_tac(alloc, p)?;
    let left = goal.with_conclusion(alloc, q)?;
    let first = Waiting::one(alloc, p, left)?;
    strip(alloc, &[], names, before, first, turns)
}

// Assumes the parts of what is denied.
fn strip_neg(
    alloc: Global,
    goal: &Goal,
    names: &Names,
    p: &Term,
    turns: u32,
) -> Result<Tried, TacFault>
    requires denied { named_type p.now ≡ Some bool_type }
    requires parts { dest_neg goal.now.conclusion ≡ Some (nameless [] p.now) }
    ensures answer { IsStripped (strip (avoiding [] names.now) (waiting (nameless [] p.now ∷ []) (concluding goal.now falsity)) (starting turns)) result }
    ensures valid { IfOk result (λ tried. IsJustified Nothing goal.now tried.step) }
{
    let before = Just::disch_neg_tac(alloc, p)?;
    let left = goal.with_conclusion(alloc, &mk_falsity(alloc)?)?;
    let first = Waiting::one(alloc, p, left)?;
    strip(alloc, &[], names, before, first, turns)
}

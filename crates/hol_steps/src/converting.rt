//! Steps that convert the conclusion.
ghost use Rattle.std.specs.Prelude.{◌≡◌, ◌∷◌, ℕ, Bool, List, IfOk, Some, []};
ghost use Rattle.hol_terms.specs.Named.{named_type};
ghost use Rattle.hol_terms.specs.Nameless.{nameless};
ghost use Rattle.hol_formulas.specs.Equation.{bool_type};
ghost use Rattle.hol_kernel.specs.Given.{Given};
ghost use Rattle.hol_kernel.specs.Items.{Items};
ghost use Rattle.hol_kernel.specs.Sequent.{Hyps};
ghost use Rattle.hol_match.specs.SetView.{AreGivenIn};
ghost use Rattle.hol_conv.specs.Turns.{Outcome};
ghost use Rattle.hol_conv.specs.Outcomes.{Tells};
ghost use Rattle.hol_goal.specs.Answer.{starting};
ghost use Rattle.hol_just.specs.Leaving.{concluding};
ghost use Rattle.hol_just.specs.ConversionTacs.{left_with, converted};
ghost use Rattle.hol_just.specs.Valid.{IsValid};
ghost use Rattle.hol_just.specs.Answering.{IsAnswered};
ghost use Rattle.hol_steps.specs.Converting.{IsConversion, LeadsBy};

use crate::steps::{closing, leaving_one};
use hol_conv::{ConvError, Rewritten};
use hol_formulas::is_truth;
use hol_goal::Goal;
use hol_just::{Just, Step, TacFault, Tried, conversion_typed};
use hol_terms::Term;
use std::alloc::{AllocError, Global};

/// The answer where turns come to this outcome on the conclusion.
pub fn converted(
    alloc: Global,
    goal: &Goal,
    outcome: Result<Rewritten, ConvError>,
) -> Result<Tried, TacFault>
    requires { IfOk outcome (λ r. IsConversion goal.now.conclusion r) }
    ensures answer { (o : Outcome) (turns : ℕ) → Tells outcome o → IsAnswered (converted (Some o) goal.now (starting turns)) result }
    ensures valid { (givens : List Given) → IfOk outcome (λ r. AreGivenIn givens r.trace.used) → IfOk result (λ tried. LeadsBy goal.now givens tried.step) }
{
    match outcome {
        Ok(rewritten) => Ok(converted_to(alloc, goal, rewritten)?),
        Err(ConvError::Limit) => Err(TacFault::TurnLimit(Vec::new(alloc))),
        Err(ConvError::TooLarge) => Err(TacFault::TooLarge(Vec::new(alloc))),
        Err(ConvError::Memory) => Err(TacFault::Memory),
    }
}

// What is left of the goal, where turns make this of the conclusion.
fn converted_to(alloc: Global, goal: &Goal, rewritten: Rewritten) -> Result<Tried, AllocError>
    requires { IsConversion goal.now.conclusion rewritten }
    ensures goals { IfOk result (λ tried. tried.step.goals.items ≡ left_with goal.now (nameless [] rewritten.term)) }
    ensures left { IfOk result (λ tried. tried.left ≡ rewritten.left) }
    ensures tested { IfOk result (λ tried. tried.tested.items ≡ []) }
    ensures valid { IfOk result (λ tried. LeadsBy goal.now rewritten.trace.used tried.step) }
{
    let _conclusion = goal.conclusion();
    conversion_typed(&rewritten.trace);
    let just = Just::conversion(alloc, &rewritten.trace)?;
    let step = converted_step(alloc, goal, &rewritten.term, just)?;
    Ok(Tried {
        step,
        left: rewritten.left,
        tested: Vec::new(alloc),
    })
}

// The step to the goal with this conclusion, to which the moves lead. Where that is `T` the goal is closed.
fn converted_step(alloc: Global, goal: &Goal, u: &Term, before: Just) -> Result<Step, AllocError>
    requires { named_type u.now ≡ Some bool_type }
    ensures goals { IfOk result (λ step. step.goals.items ≡ left_with goal.now (nameless [] u.now)) }
    ensures just { IfOk result (λ step. (suits : Items → Bool) (extra : Hyps) → IsValid suits extra before (goal.now ∷ []) (concluding goal.now (nameless [] u.now) ∷ []) → IsValid suits extra step.just (goal.now ∷ []) (left_with goal.now (nameless [] u.now))) }
{
    let mut just = before;
    if is_truth(u) {
        let closes = Just::truth(alloc)?;
        just.then_at(0, &closes)?;
        return Ok(closing(alloc, just));
    }
    let left = goal.with_conclusion(alloc, u)?;
    leaving_one(alloc, left, just)
}

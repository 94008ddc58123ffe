//! Parts of runs that hand a theorem over.
ghost use Rattle.std.specs.Prelude.{◌≡◌, ◌++◌, ◌∷◌, Some, [], IfOk};
ghost use Rattle.hol_terms.specs.Named.{named_type};
ghost use Rattle.hol_terms.specs.Nameless.{nameless};
ghost use Rattle.hol_formulas.specs.Equation.{bool_type};
ghost use Rattle.hol_goal.specs.ArgumentsView.{args_value};
ghost use Rattle.hol_just.specs.Gives.{moved};
ghost use Rattle.hol_combine.specs.ExprView.{call_value, theorem_tac_value};
ghost use Rattle.hol_combine.specs.Runs.{handed_args, handed};
ghost use Rattle.hol_combine.specs.RunView.{used_by};
ghost use Rattle.hol_combine.specs.Going.{FollowsCut};

use crate::expr::{TacCall, TheoremTac};
use crate::ran::Ran;
use hol_goal::{Goal, TacArgs};
use hol_just::{Just, Step, assumption};
use hol_terms::Term;
use std::alloc::{AllocError, Global};

/// The call of the function with the theorem `{p} |- p`.
pub(crate) fn handed(alloc: Global, tac: &TheoremTac, p: &Term) -> Result<TacCall, AllocError>
    requires { named_type p.now ≡ Some bool_type }
    ensures { IfOk result (λ call. call_value call ≡ handed (theorem_tac_value tac.now) (nameless [] p.now)) }
{
    let name = String::from_str(alloc, tac.name.as_str())?;
    let args = handed_args(tac, p)?;
    Ok(TacCall {
        index: tac.index,
        name,
        args,
    })
}

// Its arguments: what is written, and the theorem `{p} |- p`.
fn handed_args(tac: &TheoremTac, p: &Term) -> Result<TacArgs, AllocError>
    requires { named_type p.now ≡ Some bool_type }
    ensures { IfOk result (λ args. args_value args ≡ handed_args (theorem_tac_value tac.now).term (nameless [] p.now)) }
{
    let th = assumption(p)?;
    match &tac.term {
        None => Ok(TacArgs::Theorem(th)),
        Some(t) => Ok(TacArgs::TermAndTheorem(t.copy()?, th)),
    }
}

/// What was done, after these moves.
pub(crate) fn after(just: Just, ran: Ran) -> Result<Ran, AllocError>
    ensures goals { IfOk result (λ new. new.step.goals.items ≡ ran.step.goals.items) }
    ensures just { IfOk result (λ new. new.step.just ≡ just ++ moved 0 ran.step.just) }
    ensures used { IfOk result (λ new. used_by new ≡ used_by ran) }
{
    let Ran { step, left, tested } = ran;
    let mut just = just;
    just.then_at(0, &step.just)?;
    Ok(Ran {
        step: Step {
            goals: step.goals,
            just,
        },
        left,
        tested,
    })
}

/// What was done, after a cut that left this goal.
pub(crate) fn after_cut(alloc: Global, first: Goal, ran: Ran) -> Result<Ran, AllocError>
    ensures goals { IfOk result (λ new. new.step.goals.items ≡ first ∷ ran.step.goals.items) }
    ensures just { IfOk result (λ new. FollowsCut ran.step.just new.step.just) }
    ensures used { IfOk result (λ new. used_by new ≡ used_by ran) }
{
    let Ran { step, left, tested } = ran;
    let mut goals = step.goals;
    goals.insert(0, first)?;
    let mut just = Just::prove_hyp(alloc)?;
    just.then_at(1, &step.just)?;
    Ok(Ran {
        step: Step { goals, just },
        left,
        tested,
    })
}

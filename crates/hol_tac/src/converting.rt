//! The functions that convert the conclusion.
ghost use Rattle.std.specs.Prelude.{IfOk};
ghost use Rattle.hol_goal.specs.ArgumentsView.{args_value};
ghost use Rattle.hol_goal.specs.declared.tac_code.TacCode.TheVariants as code;
ghost use Rattle.hol_just.specs.Answering.{AnswersCode, IsJustified};

use hol_conv::beta_all;
use hol_goal::{Goal, Names, TacArgs};
use hol_just::{TacFault, Tried};
use hol_steps::converted;
use std::alloc::Global;

/// BETA_TAC reduces the redexes of the conclusion, a turn each. Where it becomes `T` the goal is closed.
pub fn beta_tac(
    alloc: Global,
    args: &TacArgs,
    goal: &Goal,
    names: &Names,
    turns: u32,
) -> Result<Tried, TacFault>
    ensures answer { AnswersCode code.BetaTac (args_value args.now) goal.now names.now turns result }
    ensures valid { IfOk result (λ tried. IsJustified (args_value args.now) goal.now tried.step) }
{
    let TacArgs::Nothing = args else {
        return Err(TacFault::Refused(turns, Vec::new(alloc)));
    };
    let outcome = beta_all(alloc, goal.conclusion(), turns);
    converted(alloc, goal, outcome)
}

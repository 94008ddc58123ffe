//! The function that matches the conclusion.
ghost use Rattle.std.specs.Prelude.{IfOk};
ghost use Rattle.hol_goal.specs.ArgumentsView.{args_value};
ghost use Rattle.hol_goal.specs.declared.tac_code.TacCode.TheVariants as code;
ghost use Rattle.hol_just.specs.Answering.{AnswersCode, IsJustified};

use hol_goal::{Goal, Names, TacArgs};
use hol_just::{TacFault, Tried};
use hol_steps::match_mp_step;
use std::alloc::Global;

/// MATCH_MP_TAC leaves what `s` is where `t` is the conclusion, by a theorem `!xs. s ==> t`: that it holds for some values of those of the xs that `t` lacks. Variables that are
/// free in the theorem are matched too, unless a hypothesis has them, and stay where `t` lacks them.
pub fn match_mp_tac(
    alloc: Global,
    args: &TacArgs,
    goal: &Goal,
    names: &Names,
    turns: u32,
) -> Result<Tried, TacFault>
    ensures answer { AnswersCode code.MatchMpTac (args_value args.now) goal.now names.now turns result }
    ensures valid { IfOk result (λ tried. IsJustified (args_value args.now) goal.now tried.step) }
{
    let TacArgs::Theorem(th) = args else {
        return Err(TacFault::Refused(turns, Vec::new(alloc)));
    };
    let Some(step) = match_mp_step(alloc, th, goal)? else {
        return Err(TacFault::Refused(turns, Vec::new(alloc)));
    };
    Ok(Tried {
        step,
        left: turns,
        tested: Vec::new(alloc),
    })
}

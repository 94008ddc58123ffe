//! ALL_TAC and NO_TAC.
ghost use Rattle.std.specs.Prelude.{IfOk};
ghost use Rattle.hol_goal.specs.ArgumentsView.{args_value};
ghost use Rattle.hol_goal.specs.declared.tac_code.TacCode.TheVariants as code;
ghost use Rattle.hol_just.specs.Answering.{AnswersCode, IsJustified};

use hol_goal::{Goal, Names, TacArgs};
use hol_just::{Just, TacFault, Tried};
use hol_steps::leaving_one;
use std::alloc::Global;

/// ALL_TAC leaves the goal as it is.
pub fn all_tac(
    alloc: Global,
    args: &TacArgs,
    goal: &Goal,
    names: &Names,
    turns: u32,
) -> Result<Tried, TacFault>
    ensures answer { AnswersCode code.AllTac (args_value args.now) goal.now names.now turns result }
    ensures valid { IfOk result (λ tried. IsJustified (args_value args.now) goal.now tried.step) }
{
    let TacArgs::Nothing = args else {
        return Err(TacFault::Refused(turns, Vec::new(alloc)));
    };
    let same = goal.copy()?;
    let step = leaving_one(alloc, same, Just::none(alloc))?;
    Ok(Tried {
        step,
        left: turns,
        tested: Vec::new(alloc),
    })
}

/// NO_TAC fits no goal.
pub fn no_tac(
    alloc: Global,
    args: &TacArgs,
    goal: &Goal,
    names: &Names,
    turns: u32,
) -> Result<Tried, TacFault>
    ensures answer { AnswersCode code.NoTac (args_value args.now) goal.now names.now turns result }
    ensures valid { IfOk result (λ tried. IsJustified (args_value args.now) goal.now tried.step) }
{
    Err(TacFault::Refused(turns, Vec::new(alloc)))
}

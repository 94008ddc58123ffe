//! The functions that take assumptions out.
ghost use Rattle.std.specs.Prelude.{IfOk};
ghost use Rattle.hol_goal.specs.ArgumentsView.{args_value};
ghost use Rattle.hol_goal.specs.declared.tac_code.TacCode.TheVariants as code;
ghost use Rattle.hol_just.specs.Answering.{AnswersCode, IsJustified};

use hol_goal::{Goal, Names, TacArgs};
use hol_just::{TacFault, Tried};
use hol_steps::{take_out, undisch_step};
use std::alloc::Global;

/// UNDISCH_TAC takes the newest assumption `p` that is the term out, and leaves `p ==> w` of `w`.
pub fn undisch_tac(
    alloc: Global,
    args: &TacArgs,
    goal: &Goal,
    names: &Names,
    turns: u32,
) -> Result<Tried, TacFault>
    ensures answer { AnswersCode code.UndischTac (args_value args.now) goal.now names.now turns result }
    ensures valid { IfOk result (λ tried. IsJustified (args_value args.now) goal.now tried.step) }
{
    let TacArgs::Term(t) = args else {
        return Err(TacFault::Refused(turns, Vec::new(alloc)));
    };
    let Some((p, rest)) = take_out(alloc, goal.assumptions(), t)? else {
        return Err(TacFault::Refused(turns, Vec::new(alloc)));
    };
    let step = undisch_step(alloc, goal, &p, rest)?;
    Ok(Tried {
        step,
        left: turns,
        tested: Vec::new(alloc),
    })
}

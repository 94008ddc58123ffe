//! The functions on equations.
ghost use Rattle.std.specs.Prelude.{IfOk};
ghost use Rattle.hol_goal.specs.ArgumentsView.{args_value};
ghost use Rattle.hol_goal.specs.declared.tac_code.TacCode.TheVariants as code;
ghost use Rattle.hol_just.specs.Answering.{AnswersCode, IsJustified};

use hol_formulas::{dest_eq, is_bool};
use hol_goal::{Goal, Names, TacArgs};
use hol_just::{Just, TacFault, Tried};
use hol_steps::{closing, eq_step};
use std::alloc::Global;

/// REFL_TAC closes `s = s`.
pub fn refl_tac(
    alloc: Global,
    args: &TacArgs,
    goal: &Goal,
    names: &Names,
    turns: u32,
) -> Result<Tried, TacFault>
    ensures answer { AnswersCode code.ReflTac (args_value args.now) goal.now names.now turns result }
    ensures valid { IfOk result (λ tried. IsJustified (args_value args.now) goal.now tried.step) }
{
    let TacArgs::Nothing = args else {
        return Err(TacFault::Refused(turns, Vec::new(alloc)));
    };
    let Some(sides) = dest_eq(goal.conclusion()) else {
        return Err(TacFault::Refused(turns, Vec::new(alloc)));
    };
    if !sides.left.alpha_equivalent(sides.right) {
        return Err(TacFault::Refused(turns, Vec::new(alloc)));
    }
    let just = Just::refl_tac(alloc, sides.left)?;
    Ok(Tried {
        step: closing(alloc, just),
        left: turns,
        tested: Vec::new(alloc),
    })
}

/// EQ_TAC leaves `p ==> q` and `q ==> p` of `p <=> q`.
pub fn eq_tac(
    alloc: Global,
    args: &TacArgs,
    goal: &Goal,
    names: &Names,
    turns: u32,
) -> Result<Tried, TacFault>
    ensures answer { AnswersCode code.EqTac (args_value args.now) goal.now names.now turns result }
    ensures valid { IfOk result (λ tried. IsJustified (args_value args.now) goal.now tried.step) }
{
    let TacArgs::Nothing = args else {
        return Err(TacFault::Refused(turns, Vec::new(alloc)));
    };
    let Some(sides) = dest_eq(goal.conclusion()) else {
        return Err(TacFault::Refused(turns, Vec::new(alloc)));
    };
    if !is_bool(sides.ty) {
        return Err(TacFault::Refused(turns, Vec::new(alloc)));
    }
    let step = eq_step(alloc, goal, sides.left, sides.right)?;
    Ok(Tried {
        step,
        left: turns,
        tested: Vec::new(alloc),
    })
}

//! The functions on equations of applications.
ghost use Rattle.std.specs.Prelude.{IfOk};
ghost use Rattle.hol_goal.specs.ArgumentsView.{args_value};
ghost use Rattle.hol_goal.specs.declared.tac_code.TacCode.TheVariants as code;
ghost use Rattle.hol_just.specs.Answering.{AnswersCode, IsJustified};

use hol_goal::{Goal, Names, TacArgs};
use hol_just::{TacFault, Tried};
use hol_steps::{ap_term_step, ap_thm_step, dest_applications, mk_comb_step};
use std::alloc::Global;

/// AP_TERM_TAC leaves `x = y` of `f x = f y`.
pub fn ap_term_tac(
    alloc: Global,
    args: &TacArgs,
    goal: &Goal,
    names: &Names,
    turns: u32,
) -> Result<Tried, TacFault>
    ensures answer { AnswersCode code.ApTermTac (args_value args.now) goal.now names.now turns result }
    ensures valid { IfOk result (λ tried. IsJustified (args_value args.now) goal.now tried.step) }
{
    let TacArgs::Nothing = args else {
        return Err(TacFault::Refused(turns, Vec::new(alloc)));
    };
    let Some(parts) = dest_applications(goal) else {
        return Err(TacFault::Refused(turns, Vec::new(alloc)));
    };
    if !parts.function.alpha_equivalent(parts.other_function) {
        return Err(TacFault::Refused(turns, Vec::new(alloc)));
    }
    let step = ap_term_step(
        alloc,
        goal,
        parts.function,
        parts.argument,
        parts.other_argument,
    )?;
    Ok(Tried {
        step,
        left: turns,
        tested: Vec::new(alloc),
    })
}

/// AP_THM_TAC leaves `f = g` of `f x = g x`.
pub fn ap_thm_tac(
    alloc: Global,
    args: &TacArgs,
    goal: &Goal,
    names: &Names,
    turns: u32,
) -> Result<Tried, TacFault>
    ensures answer { AnswersCode code.ApThmTac (args_value args.now) goal.now names.now turns result }
    ensures valid { IfOk result (λ tried. IsJustified (args_value args.now) goal.now tried.step) }
{
    let TacArgs::Nothing = args else {
        return Err(TacFault::Refused(turns, Vec::new(alloc)));
    };
    let Some(parts) = dest_applications(goal) else {
        return Err(TacFault::Refused(turns, Vec::new(alloc)));
    };
    if !parts.argument.alpha_equivalent(parts.other_argument) {
        return Err(TacFault::Refused(turns, Vec::new(alloc)));
    }
    let step = ap_thm_step(
        alloc,
        goal,
        parts.argument,
        parts.function,
        parts.other_function,
    )?;
    Ok(Tried {
        step,
        left: turns,
        tested: Vec::new(alloc),
    })
}

/// MK_COMB_TAC leaves `f = g` and `x = y` of `f x = g y`.
pub fn mk_comb_tac(
    alloc: Global,
    args: &TacArgs,
    goal: &Goal,
    names: &Names,
    turns: u32,
) -> Result<Tried, TacFault>
    ensures answer { AnswersCode code.MkCombTac (args_value args.now) goal.now names.now turns result }
    ensures valid { IfOk result (λ tried. IsJustified (args_value args.now) goal.now tried.step) }
{
    let TacArgs::Nothing = args else {
        return Err(TacFault::Refused(turns, Vec::new(alloc)));
    };
    let Some(parts) = dest_applications(goal) else {
        return Err(TacFault::Refused(turns, Vec::new(alloc)));
    };
    if !parts
        .function
        .type_of()
        .same(parts.other_function.type_of())
    {
        return Err(TacFault::Refused(turns, Vec::new(alloc)));
    }
    let step = mk_comb_step(alloc, goal, &parts)?;
    Ok(Tried {
        step,
        left: turns,
        tested: Vec::new(alloc),
    })
}

//! The functions on quantifiers.
ghost use Rattle.std.specs.Prelude.{IfOk};
ghost use Rattle.hol_goal.specs.ArgumentsView.{args_value};
ghost use Rattle.hol_goal.specs.declared.tac_code.TacCode.TheVariants as code;
ghost use Rattle.hol_just.specs.Answering.{AnswersCode, IsJustified};

use hol_formulas::{dest_exists, dest_forall};
use hol_goal::{Goal, Names, TacArgs};
use hol_just::{TacFault, Tried};
use hol_steps::{FreeingStep, exists_step, gen_step, is_free_in_goal, x_gen_step};
use hol_terms::TermNode;
use std::alloc::Global;

/// GEN_TAC leaves `p` of `!x. p`, at a variable of a new name: that of nothing in the goal, and of no constant.
pub fn gen_tac(
    alloc: Global,
    args: &TacArgs,
    goal: &Goal,
    names: &Names,
    turns: u32,
) -> Result<Tried, TacFault>
    ensures answer { AnswersCode code.GenTac (args_value args.now) goal.now names.now turns result }
    ensures valid { IfOk result (λ tried. IsJustified (args_value args.now) goal.now tried.step) }
{
    let TacArgs::Nothing = args else {
        return Err(TacFault::Refused(turns, Vec::new(alloc)));
    };
    let Some((x, p)) = dest_forall(goal.conclusion()) else {
        return Err(TacFault::Refused(turns, Vec::new(alloc)));
    };
    let FreeingStep { step, tested } = gen_step(alloc, goal, names, x, p)?;
    Ok(Tried {
        step,
        left: turns,
        tested,
    })
}

/// X_GEN_TAC leaves `p` of `!x. p`, at a variable of the type of `x` that is not free in the goal.
pub fn x_gen_tac(
    alloc: Global,
    args: &TacArgs,
    goal: &Goal,
    names: &Names,
    turns: u32,
) -> Result<Tried, TacFault>
    ensures answer { AnswersCode code.XGenTac (args_value args.now) goal.now names.now turns result }
    ensures valid { IfOk result (λ tried. IsJustified (args_value args.now) goal.now tried.step) }
{
    let TacArgs::Term(t) = args else {
        return Err(TacFault::Refused(turns, Vec::new(alloc)));
    };
    let TermNode::Var(v) = t.node() else {
        return Err(TacFault::Refused(turns, Vec::new(alloc)));
    };
    let Some((x, p)) = dest_forall(goal.conclusion()) else {
        return Err(TacFault::Refused(turns, Vec::new(alloc)));
    };
    if !v.ty().same(x.ty()) {
        return Err(TacFault::Refused(turns, Vec::new(alloc)));
    }
    if is_free_in_goal(goal, v) {
        return Err(TacFault::Refused(turns, Vec::new(alloc)));
    }
    let step = x_gen_step(alloc, goal, x, p, v)?;
    Ok(Tried {
        step,
        left: turns,
        tested: Vec::new(alloc),
    })
}

/// EXISTS_TAC leaves `p` of `?x. p`, at a term of the type of `x`.
pub fn exists_tac(
    alloc: Global,
    args: &TacArgs,
    goal: &Goal,
    names: &Names,
    turns: u32,
) -> Result<Tried, TacFault>
    ensures answer { AnswersCode code.ExistsTac (args_value args.now) goal.now names.now turns result }
    ensures valid { IfOk result (λ tried. IsJustified (args_value args.now) goal.now tried.step) }
{
    let TacArgs::Term(t) = args else {
        return Err(TacFault::Refused(turns, Vec::new(alloc)));
    };
    let Some((x, p)) = dest_exists(goal.conclusion()) else {
        return Err(TacFault::Refused(turns, Vec::new(alloc)));
    };
    if !t.type_of().same(x.ty()) {
        return Err(TacFault::Refused(turns, Vec::new(alloc)));
    }
    let step = exists_step(alloc, goal, x, p, t)?;
    Ok(Tried {
        step,
        left: turns,
        tested: Vec::new(alloc),
    })
}

//! The functions that assume what a theorem says to exist.
ghost use Rattle.std.specs.Prelude.{IfOk};
ghost use Rattle.hol_goal.specs.ArgumentsView.{args_value};
ghost use Rattle.hol_goal.specs.declared.tac_code.TacCode.TheVariants as code;
ghost use Rattle.hol_just.specs.Answering.{AnswersCode, IsJustified};

use hol_formulas::dest_exists;
use hol_goal::{Goal, Names, TacArgs};
use hol_just::{TacFault, Tried};
use hol_steps::{FreeingStep, choose_step, is_free_by, x_choose_step};
use hol_terms::TermNode;
use std::alloc::Global;

/// CHOOSE_TAC assumes `p` of a theorem `?x. p`, at a variable of a new name: that of nothing in the goal and the theorem, and of no constant.
pub fn choose_tac(
    alloc: Global,
    args: &TacArgs,
    goal: &Goal,
    names: &Names,
    turns: u32,
) -> Result<Tried, TacFault>
    ensures answer { AnswersCode code.ChooseTac (args_value args.now) goal.now names.now turns result }
    ensures valid { IfOk result (λ tried. IsJustified (args_value args.now) goal.now tried.step) }
{
    let TacArgs::Theorem(th) = args else {
        return Err(TacFault::Refused(turns, Vec::new(alloc)));
    };
    let Some((x, p)) = dest_exists(th.concl()) else {
        return Err(TacFault::Refused(turns, Vec::new(alloc)));
    };
    let FreeingStep { step, tested } = choose_step(alloc, th, goal, names, x, p)?;
    Ok(Tried {
        step,
        left: turns,
        tested,
    })
}

/// X_CHOOSE_TAC assumes `p` of a theorem `?x. p`, at a variable of the type of `x` that is free neither in the goal nor in the theorem.
pub fn x_choose_tac(
    alloc: Global,
    args: &TacArgs,
    goal: &Goal,
    names: &Names,
    turns: u32,
) -> Result<Tried, TacFault>
    ensures answer { AnswersCode code.XChooseTac (args_value args.now) goal.now names.now turns result }
    ensures valid { IfOk result (λ tried. IsJustified (args_value args.now) goal.now tried.step) }
{
    let TacArgs::TermAndTheorem(t, th) = args else {
        return Err(TacFault::Refused(turns, Vec::new(alloc)));
    };
    let TermNode::Var(v) = t.node() else {
        return Err(TacFault::Refused(turns, Vec::new(alloc)));
    };
    let Some((x, p)) = dest_exists(th.concl()) else {
        return Err(TacFault::Refused(turns, Vec::new(alloc)));
    };
    if !v.ty().same(x.ty()) {
        return Err(TacFault::Refused(turns, Vec::new(alloc)));
    }
    if is_free_by(th, goal, v) {
        return Err(TacFault::Refused(turns, Vec::new(alloc)));
    }
    let step = x_choose_step(alloc, th, goal, x, p, v)?;
    Ok(Tried {
        step,
        left: turns,
        tested: Vec::new(alloc),
    })
}

//! The functions on connectives.
ghost use Rattle.std.specs.Prelude.{IfOk};
ghost use Rattle.hol_goal.specs.ArgumentsView.{args_value};
ghost use Rattle.hol_goal.specs.declared.tac_code.TacCode.TheVariants as code;
ghost use Rattle.hol_just.specs.Answering.{AnswersCode, IsJustified};

use hol_formulas::{dest_conj, dest_disj, dest_imp, dest_neg, is_falsity};
use hol_goal::{Goal, Names, TacArgs};
use hol_just::{Just, TacFault, Tried};
use hol_steps::{
    assume_step, closing, conj_step, disch_neg_step, disch_step, disj_cases_step, disj1_step,
    disj2_step, mp_step,
};
use std::alloc::Global;

/// ACCEPT_TAC closes what the theorem concludes.
pub fn accept_tac(
    alloc: Global,
    args: &TacArgs,
    goal: &Goal,
    names: &Names,
    turns: u32,
) -> Result<Tried, TacFault>
    ensures answer { AnswersCode code.AcceptTac (args_value args.now) goal.now names.now turns result }
    ensures valid { IfOk result (λ tried. IsJustified (args_value args.now) goal.now tried.step) }
{
    let TacArgs::Theorem(th) = args else {
        return Err(TacFault::Refused(turns, Vec::new(alloc)));
    };
    if !th.concl().alpha_equivalent(goal.conclusion()) {
        return Err(TacFault::Refused(turns, Vec::new(alloc)));
    }
    let just = Just::accept_tac(alloc, th)?;
    Ok(Tried {
        step: closing(alloc, just),
        left: turns,
        tested: Vec::new(alloc),
    })
}

/// CONJ_TAC leaves `p` and `q` of `p /\ q`.
pub fn conj_tac(
    alloc: Global,
    args: &TacArgs,
    goal: &Goal,
    names: &Names,
    turns: u32,
) -> Result<Tried, TacFault>
    ensures answer { AnswersCode code.ConjTac (args_value args.now) goal.now names.now turns result }
    ensures valid { IfOk result (λ tried. IsJustified (args_value args.now) goal.now tried.step) }
{
    let TacArgs::Nothing = args else {
        return Err(TacFault::Refused(turns, Vec::new(alloc)));
    };
    let Some((p, q)) = dest_conj(goal.conclusion()) else {
        return Err(TacFault::Refused(turns, Vec::new(alloc)));
    };
    let step = conj_step(alloc, goal, p, q)?;
    Ok(Tried {
        step,
        left: turns,
        tested: Vec::new(alloc),
    })
}

/// DISCH_TAC assumes `p` of `p ==> q`, which leaves `q`, and of `~p`, which leaves `F`.
pub fn disch_tac(
    alloc: Global,
    args: &TacArgs,
    goal: &Goal,
    names: &Names,
    turns: u32,
) -> Result<Tried, TacFault>
    ensures answer { AnswersCode code.DischTac (args_value args.now) goal.now names.now turns result }
    ensures valid { IfOk result (λ tried. IsJustified (args_value args.now) goal.now tried.step) }
{
    let TacArgs::Nothing = args else {
        return Err(TacFault::Refused(turns, Vec::new(alloc)));
    };
    if let Some((p, q)) = dest_imp(goal.conclusion()) {
        let step = disch_step(alloc, goal, p, q)?;
        return Ok(Tried {
            step,
            left: turns,
            tested: Vec::new(alloc),
        });
    }
    let Some(p) = dest_neg(goal.conclusion()) else {
        return Err(TacFault::Refused(turns, Vec::new(alloc)));
    };
    let step = disch_neg_step(alloc, goal, p)?;
    Ok(Tried {
        step,
        left: turns,
        tested: Vec::new(alloc),
    })
}

/// CONTR_TAC closes the goal by a theorem `F`.
pub fn contr_tac(
    alloc: Global,
    args: &TacArgs,
    goal: &Goal,
    names: &Names,
    turns: u32,
) -> Result<Tried, TacFault>
    ensures answer { AnswersCode code.ContrTac (args_value args.now) goal.now names.now turns result }
    ensures valid { IfOk result (λ tried. IsJustified (args_value args.now) goal.now tried.step) }
{
    let TacArgs::Theorem(th) = args else {
        return Err(TacFault::Refused(turns, Vec::new(alloc)));
    };
    if !is_falsity(th.concl()) {
        return Err(TacFault::Refused(turns, Vec::new(alloc)));
    }
    let just = Just::contr_tac(alloc, goal.conclusion(), th)?;
    Ok(Tried {
        step: closing(alloc, just),
        left: turns,
        tested: Vec::new(alloc),
    })
}

/// MP_TAC leaves `c ==> w` of `w`, for a theorem `c`.
pub fn mp_tac(
    alloc: Global,
    args: &TacArgs,
    goal: &Goal,
    names: &Names,
    turns: u32,
) -> Result<Tried, TacFault>
    ensures answer { AnswersCode code.MpTac (args_value args.now) goal.now names.now turns result }
    ensures valid { IfOk result (λ tried. IsJustified (args_value args.now) goal.now tried.step) }
{
    let TacArgs::Theorem(th) = args else {
        return Err(TacFault::Refused(turns, Vec::new(alloc)));
    };
    let step = mp_step(alloc, th, goal)?;
    Ok(Tried {
        step,
        left: turns,
        tested: Vec::new(alloc),
    })
}

/// ASSUME_TAC assumes a theorem.
pub fn assume_tac(
    alloc: Global,
    args: &TacArgs,
    goal: &Goal,
    names: &Names,
    turns: u32,
) -> Result<Tried, TacFault>
    ensures answer { AnswersCode code.AssumeTac (args_value args.now) goal.now names.now turns result }
    ensures valid { IfOk result (λ tried. IsJustified (args_value args.now) goal.now tried.step) }
{
    let TacArgs::Theorem(th) = args else {
        return Err(TacFault::Refused(turns, Vec::new(alloc)));
    };
    let step = assume_step(alloc, th, goal)?;
    Ok(Tried {
        step,
        left: turns,
        tested: Vec::new(alloc),
    })
}

/// DISJ1_TAC leaves `p` of `p \/ q`.
pub fn disj1_tac(
    alloc: Global,
    args: &TacArgs,
    goal: &Goal,
    names: &Names,
    turns: u32,
) -> Result<Tried, TacFault>
    ensures answer { AnswersCode code.Disj1Tac (args_value args.now) goal.now names.now turns result }
    ensures valid { IfOk result (λ tried. IsJustified (args_value args.now) goal.now tried.step) }
{
    let TacArgs::Nothing = args else {
        return Err(TacFault::Refused(turns, Vec::new(alloc)));
    };
    let Some((p, q)) = dest_disj(goal.conclusion()) else {
        return Err(TacFault::Refused(turns, Vec::new(alloc)));
    };
    let step = disj1_step(alloc, goal, p, q)?;
    Ok(Tried {
        step,
        left: turns,
        tested: Vec::new(alloc),
    })
}

/// DISJ2_TAC leaves `q` of `p \/ q`.
pub fn disj2_tac(
    alloc: Global,
    args: &TacArgs,
    goal: &Goal,
    names: &Names,
    turns: u32,
) -> Result<Tried, TacFault>
    ensures answer { AnswersCode code.Disj2Tac (args_value args.now) goal.now names.now turns result }
    ensures valid { IfOk result (λ tried. IsJustified (args_value args.now) goal.now tried.step) }
{
    let TacArgs::Nothing = args else {
        return Err(TacFault::Refused(turns, Vec::new(alloc)));
    };
    let Some((p, q)) = dest_disj(goal.conclusion()) else {
        return Err(TacFault::Refused(turns, Vec::new(alloc)));
    };
    let step = disj2_step(alloc, goal, p, q)?;
    Ok(Tried {
        step,
        left: turns,
        tested: Vec::new(alloc),
    })
}

/// DISJ_CASES_TAC assumes `p`, and assumes `q`, of a theorem `p \/ q`.
pub fn disj_cases_tac(
    alloc: Global,
    args: &TacArgs,
    goal: &Goal,
    names: &Names,
    turns: u32,
) -> Result<Tried, TacFault>
    ensures answer { AnswersCode code.DisjCasesTac (args_value args.now) goal.now names.now turns result }
    ensures valid { IfOk result (λ tried. IsJustified (args_value args.now) goal.now tried.step) }
{
    let TacArgs::Theorem(th) = args else {
        return Err(TacFault::Refused(turns, Vec::new(alloc)));
    };
    let Some((p, q)) = dest_disj(th.concl()) else {
        return Err(TacFault::Refused(turns, Vec::new(alloc)));
    };
    let step = disj_cases_step(alloc, th, goal, p, q)?;
    Ok(Tried {
        step,
        left: turns,
        tested: Vec::new(alloc),
    })
}

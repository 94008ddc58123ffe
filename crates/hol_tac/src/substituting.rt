//! SUBST1_TAC and SPEC_TAC.
ghost use Rattle.std.specs.Prelude.{◌≡◌, ◌||◌, not, IfOk, []};
ghost use Rattle.hol_terms.specs.Nameless.{nameless, free_occurrences};
ghost use Rattle.hol_terms.specs.Scoped.{binds};
ghost use Rattle.hol_terms.specs.Alpha.{alpha_eq};
ghost use Rattle.hol_goal.specs.ArgumentsView.{args_value};
ghost use Rattle.hol_goal.specs.declared.tac_code.TacCode.TheVariants as code;
ghost use Rattle.hol_just.specs.Answering.{AnswersCode, IsJustified};

use hol_formulas::dest_eq;
use hol_goal::{Goal, Names, TacArgs};
use hol_just::{TacFault, Tried};
use hol_steps::{spec_step, subst1_step};
use hol_terms::{Term, TermNode, Variable};
use std::alloc::Global;

/// SUBST1_TAC leaves the conclusion with `t` for each `s`, by a theorem `s = t`.
pub fn subst1_tac(
    alloc: Global,
    args: &TacArgs,
    goal: &Goal,
    names: &Names,
    turns: u32,
) -> Result<Tried, TacFault>
    ensures answer { AnswersCode code.Subst1Tac (args_value args.now) goal.now names.now turns result }
    ensures valid { IfOk result (λ tried. IsJustified (args_value args.now) goal.now tried.step) }
{
    let TacArgs::Theorem(th) = args else {
        return Err(TacFault::Refused(turns, Vec::new(alloc)));
    };
    let Some(sides) = dest_eq(th.concl()) else {
        return Err(TacFault::Refused(turns, Vec::new(alloc)));
    };
    let step = subst1_step(alloc, th, goal, &sides)?;
    Ok(Tried {
        step,
        left: turns,
        tested: Vec::new(alloc),
    })
}

/// SPEC_TAC leaves `!x. w`, with `x` for each `t` of the conclusion `w`, for a variable `x` of the type of `t` that is `t` or not free in `w`.
pub fn spec_tac(
    alloc: Global,
    args: &TacArgs,
    goal: &Goal,
    names: &Names,
    turns: u32,
) -> Result<Tried, TacFault>
    ensures answer { AnswersCode code.SpecTac (args_value args.now) goal.now names.now turns result }
    ensures valid { IfOk result (λ tried. IsJustified (args_value args.now) goal.now tried.step) }
{
    let TacArgs::Pair(t, u) = args else {
        return Err(TacFault::Refused(turns, Vec::new(alloc)));
    };
    let TermNode::Var(x) = u.node() else {
        return Err(TacFault::Refused(turns, Vec::new(alloc)));
    };
    if !t.type_of().same(x.ty()) {
        return Err(TacFault::Refused(turns, Vec::new(alloc)));
    }
    if !may_generalize(goal, t, u, x) {
        return Err(TacFault::Refused(turns, Vec::new(alloc)));
    }
    let step = spec_step(alloc, goal, t, x)?;
    Ok(Tried {
        step,
        left: turns,
        tested: Vec::new(alloc),
    })
}

// Whether the variable is the term, or not free in the conclusion.
fn may_generalize(goal: &Goal, t: &Term, u: &Term, x: &Variable) -> bool
    ensures { result ≡ (alpha_eq (nameless [] t.now) (nameless [] u.now) || not (binds (free_occurrences goal.now.conclusion) x.now)) }
{
    t.alpha_equivalent(u) || !goal.conclusion().vfree_in(x)
}

//! Where a part of a run has ended, and what stands around it goes on.
ghost use Rattle.std.specs.Prelude.{◌≡◌, ◌∷◌, List, IfOk, length, reverse};
ghost use Rattle.hol_goal.specs.UsedView.{used_value};
ghost use Rattle.hol_combine.specs.Runs.{KnownValue};
ghost use Rattle.hol_combine.specs.RunView.{refusal_value, used_by};
ghost use Rattle.hol_combine.specs.Work.{work_value};
ghost use Rattle.hol_combine.specs.declared.pending.Pending.{Pending};
ghost use Rattle.hol_combine.specs.declared.pending.Pending.TheVariants as pending;
ghost use Rattle.hol_combine.specs.Pending.{Left, Refused, HasLeft};
ghost use Rattle.hol_combine.specs.Advancing.{FitsPending, GoesFrom};

use crate::beginning::{begin_alternatives, ended};
use crate::expr::Expr;
use crate::parts::{is_just, push_each, refused, unchanged};
use crate::pending::{Pending, Reached};
use crate::pursuing::{next_in_place, next_of_each, next_repeated, next_replicated};
use crate::ran::{Ran, Refusal, RunError};
use crate::work::Work;
use hol_goal::{Goal, Used};
use std::alloc::Global;

/// What a run comes to where a part left goals.
pub(crate) fn after_goals<'a>(
    alloc: Global,
    pending: Pending<'a>,
    ran: Ran,
    outer: &mut Vec<Pending<'a>>,
) -> Result<Reached<'a>, RunError>
    requires fits { FitsPending pending }
    ensures goes { (known : KnownValue) → GoesFrom known (pending.entry ∷ reverse outer.old.items) (Left ran.step.goals.items ran.step.just (used_by ran)) (reverse outer.new.items) result }
    ensures left { IfOk result (HasLeft ran.left) }
{
    match pending {
        Pending::Then { parts, more } => {
            next_of_each(alloc, parts, more, Work::new(alloc, ran), outer)
        }
        Pending::Each { parts, more, work } => {
            let mut work = work;
            work.finish(ran)?;
            next_of_each(alloc, parts, more, work, outer)
        }
        Pending::ThenL { parts } => begin_places(alloc, parts, ran, outer),
        Pending::Places { parts, work } => {
            let mut work = work;
            work.finish(ran)?;
            next_in_place(alloc, parts, work, outer)
        }
        Pending::OrElse {
            goal: _,
            next: _,
            more: _,
        } => Ok(Reached::Left(ran)),
        Pending::Try { goal: _ } => Ok(Reached::Left(ran)),
        Pending::Changed { goal } => end_changed(alloc, goal, ran),
        Pending::Repeat {
            part,
            goal: _,
            work,
        } => {
            let mut work = work;
            work.again(ran)?;
            next_repeated(alloc, part, work, outer)
        }
        Pending::Replicate {
            part,
            more,
            rounds,
            work,
        } => after_replicated(alloc, part, more, rounds, work, ran, outer),
    }
}

/// What a run comes to where a part was refused.
pub(crate) fn after_refusal<'a>(
    alloc: Global,
    pending: Pending<'a>,
    why: Refusal,
    used: Used,
    outer: &mut Vec<Pending<'a>>,
) -> Result<Reached<'a>, RunError>
    ensures goes { (known : KnownValue) → GoesFrom known (pending.entry ∷ reverse outer.old.items) (Refused (refusal_value why) (used_value used)) (reverse outer.new.items) result }
    ensures left { IfOk result (HasLeft used.left) }
{
    match pending {
        Pending::OrElse { goal, next, more } => {
            begin_alternatives(next, more, goal, used, outer)
        }
        Pending::Try { goal } => Ok(Reached::Left(unchanged(alloc, &goal, used)?)),
        Pending::Repeat { part, goal, work } => {
            let mut work = work;
            work.keep(goal, used)?;
            next_repeated(alloc, part, work, outer)
        }
        Pending::Then { parts: _, more: _ }
        | Pending::Each {
            parts: _,
            more: _,
            work: _,
        }
        | Pending::ThenL { parts: _ }
        | Pending::Places { parts: _, work: _ }
        | Pending::Changed { goal: _ }
        | Pending::Replicate {
            part: _,
            more: _,
            rounds: _,
            work: _,
        } => { Ok(Reached::Refused(why, used)) }
    }
}

// THENL: each of the expressions on the goal of its place, where there are as many.
fn begin_places<'a>(
    alloc: Global,
    parts: &'a [Expr],
    ran: Ran,
    outer: &mut Vec<Pending<'a>>,
) -> Result<Reached<'a>, RunError>
    ensures goes { (known : KnownValue) → GoesFrom known (pending.ThenL parts.entry ∷ reverse outer.old.items) (Left ran.step.goals.items ran.step.just (used_by ran)) (reverse outer.new.items) result }
    ensures left { IfOk result (HasLeft ran.left) }
{
    if parts.len() != ran.step.goals.len() {
        let Ran { left, tested, .. } = ran;
        return ended(Err(refused(alloc, "THENL", Used { left, tested })));
    }
    next_in_place(alloc, parts, Work::new(alloc, ran), outer)
}

// CHANGED_TAC: a refusal where just the goal is left.
fn end_changed<'a>(alloc: Global, goal: Goal, ran: Ran) -> Result<Reached<'a>, RunError>
    ensures goes { (known : KnownValue) (outer : List Pending) → GoesFrom known (pending.Changed goal ∷ outer) (Left ran.step.goals.items ran.step.just (used_by ran)) outer result }
    ensures left { IfOk result (HasLeft ran.left) }
{
    if is_just(&goal, &ran.step.goals) {
        let Ran { left, tested, .. } = ran;
        return ended(Err(refused(alloc, "CHANGED_TAC", Used { left, tested })));
    }
    Ok(Reached::Left(ran))
}

// REPLICATE_TAC: the rounds of the goals that are left, before those that wait.
fn after_replicated<'a>(
    alloc: Global,
    part: &'a Expr,
    more: usize,
    rounds: Vec<usize>,
    work: Work,
    ran: Ran,
    outer: &mut Vec<Pending<'a>>,
) -> Result<Reached<'a>, RunError>
    requires waiting { length (work_value work).waiting ≡ length rounds.items }
    ensures goes { (known : KnownValue) → GoesFrom known (pending.Replicate part.entry more rounds work ∷ reverse outer.old.items) (Left ran.step.goals.items ran.step.just (used_by ran)) (reverse outer.new.items) result }
    ensures left { IfOk result (HasLeft ran.left) }
{
    let mut work = work;
    if more == 0 {
        work.finish(ran)?;
        return next_replicated(alloc, part, rounds, work, outer);
    }
    let mut rounds = rounds;
    push_each(&mut rounds, more - 1, ran.step.goals.len())?;
    work.again(ran)?;
    next_replicated(alloc, part, rounds, work, outer)
}

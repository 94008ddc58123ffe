//! Goals that are gone through, one after the other: what a run comes to at the next one.
ghost use Rattle.std.specs.Prelude.{◌≡◌, ◌++◌, ◌∷◌, [], IfOk, length, reverse};
ghost use Rattle.hol_combine.specs.ExprValue.{exprs};
ghost use Rattle.hol_combine.specs.Runs.{KnownValue, run};
ghost use Rattle.hol_combine.specs.Work.{work_value};
ghost use Rattle.hol_combine.specs.Pending.{Goes, through, in_place, by_rounds, by_counts, HasLeft};
ghost use Rattle.hol_combine.specs.Steps.{steps_through, steps_by_places, steps_by_rounds, steps_by_counts};
ghost use Rattle.hol_combine.specs.Advancing.{GoesFrom};

use crate::beginning::begin_every;
use crate::calls::paid;
use crate::expr::Expr;
use crate::pending::{Pending, Reached};
use crate::ran::RunError;
use crate::work::Work;
use std::alloc::Global;
use std::slice;

/// EVERY of the first expressions on the next goal; where none waits, each of the others is still to be done on all that are left.
pub(crate) fn next_of_each<'a>(
    alloc: Global,
    parts: &'a [Expr],
    more: &'a [Expr],
    work: Work,
    outer: &mut Vec<Pending<'a>>,
) -> Result<Reached<'a>, RunError>
    ensures goes { (known : KnownValue) → GoesFrom known (reverse outer.old.items) (Goes (exprs (parts.now ++ more.now)) (through known parts.now more.now) (steps_through known parts.now more.now) (work_value work)) (reverse outer.new.items) result }
    ensures left { IfOk result (HasLeft (work_value work).used.turns_left) }
{
    let mut work = work;
    if let Some((goal, used)) = work.next(alloc) {
        outer.push(Pending::Each { parts, more, work })?;
        return begin_every(alloc, parts, goal, used, outer);
    }
    let [next, rest @ ..] = more else {
        return Ok(Reached::Left(work.end()));
    };
    outer.push(Pending::Then {
        parts: slice::from_ref(next),
        more: rest,
    })?;
    Ok(Reached::Left(work.end()))
}

/// The first of the expressions on the next goal.
pub(crate) fn next_in_place<'a>(
    alloc: Global,
    parts: &'a [Expr],
    work: Work,
    outer: &mut Vec<Pending<'a>>,
) -> Result<Reached<'a>, RunError>
    requires waiting { length (work_value work).waiting ≡ length parts.now }
    ensures goes { (known : KnownValue) → GoesFrom known (reverse outer.old.items) (Goes (exprs parts.now) (in_place known parts.now) (steps_by_places known parts.now) (work_value work)) (reverse outer.new.items) result }
    ensures left { IfOk result (HasLeft (work_value work).used.turns_left) }
{
    let [part, rest @ ..] = parts else {
        return Ok(Reached::Left(work.end()));
    };
    let mut work = work;
    let Some((goal, used)) = work.next(alloc) else {
        unreachable!()
    };
    outer.push(Pending::Places { parts: rest, work })?;
    Ok(Reached::Part(part, goal, used))
}

/// A round of REPEAT on the next goal, which pays a turn.
pub(crate) fn next_repeated<'a>(
    alloc: Global,
    part: &'a Expr,
    work: Work,
    outer: &mut Vec<Pending<'a>>,
) -> Result<Reached<'a>, RunError>
    ensures goes { (known : KnownValue) → GoesFrom known (reverse outer.old.items) (Goes (exprs (part.now ∷ [])) (by_rounds (run known part.now)) (steps_by_rounds known part.now) (work_value work)) (reverse outer.new.items) result }
    ensures left { IfOk result (HasLeft (work_value work).used.turns_left) }
{
    let mut work = work;
    let Some((goal, used)) = work.next(alloc) else {
        return Ok(Reached::Left(work.end()));
    };
    let used = paid(used)?;
    outer.push(Pending::Repeat {
        part,
        goal: goal.copy()?,
        work,
    })?;
    Ok(Reached::Part(part, goal, used))
}

/// A round of REPLICATE_TAC on the next goal, which pays a turn. Each goal that waits has one round, and so many more, the first one last.
pub(crate) fn next_replicated<'a>(
    alloc: Global,
    part: &'a Expr,
    rounds: Vec<usize>,
    work: Work,
    outer: &mut Vec<Pending<'a>>,
) -> Result<Reached<'a>, RunError>
    requires waiting { length (work_value work).waiting ≡ length rounds.items }
    ensures goes { (known : KnownValue) → GoesFrom known (reverse outer.old.items) (Goes (exprs (part.now ∷ [])) (by_counts (run known part.now) (reverse rounds.items)) (steps_by_counts known part.now (reverse rounds.items)) (work_value work)) (reverse outer.new.items) result }
    ensures left { IfOk result (HasLeft (work_value work).used.turns_left) }
{
    let mut work = work;
    let Some((goal, used)) = work.next(alloc) else {
        return Ok(Reached::Left(work.end()));
    };
    let mut rounds = rounds;
    let Some(more) = rounds.pop() else {
        unreachable!()
    };
    let used = paid(used)?;
    outer.push(Pending::Replicate {
        part,
        more,
        rounds,
        work,
    })?;
    Ok(Reached::Part(part, goal, used))
}

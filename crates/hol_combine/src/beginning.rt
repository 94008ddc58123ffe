//! Where the run of an expression begins.
ghost use Rattle.std.specs.Prelude.{◌≡◌, ◌≤◌, ◌∷◌, IfOk, reverse};
ghost use Rattle.hol_goal.specs.UsedView.{used_value};
ghost use Rattle.hol_combine.specs.ExprValue.{Every, First, Repeat, Replicate, exprs};
ghost use Rattle.hol_combine.specs.Runs.{KnownValue};
ghost use Rattle.hol_combine.specs.Pending.{Runs, reached_by, HasLeft};
ghost use Rattle.hol_combine.specs.Advancing.{GoesFrom};

use crate::calls::{paid_too, run_call};
use crate::expr::{Expr, ExprNode};
use crate::parts::{refused, unchanged};
use crate::pending::{Pending, Reached};
use crate::pursuing::{next_repeated, next_replicated};
use crate::ran::{Ran, RunError};
use crate::tacs::Tacs;
use crate::theorem_tacs::run_handing;
use crate::work::Work;
use hol_goal::{Goal, Used};
use std::alloc::Global;
use std::slice;

/// Begins to run the expression on the goal: a call is run, and of a tactical the first part is what the run has come to.
pub(crate) fn begin<'a, T: Tacs>(
    alloc: Global,
    expr: &'a Expr,
    goal: Goal,
    tacs: &T,
    used: Used,
    outer: &mut Vec<Pending<'a>>,
) -> Result<Reached<'a>, RunError>
    requires turns { used.left ≤ 100000 }
    ensures goes { GoesFrom (T.Tacs.known_of tacs.now) (reverse outer.old.items) (Runs expr.now goal (used_value used)) (reverse outer.new.items) result }
    ensures left { IfOk result (HasLeft used.left) }
{
    match expr.node() {
        ExprNode::Call(call) => ended(run_call(alloc, call, &goal, tacs, used)),
        ExprNode::Then(first, second, more) => {
            let parts = slice::from_ref(second);
            let more = more.as_slice();
            outer.push(Pending::Then { parts, more })?;
            Ok(Reached::Part(first, goal, used))
        }
        ExprNode::ThenL(first, parts) => {
            let parts = parts.as_slice();
            outer.push(Pending::ThenL { parts })?;
            Ok(Reached::Part(first, goal, used))
        }
        ExprNode::OrElse(first, second, more) => {
            outer.push(Pending::OrElse {
                goal: goal.copy()?,
                next: second,
                more: more.as_slice(),
            })?;
            Ok(Reached::Part(first, goal, used))
        }
        ExprNode::Try(part) => {
            outer.push(Pending::Try { goal: goal.copy()? })?;
            Ok(Reached::Part(part, goal, used))
        }
        ExprNode::Repeat(part) => begin_repeat(alloc, part, &goal, used, outer),
        ExprNode::Every(parts) => begin_every(alloc, parts.as_slice(), goal, used, outer),
        ExprNode::First(parts) => match parts.as_slice() {
            [] => ended(Err(refused(alloc, "FIRST", used))),
            [first, more @ ..] => begin_alternatives(first, more, goal, used, outer),
        },
        ExprNode::Replicate(times, part) => {
            begin_replicate(alloc, *times, part, &goal, used, outer)
        }
        ExprNode::Changed(part) => {
            outer.push(Pending::Changed { goal: goal.copy()? })?;
            Ok(Reached::Part(part, goal, used))
        }
        ExprNode::Hand(how, tac) => ended(run_handing(alloc, how, tac, &goal, tacs, used)),
        ExprNode::Defined(more, part) => Ok(Reached::Part(part, goal, paid_too(used, *more)?)),
    }
}

/// What a run that has ended has come to. An error says that it was stopped.
pub(crate) fn ended<'a>(run: Result<Ran, RunError>) -> Result<Reached<'a>, RunError>
    ensures { result ≡ reached_by run }
{
    match run {
        Ok(ran) => Ok(Reached::Left(ran)),
        Err(RunError::Refused(why, left, tested)) => {
            Ok(Reached::Refused(why, Used { left, tested }))
        }
        Err(RunError::TurnLimit(tested)) => Err(RunError::TurnLimit(tested)),
        Err(RunError::LargeGoal(tested)) => Err(RunError::LargeGoal(tested)),
        Err(RunError::Memory) => Err(RunError::Memory),
    }
}

/// EVERY of the expressions, on the goal.
pub(crate) fn begin_every<'a>(
    alloc: Global,
    parts: &'a [Expr],
    goal: Goal,
    used: Used,
    outer: &mut Vec<Pending<'a>>,
) -> Result<Reached<'a>, RunError>
    ensures goes { (known : KnownValue) → GoesFrom known (reverse outer.old.items) (Runs (Every (exprs parts.now)) goal (used_value used)) (reverse outer.new.items) result }
    ensures left { IfOk result (HasLeft used.left) }
{
    let [first, rest @ ..] = parts else {
        return Ok(Reached::Left(unchanged(alloc, &goal, used)?));
    };
    if rest.is_empty() {
        return Ok(Reached::Part(first, goal, used));
    }
    outer.push(Pending::Then {
        parts: rest,
        more: &[],
    })?;
    Ok(Reached::Part(first, goal, used))
}

/// FIRST of the expressions, on the goal.
pub(crate) fn begin_alternatives<'a>(
    first: &'a Expr,
    more: &'a [Expr],
    goal: Goal,
    used: Used,
    outer: &mut Vec<Pending<'a>>,
) -> Result<Reached<'a>, RunError>
    ensures goes { (known : KnownValue) → GoesFrom known (reverse outer.old.items) (Runs (First (exprs (first.now ∷ more.now))) goal (used_value used)) (reverse outer.new.items) result }
    ensures left { IfOk result (HasLeft used.left) }
{
    let [next, rest @ ..] = more else {
        return Ok(Reached::Part(first, goal, used));
    };
    outer.push(Pending::OrElse {
        goal: goal.copy()?,
        next,
        more: rest,
    })?;
    Ok(Reached::Part(first, goal, used))
}

// REPEAT of the expression, on the goal.
fn begin_repeat<'a>(
    alloc: Global,
    part: &'a Expr,
    goal: &Goal,
    used: Used,
    outer: &mut Vec<Pending<'a>>,
) -> Result<Reached<'a>, RunError>
    ensures goes { (known : KnownValue) → GoesFrom known (reverse outer.old.items) (Runs (Repeat part.now) goal.now (used_value used)) (reverse outer.new.items) result }
    ensures left { IfOk result (HasLeft used.left) }
{
    let ran = unchanged(alloc, goal, used)?;
    next_repeated(alloc, part, Work::new(alloc, ran), outer)
}

// REPLICATE_TAC of the expression, so many times, on the goal.
fn begin_replicate<'a>(
    alloc: Global,
    times: usize,
    part: &'a Expr,
    goal: &Goal,
    used: Used,
    outer: &mut Vec<Pending<'a>>,
) -> Result<Reached<'a>, RunError>
    ensures goes { (known : KnownValue) → GoesFrom known (reverse outer.old.items) (Runs (Replicate times part.now) goal.now (used_value used)) (reverse outer.new.items) result }
    ensures left { IfOk result (HasLeft used.left) }
{
    let ran = unchanged(alloc, goal, used)?;
    if times == 0 {
        return Ok(Reached::Left(ran));
    }
    let mut rounds = Vec::new(alloc);
    rounds.push(times - 1)?;
    next_replicated(alloc, part, rounds, Work::new(alloc, ran), outer)
}

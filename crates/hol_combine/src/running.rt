//! Runs of expressions.
ghost use Rattle.std.specs.Prelude.{◌≤◌, IfOk, [], ◌∷◌};
ghost use Rattle.hol_registry.specs.RegistryView.{table};
ghost use Rattle.hol_combine.specs.Runs.{run};
ghost use Rattle.hol_combine.specs.Suits.{suits_expr};
ghost use Rattle.hol_goal.specs.Answer.{starting};
ghost use Rattle.hol_goal.specs.UsedView.{used_value};
ghost use Rattle.hol_combine.specs.Agreeing.{known};
ghost use Rattle.hol_combine.specs.RunView.{IsRun, IsValidRun};
ghost use Rattle.hol_combine.specs.Going.{LeavesAtMost};

use crate::beginning::begin;
use crate::expr::Expr;
use crate::pending::Reached;
use crate::ran::{Ran, RunError};
use crate::resuming::{after_goals, after_refusal};
use crate::tacs::{Calls, Tacs};
use hol_goal::{Goal, Names, Used};
use hol_registry::Registry;
use std::alloc::Global;

/// Runs the expression on the goal, with so many turns, where constants have these names. A call of an index beyond the registry is refused.
pub fn run(
    alloc: Global,
    expr: &Expr,
    goal: &Goal,
    registry: &Registry,
    names: &Names,
    turns: u32,
) -> Result<Ran, RunError>
    requires turns { turns ≤ 100000 }
    ensures answer { IsRun (run (known (table registry.now) names.now) expr.now goal.now (starting turns)) result }
    ensures valid { IfOk result (IsValidRun (suits_expr expr.now) (goal.now ∷ [])) }
{
    let used = Used {
        left: turns,
        tested: Vec::new(alloc),
    };
    run_expr(alloc, expr, goal, &Calls { registry, names }, used)
}

// The run, step by step: what it has come to, and what is still to be done around that, the innermost last.
fn run_expr<T: Tacs>(
    alloc: Global,
    expr: &Expr,
    goal: &Goal,
    tacs: &T,
    used: Used,
) -> Result<Ran, RunError>
    requires turns { used.left ≤ 100000 }
    ensures answer { IsRun (run (T.Tacs.known_of tacs.now) expr.now goal.now (used_value used)) result }
    ensures valid { IfOk result (IsValidRun (suits_expr expr.now) (goal.now ∷ [])) }
    ensures left { LeavesAtMost used.left result }
{
    let mut outer = Vec::new(alloc);
    let mut reached = Reached::Part(expr, goal.copy()?, used);
    'steps: loop {
        match reached {
            Reached::Part(part, goal, used) => {
                reached = begin(alloc, part, goal, tacs, used, &mut outer)?;
                continue 'steps;
            }
            Reached::Left(ran) => {
                let Some(pending) = outer.pop() else {
                    return Ok(ran);
                };
                reached = after_goals(alloc, pending, ran, &mut outer)?;
                continue 'steps;
            }
            Reached::Refused(why, used) => {
                let Some(pending) = outer.pop() else {
                    return Err(RunError::Refused(why, used.left, used.tested));
                };
                reached = after_refusal(alloc, pending, why, used, &mut outer)?;
                continue 'steps;
            }
        }
    }
}

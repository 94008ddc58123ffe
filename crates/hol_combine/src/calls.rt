//! Calls of registered functions on goals.
ghost use Rattle.std.specs.Prelude.{◌≡◌, ◌≤◌, ◌+◌, ◌++◌, IfOk, IfErr, true, [], ◌∷◌};
ghost use Rattle.hol_goal.specs.ArgumentsView.{args_value};
ghost use Rattle.hol_just.specs.Answering.{suits, IsJustified};
ghost use Rattle.hol_combine.specs.ExprView.{call_value};
ghost use Rattle.hol_goal.specs.UsedView.{used_value};
ghost use Rattle.hol_combine.specs.Runs.{Stops, TurnLimit, has_large, small, call_paid, run_call};
ghost use Rattle.hol_combine.specs.RunView.{IsError, IsRun, IsValidRun, using};
ghost use Rattle.hol_combine.specs.Going.{LeavesAtMost};

use crate::expr::TacCall;
use crate::ran::{Ran, Refusal, RunError};
use crate::tacs::Tacs;
use hol_goal::{Goal, Used};
use hol_just::{TacFault, Tried, are_assumed};
use hol_types::Name;
use std::alloc::{AllocError, Global};

// The most nodes that a goal may have.
const LARGEST_GOAL: u32 = 20_000;

/// A call pays a turn, tests the hypotheses of the theorems that are written, and calls.
pub(crate) fn run_call<T: Tacs>(
    alloc: Global,
    call: &TacCall,
    goal: &Goal,
    tacs: &T,
    used: Used,
) -> Result<Ran, RunError>
    requires turns { used.left ≤ 100000 }
    ensures answer { IsRun (run_call (T.Tacs.known_of tacs.now) (call_value call.now) goal.now (used_value used)) result }
    ensures valid { IfOk result (IsValidRun (suits (args_value call.now.args)) (goal.now ∷ [])) }
    ensures left { LeavesAtMost used.left result }
{
    let used = paid(used)?;
    if !are_assumed(&call.args, goal) {
        let name = String::from_str(alloc, call.name.as_str())?;
        return Err(RunError::Refused(Refusal::LacksHyps(name), used.left, used.tested));
    }
    call_paid(alloc, call, goal, tacs, used)
}

/// What may still be used where a turn is paid. An error says that none is left.
pub(crate) fn paid(used: Used) -> Result<Used, RunError>
    ensures paid { IfOk result (λ u. (used_value used).turns_left ≡ u.left + 1) }
    ensures tested { IfOk result (λ u. u.tested.items ≡ used.tested.items) }
    ensures none { IfErr result (λ e. (used.left ≡ 0) × IsError (Stops TurnLimit used.tested.items) e) }
{
    let Used { left, tested } = used;
    if left == 0 {
        return Err(RunError::TurnLimit(tested));
    }
    Ok(Used {
        left: left - 1,
        tested,
    })
}

/// What may still be used where a turn is paid, and so many more. An error says that fewer are left.
pub(crate) fn paid_too(used: Used, more: usize) -> Result<Used, RunError>
    ensures paid { IfOk result (λ u. (used_value used).turns_left ≡ u.left + (more + 1)) }
    ensures tested { IfOk result (λ u. u.tested.items ≡ used.tested.items) }
    ensures few { IfErr result (λ e. (used.left ≤ more) × IsError (Stops TurnLimit used.tested.items) e) }
{
    let Used { left, tested } = used;
    if left as usize <= more {
        return Err(RunError::TurnLimit(tested));
    }
    Ok(Used {
        left: left - 1 - more as u32,
        tested,
    })
}

/// A call that has paid: refused where the registry has no such index. Nothing is asked of its theorems' hypotheses.
pub(crate) fn call_paid<T: Tacs>(
    alloc: Global,
    call: &TacCall,
    goal: &Goal,
    tacs: &T,
    used: Used,
) -> Result<Ran, RunError>
    requires turns { used.left ≤ 100000 }
    ensures answer { IsRun (call_paid (T.Tacs.known_of tacs.now) (call_value call.now) goal.now (used_value used)) result }
    ensures valid { IfOk result (λ ran. IsJustified (args_value call.now.args) goal.now ran.step) }
    ensures left { LeavesAtMost used.left result }
{
    let Used {
        left: turns,
        tested,
    } = used;
    if call.index >= tacs.count() {
        let name = String::from_str(alloc, call.name.as_str())?;
        return Err(RunError::Refused(Refusal::DoesNotFit(name), turns, tested));
    }
    match tacs.call_at(call.index, &call.args, goal, turns) {
        Ok(tried) => small(tried, tested),
        Err(TacFault::Refused(left, more)) => {
            let name = String::from_str(alloc, call.name.as_str())?;
            let tested = joined(tested, more)?;
            Err(RunError::Refused(Refusal::DoesNotFit(name), left, tested))
        }
        Err(TacFault::TurnLimit(more)) => Err(RunError::TurnLimit(joined(tested, more)?)),
        Err(TacFault::TooLarge(more)) => Err(RunError::LargeGoal(joined(tested, more)?)),
        Err(TacFault::Memory) => Err(RunError::Memory),
    }
}

// What was done, where no goal that is left is too large; these names were tested before.
fn small(tried: Tried, before: Vec<Name>) -> Result<Ran, RunError>
    ensures answer { IsRun (small tried.step.goals.items (using tried.left (before.items ++ tried.tested.items))) result }
    ensures step { IfOk result (λ ran. ran.step ≡ tried.step) }
    ensures left { LeavesAtMost tried.left result }
{
    let Tried { step, left, tested } = tried;
    let tested = joined(before, tested)?;
    if has_large(&step.goals) {
        return Err(RunError::LargeGoal(tested));
    }
    Ok(Ran { step, left, tested })
}

// The one list and then the other.
fn joined(first: Vec<Name>, second: Vec<Name>) -> Result<Vec<Name>, AllocError>
    ensures { IfOk result (λ both. both.items ≡ first.items ++ second.items) }
{
    let mut both = first;
    let mut second = second;
    both.append(&mut second)?;
    Ok(both)
}

/// Whether one of the goals has over 20,000 nodes.
pub(crate) fn has_large(goals: &[Goal]) -> bool
    ensures { result ≡ has_large goals.now }
{
    goals.iter().any(|goal| goal.size() > LARGEST_GOAL)
}

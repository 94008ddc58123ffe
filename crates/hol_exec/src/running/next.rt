//! The next state.
ghost use Rattle.std.specs.Prelude.{◌≡◌, OnOk, OnErr};
ghost use Rattle.hol_exec.specs.At.{IsOutcomeAt};
ghost use Rattle.hol_exec.specs.OutcomeValue.{after};
ghost use Rattle.hol_exec.specs.StateValue.{newest_of};

use crate::running::outcome::{Change, Outcome};
use crate::state::{Proof, State};
use hol_stack::Element;
use std::alloc::{AllocError, Global};

/// Carries out an outcome that the state may get. Without memory the state stays.
pub fn apply(alloc: Global, state: &mut State, outcome: &Outcome) -> Result<(), AllocError>
    requires { IsOutcomeAt state.old outcome.now }
    ensures ok { OnOk result (state.new ≡ after state.old outcome.now) }
    ensures err { OnErr result (state.new ≡ state.old) }
{
    state.promise();
    match outcome.change() {
        Change::Opens(name, statement, basis) => {
            let proof = Proof::begin(alloc, name.as_str(), statement, basis)?;
            state.begin(proof);
            Ok(())
        }
        Change::Leaves(_, step, basis) => state.step(alloc, step, basis),
        Change::Undoes => {
            state.back();
            Ok(())
        }
        Change::Rotates(times) => state.rotate(alloc, *times),
        Change::Makes(entries) => state.make(entries),
        Change::Refuses(_, _) => Ok(()),
    }
}

/// The same, where the element that the outcome puts on the proof's history is there already: no goal is copied and no basis is joined.
pub fn resume(
    alloc: Global,
    state: &mut State,
    outcome: &Outcome,
    opened: &Option<Element>,
) -> Result<(), AllocError>
    requires at { IsOutcomeAt state.old outcome.now }
    requires opened { opened.now ≡ newest_of (after state.old outcome.now).proof }
    ensures ok { OnOk result (state.new ≡ after state.old outcome.now) }
    ensures err { OnErr result (state.new ≡ state.old) }
{
    let Some(next) = opened else {
        return apply(alloc, state, outcome);
    };
    state.promise();
    match outcome.change() {
        Change::Leaves(_, step, basis) => state.step_with(step, basis, next),
        Change::Rotates(times) => state.rotate_with(*times, next),
        Change::Opens(_, _, _) | Change::Undoes | Change::Makes(_) | Change::Refuses(_, _) => {
            apply(alloc, state, outcome)
        }
    }
}

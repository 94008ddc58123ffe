//! Parts of runs.
ghost use Rattle.std.specs.Prelude.{◌≡◌, ◌++◌, ◌∷◌, [], map, reverse, OnOk, IfOk};
ghost use Rattle.hol_terms.specs.Nameless.{nameless};
ghost use Rattle.hol_combine.specs.Runs.{are_same_terms, is_same_goal, is_just};
ghost use Rattle.hol_goal.specs.UsedView.{used_value};
ghost use Rattle.hol_combine.specs.Going.{IsKept, IsRefusal, copies};

use crate::ran::{Ran, Refusal, RunError};
use hol_goal::{Goal, Used};
use hol_just::{Just, Step};
use hol_subst::aconv;
use hol_terms::Term;
use std::alloc::{AllocError, Global};

/// The goal, unchanged.
pub(crate) fn unchanged(alloc: Global, goal: &Goal, used: Used) -> Result<Ran, AllocError>
    ensures { IfOk result (IsKept goal.now (used_value used)) }
{
    let mut goals = Vec::new(alloc);
    goals.push(goal.copy()?)?;
    let step = Step {
        goals,
        just: Just::none(alloc),
    };
    let Used { left, tested } = used;
    Ok(Ran { step, left, tested })
}

/// A refusal by the tactical of this name.
pub(crate) fn refused(alloc: Global, name: &str, used: Used) -> RunError
    ensures { IsRefusal name.now (used_value used) result }
{
    match String::from_str(alloc, name) {
        Ok(name) => RunError::Refused(Refusal::DoesNotFit(name), used.left, used.tested),
        Err(_) => RunError::Memory,
    }
}

/// Whether just the same goal is left, up to bound names.
pub(crate) fn is_just(goal: &Goal, goals: &[Goal]) -> bool
    ensures { result ≡ is_just goal.now goals.now }
{
    match goals {
        [only] => is_same_goal(goal, only),
        _ => false,
    }
}

// Whether the goals are the same, up to bound names.
fn is_same_goal(goal: &Goal, other: &Goal) -> bool
    ensures { result ≡ is_same_goal goal.now other.now }
{
    aconv(goal.conclusion(), other.conclusion())
        && are_same_terms(goal.assumptions(), other.assumptions())
}

// Whether the terms are the same, one by one, up to bound names.
#[tactic(auto, using(crate::proofs::Same::differ, crate::proofs::Same::same_at))]
fn are_same_terms(terms: &[Term], others: &[Term]) -> bool
    ensures { result ≡ are_same_terms (map (nameless []) terms.now) (map (nameless []) others.now) }
{
    if terms.len() != others.len() {
        return false;
    }
    for (i, term) in terms.iter().enumerate() {
        if !aconv(term, &others[i]) {
            return false;
        }
    }
    true
}

/// Pushes a number so many times.
pub(crate) fn push_each(
    numbers: &mut Vec<usize>,
    number: usize,
    times: usize,
) -> Result<(), AllocError>
    ensures { OnOk result (reverse numbers.new.items ≡ copies times number ++ reverse numbers.old.items) }
{
    for _ in 0..times {
        numbers.push(number)?;
    }
    Ok(())
}

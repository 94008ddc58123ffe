//! What was stripped so far.
ghost use Rattle.std.specs.Prelude.{◌≡◌, reverse, IfOk, OnOk};
ghost use Rattle.hol_goal.specs.UsedView.{used_value};
ghost use Rattle.hol_steps.specs.Progress.{progress_value, started, IsNext, without_used, finished, again};

use crate::pieces::Parts;
use crate::waiting::Waiting;
use hol_goal::{Goal, Used};
use hol_just::{Just, Step, Tried};
use std::alloc::{AllocError, Global};
use std::mem;

/// What was stripped so far: the goals that are done, the pieces that wait on theirs, the moves that led to all of them, and what may still be used.
#[derive(Drop)]
pub(crate) struct Progress {
    done: Vec<Goal>,
    // The first last.
    waiting: Vec<Waiting>,
    just: Just,
    used: Used,
}

impl Progress {
    /// This waits, to which the moves led.
    pub(crate) fn new(
        alloc: Global,
        just: Just,
        first: Waiting,
        turns: u32,
    ) -> Result<Progress, AllocError>
        ensures { IfOk result (λ progress. progress_value progress ≡ started just first turns) }
    {
        let mut waiting = Vec::new(alloc);
        waiting.push(first)?;
        Ok(Progress {
            done: Vec::new(alloc),
            waiting,
            just,
            used: Used {
                left: turns,
                tested: Vec::new(alloc),
            },
        })
    }

    /// Takes what may still be used.
    pub(crate) fn take_used(&mut self, alloc: Global) -> Used
        ensures used { used_value result ≡ (progress_value self.old).used }
        ensures rest { progress_value self.new ≡ without_used (progress_value self.old) }
    {
        Used {
            left: self.used.left,
            tested: mem::replace(&mut self.used.tested, Vec::new(alloc)),
        }
    }

    /// Takes the first that waits.
    pub(crate) fn next(&mut self) -> Option<Waiting>
        ensures { IsNext (progress_value self.old) (progress_value self.new) result }
    {
        self.waiting.pop()
    }

    /// What was taken has no pieces: its goal is done.
    pub(crate) fn finish(&mut self, goal: Goal) -> Result<(), AllocError>
        ensures { OnOk result (progress_value self.new ≡ finished (progress_value self.old) goal) }
    {
        self.done.push(goal)?;
        Ok(())
    }

    /// What the pieces that were taken became waits, before the others.
    pub(crate) fn again(&mut self, parts: Parts) -> Result<(), AllocError>
        ensures { OnOk result (progress_value self.new ≡ again (progress_value self.old) (reverse parts.waiting.items) parts.just (used_value parts.used)) }
    {
        let Parts {
            waiting,
            just,
            used,
        } = parts;
        let mut waiting = waiting;
        self.just.then_at(self.done.len(), &just)?;
        self.waiting.append(&mut waiting)?;
        self.used = used;
        Ok(())
    }

    /// What was done, where nothing waits.
    pub(crate) fn end(self) -> Tried
        ensures goals { result.step.goals.items ≡ (progress_value self).done }
        ensures just { result.step.just ≡ (progress_value self).moves }
        ensures left { result.left ≡ (progress_value self).used.turns_left }
        ensures tested { result.tested.items ≡ (progress_value self).used.tested }
    {
        let Progress {
            done,
            just,
            used,
            ..
        } = self;
        let Used { left, tested } = used;
        Tried {
            step: Step { goals: done, just },
            left,
            tested,
        }
    }
}

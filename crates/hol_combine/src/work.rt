//! Goals that are gone through, with what was done to them so far.
ghost use Rattle.std.specs.Prelude.{◌≡◌, OnOk};
ghost use Rattle.hol_goal.specs.UsedView.{used_value};
ghost use Rattle.hol_combine.specs.RunView.{used_by};
ghost use Rattle.hol_combine.specs.Work.{work_value, started, IsNext, followed, finished, again, kept};

use crate::ran::Ran;
use hol_goal::{Goal, Used};
use hol_just::{Just, Step};
use std::alloc::{AllocError, Global};
use std::mem;

/// Goals that are gone through: those that are done, those that still wait, the moves that led to them, and what may still be used.
#[derive(Drop)]
pub(crate) struct Work {
    done: Vec<Goal>,
    // The first one last.
    waiting: Vec<Goal>,
    just: Just,
    used: Used,
}

impl Work {
    /// All goals that are left wait.
    pub(crate) fn new(alloc: Global, ran: Ran) -> Work
        ensures { work_value result ≡ started ran }
    {
        let Ran { step, left, tested } = ran;
        let Step { goals, just } = step;
        let mut waiting = goals;
        waiting.reverse();
        Work {
            done: Vec::new(alloc),
            waiting,
            just,
            used: Used { left, tested },
        }
    }

    /// Takes the first goal that waits, with what may still be used.
    pub(crate) fn next(&mut self, alloc: Global) -> Option<(Goal, Used)>
        ensures { IsNext (work_value self.old) (work_value self.new) result }
    {
        let goal = self.waiting.pop()?;
        let used = Used {
            left: self.used.left,
            tested: mem::replace(&mut self.used.tested, Vec::new(alloc)),
        };
        Some((goal, used))
    }

    // The moves of what was done to the goal that was taken come last. Where no goal is done and no move was made before, none is copied.
    fn follow(&mut self, just: Just) -> Result<(), AllocError>
        ensures { OnOk result (work_value self.new ≡ followed (work_value self.old) just) }
    {
        if self.done.is_empty() && self.just.moves().is_empty() {
            self.just = just;
            return Ok(());
        }
        self.just.then_at(self.done.len(), &just)
    }

    /// What was done to the goal that was taken is done.
    pub(crate) fn finish(&mut self, ran: Ran) -> Result<(), AllocError>
        ensures { OnOk result (work_value self.new ≡ finished (work_value self.old) ran.step.goals.items ran.step.just (used_by ran)) }
    {
        let Ran { step, left, tested } = ran;
        let Step { goals, just } = step;
        let mut goals = goals;
        self.follow(just)?;
        self.done.append(&mut goals)?;
        self.used = Used { left, tested };
        Ok(())
    }

    /// The goals that were left of the one that was taken wait, before the others.
    pub(crate) fn again(&mut self, ran: Ran) -> Result<(), AllocError>
        ensures { OnOk result (work_value self.new ≡ again (work_value self.old) ran.step.goals.items ran.step.just (used_by ran)) }
    {
        let Ran { step, left, tested } = ran;
        let Step { goals, just } = step;
        let mut goals = goals;
        self.follow(just)?;
        goals.reverse();
        self.waiting.append(&mut goals)?;
        self.used = Used { left, tested };
        Ok(())
    }

    /// The goal that was taken is done as it is.
    pub(crate) fn keep(&mut self, goal: Goal, used: Used) -> Result<(), AllocError>
        ensures { OnOk result (work_value self.new ≡ kept (work_value self.old) goal (used_value used)) }
    {
        self.done.push(goal)?;
        self.used = used;
        Ok(())
    }

    /// What was done, where no goal waits.
    pub(crate) fn end(self) -> Ran
        ensures goals { result.step.goals.items ≡ (work_value self).done }
        ensures just { result.step.just ≡ (work_value self).moves }
        ensures used { used_by result ≡ (work_value self).used }
    {
        let Work {
            done,
            just,
            used,
            ..
        } = self;
        let Used { left, tested } = used;
        Ran {
            step: Step { goals: done, just },
            left,
            tested,
        }
    }
}

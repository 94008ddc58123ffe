//! Goal stacks.
ghost use Rattle.std.specs.Prelude.{◌≡◌, ◌≢◌, ◌++◌, [], IfOk, OnOk, OnErr, drop, length};
ghost use Rattle.std.specs.FinSet as set;
ghost use Rattle.hol_kernel.specs.Extends.{Agree};
ghost use Rattle.hol_kernel.specs.Items.{IsSubset, no_items};
ghost use Rattle.hol_goal.specs.Achieves.{IsTyped};
ghost use Rattle.hol_stack.specs.StackValue.{begun, followed, stepped, rotated, turned};
ghost use Rattle.hol_stack.specs.Calls.{IsStep, Undoes, Rotates, Finishes};
ghost use Rattle.hol_stack.specs.Sound.{Follows};

use crate::element::{Change, Earlier, Element};
use crate::error::StackError;
use crate::finishing::theorem;
use crate::shared_step::SharedStep;
use crate::weight::Weight;
use hol_goal::Goal;
use hol_kernel::{Basis, Thm};
use std::alloc::{AllocError, Global};
use std::marker::Model;
use std::{mem, slice};

/// A goal stack: the goal that it was set to, and its history. Of the earlier elements the newest stands last.
#[derive(Drop)]
pub struct Stack {
    goal: Goal,
    newest: Element,
    earlier: Vec<Earlier>,
}

impl Model for Stack {
    ghost use Rattle.std.specs.Prelude.{map, reverse};
    ghost use Rattle.hol_stack.specs.StackValue.{StackValue};
    ghost use Rattle.hol_stack.specs.Codes.{stack_code};
    ghost use Rattle.hol_stack.specs.Sound.{AreSound};

    ghost Value = { StackValue };

    ghost coded = { stack_code };

    ghost view = { λ s. record { goal = s.goal; newest = s.newest; earlier = map (λ one. one.step) (reverse s.earlier.items) } };

    ghost invariant = { λ s. AreSound s.goal s.newest (reverse s.earlier.items) };
}

impl Stack {
    /// The stack of one open goal, which has no assumptions (tactics.ml, set_goal).
    pub fn set(alloc: Global, goal: Goal, basis: Basis) -> Result<Stack, AllocError>
        requires typed { IsTyped basis goal }
        requires plain { goal.assumptions ≡ [] }
        ensures { IfOk result (λ stack. stack ≡ begun goal basis) }
    {
        let first = goal.copy()?;
        let newest = Element::first(alloc, first, basis)?;
        Ok(Stack {
            goal,
            newest,
            earlier: Vec::new(alloc),
        })
    }

    /// The goal that it was set to.
    pub fn goal(&self) -> &Goal
        ensures { result.now ≡ self.now.goal }
    {
        &self.goal
    }

    /// The open goals, in order.
    pub fn goals(&self) -> &[Goal]
        ensures { result.now ≡ self.now.newest.goals }
    {
        self.newest.goals()
    }

    /// The basis of all that was resolved.
    pub fn basis(&self) -> &Basis
        ensures { result.now ≡ self.now.newest.basis }
    {
        self.newest.basis()
    }

    /// The newest element of the history.
    pub fn newest(&self) -> &Element
        ensures { result.now ≡ self.now.newest }
    {
        &self.newest
    }

    /// How many elements of the history stand before the newest one.
    pub fn steps(&self) -> usize
        ensures { result ≡ length self.now.earlier }
    {
        self.earlier.len()
    }

    /// The goals that the step left of the first one stand in its place, in a new element of the history (tactics.ml, e). The basis is joined with what was
    /// resolved for that.
    pub fn apply(
        &mut self,
        alloc: Global,
        step: &SharedStep,
        basis: &Basis,
    ) -> Result<(), AllocError>
        requires joins { Agree self.old.newest.basis basis.now }
        requires step { IsStep (set.union self.old.newest.basis basis.now) step.now.moves step.now.goals self.old.newest.goals }
        ensures ok { OnOk result (self.new ≡ stepped step.now.goals basis.now self.old) }
        ensures err { OnErr result (self.new ≡ self.old) }
    {
        let next = self.newest.replaced(alloc, step.goals(), basis)?;
        let own = step.copy()?;
        self.follow(Change::Left(own), next)
    }

    /// The same by an element that is there already: no goal is copied and no basis is joined.
    pub fn follow_with(&mut self, step: &SharedStep, next: &Element) -> Result<(), AllocError>
        requires within { IsSubset self.old.newest.basis next.now.basis }
        requires step { IsStep next.now.basis step.now.moves step.now.goals self.old.newest.goals }
        requires goals { next.now.goals ≡ step.now.goals ++ drop 1 self.old.newest.goals }
        ensures ok { OnOk result (self.new ≡ followed next.now self.old) }
        ensures err { OnErr result (self.new ≡ self.old) }
    {
        let own = step.copy()?;
        let element = next.copy()?;
        self.follow(Change::Left(own), element)
    }

    /// The element before the newest one is the newest again (tactics.ml, b).
    ///
    /// Refused by [`StackError::NothingToUndo`] where there is none.
    pub fn back(&mut self) -> Result<(), StackError>
        ensures { Undoes self.old self.new result }
    {
        let Some(one) = self.earlier.pop() else {
            return Err(StackError::NothingToUndo);
        };
        self.newest = one.step;
        Ok(())
    }

    /// The first goal is put last, so many times, in a new element of the history (tactics.ml, r).
    ///
    /// Refused by [`StackError::NoGoal`] where no goal is open.
    pub fn rotate(&mut self, alloc: Global, times: usize) -> Result<(), StackError>
        ensures { Rotates times self.old self.new result }
    {
        let open = self.goals().len();
        if open == 0 {
            return Err(StackError::NoGoal);
        }
        let by = times % open;
        let next = self.newest.turned(alloc, by)?;
        Ok(self.follow(Change::Turned(by), next)?)
    }

    /// The same by an element that is there already.
    #[tactic(auto, using(crate::proofs::Elements::some_open))]
    pub fn rotate_with(&mut self, times: usize, next: &Element) -> Result<(), AllocError>
        requires open { self.old.newest.goals ≢ [] }
        requires turned { next.now ≡ record { goals = turned times self.old.newest.goals; basis = self.old.newest.basis } }
        ensures ok { OnOk result (self.new ≡ rotated times self.old) }
        ensures err { OnErr result (self.new ≡ self.old) }
    {
        let open = self.goals().len();
        let by = times % open;
        let element = next.copy()?;
        self.follow(Change::Turned(by), element)
    }

    /// The theorem of the goal that it was set to, on the newest element's basis (tactics.ml, top_thm).
    ///
    /// Refused by [`StackError::GoalsRemain`] where a goal is open.
    pub fn finish(&self, alloc: Global) -> Result<Thm, StackError>
        ensures { Finishes self.now result }
    {
        if !self.goals().is_empty() {
            return Err(StackError::GoalsRemain);
        }
        Ok(theorem(alloc, &self.goal, self.earlier.as_slice(), &self.newest)?)
    }

    /// How much it holds, in nodes of terms, up to 2^32 - 1: its goal, the steps of its history and the bases. What it shares counts too.
    pub fn weight(&self) -> u32 {
        let mut weight = Weight::none();
        weight.add_goals(slice::from_ref(&self.goal));
        weight.add_basis(self.basis());
        for one in self.earlier.as_slice() {
            weight.add_earlier(one);
        }
        weight.nodes()
    }

    /// An equal stack.
    pub fn copy(&self, alloc: Global) -> Result<Stack, AllocError>
        ensures { IfOk result (λ stack. stack ≡ self.now) }
    {
        let goal = self.goal.copy()?;
        let newest = self.newest.copy()?;
        let earlier = copies(alloc, self.earlier.as_slice())?;
        Ok(Stack {
            goal,
            newest,
            earlier,
        })
    }

    // A new element of the history, made of the newest one.
    fn follow(&mut self, change: Change, next: Element) -> Result<(), AllocError>
        requires { Follows self.old.newest change next }
        ensures ok { OnOk result (self.new ≡ followed next self.old) }
        ensures err { OnErr result (self.new ≡ self.old) }
    {
        self.earlier.reserve(1)?;
        let step = mem::replace(&mut self.newest, next);
        self.earlier.push_reserved(Earlier { step, change });
        Ok(())
    }
}

// Copies of the elements.
fn copies(alloc: Global, earlier: &[Earlier]) -> Result<Vec<Earlier>, AllocError>
    ensures { IfOk result (λ copied. copied.items ≡ earlier.now) }
{
    let mut copied = Vec::with_capacity(alloc, earlier.len())?;
    for one in earlier {
        copied.push(one.copy()?)?;
    }
    Ok(copied)
}

//! Elements of a history.
ghost use Rattle.std.specs.Prelude.{◌≡◌, ◌≤◌, ◌++◌, ◌∷◌, [], length, drop, take, IfOk};
ghost use Rattle.std.specs.FinSet as set;
ghost use Rattle.hol_kernel.specs.Extends.{Agree};

use crate::basis::joined;
use crate::shared_step::SharedStep;
use hol_goal::{Goal, add_copies, copies};
use hol_kernel::Basis;
use std::alloc::{AllocError, Global};
use std::marker::Model;
use std::rc::Rc;

/// An element of a history: the open goals, and the basis of all that was resolved so far. Its copies share it.
#[derive(Drop)]
pub struct Element {
    shared: Rc<ElementShared>,
}

// What the copies of an element share.
#[derive(Drop)]
struct ElementShared {
    goals: Vec<Goal>,
    basis: Basis,
}

impl Model for Element {
    ghost use Rattle.hol_stack.specs.StackValue.{StepValue};
    ghost use Rattle.hol_stack.specs.Codes.{step_code};

    ghost Value = { StepValue };

    ghost coded = { step_code };

    ghost view = { λ e. record { goals = e.shared.value.goals.items; basis = e.shared.value.basis } };
}

/// How an element was made of the one before it.
#[derive(Drop)]
pub(crate) enum Change {
    /// By a step, which left the first goal's goals in its place.
    Left(SharedStep),
    /// By so many of the first goals put last.
    Turned(usize),
}

/// An element that is not the newest, and how the next one was made of it.
#[derive(Drop)]
pub(crate) struct Earlier {
    /// The element.
    pub(crate) step: Element,
    /// How the next one was made.
    pub(crate) change: Change,
}

impl Element {
    // The element of these goals and this basis.
    fn made(alloc: Global, goals: Vec<Goal>, basis: Basis) -> Result<Element, AllocError>
        ensures { IfOk result (λ element. element ≡ record { goals = goals.items; basis = basis }) }
    {
        Ok(Element {
            shared: Rc::new(alloc, ElementShared { goals, basis })?,
        })
    }

    /// The element of one goal.
    pub(crate) fn first(alloc: Global, goal: Goal, basis: Basis) -> Result<Element, AllocError>
        ensures { IfOk result (λ element. element ≡ record { goals = goal ∷ []; basis = basis }) }
    {
        let mut goals = Vec::new(alloc);
        goals.push(goal)?;
        Element::made(alloc, goals, basis)
    }

    /// The open goals, in order.
    pub fn goals(&self) -> &[Goal]
        ensures { result.now ≡ self.now.goals }
    {
        &self.shared.goals
    }

    /// The basis.
    pub fn basis(&self) -> &Basis
        ensures { result.now ≡ self.now.basis }
    {
        &self.shared.basis
    }

    /// The goals in the place of the first, over the joined basis.
    pub(crate) fn replaced(
        &self,
        alloc: Global,
        left: &[Goal],
        basis: &Basis,
    ) -> Result<Element, AllocError>
        requires { Agree self.now.basis basis.now }
        ensures { IfOk result (λ element. element ≡ record { goals = left.now ++ drop 1 self.now.goals; basis = set.union self.now.basis basis.now }) }
    {
        let mut goals = copies(alloc, left)?;
        if let [_, rest @ ..] = self.goals() {
            add_copies(&mut goals, rest)?;
        }
        let basis = joined(alloc, self.basis(), basis)?;
        Element::made(alloc, goals, basis)
    }

    /// So many of the first goals put last, over the same basis.
    pub(crate) fn turned(&self, alloc: Global, by: usize) -> Result<Element, AllocError>
        requires { by ≤ length self.now.goals }
        ensures { IfOk result (λ element. element ≡ record self.now { goals = drop by self.now.goals ++ take by self.now.goals }) }
    {
        let mut goals = Vec::new(alloc);
        add_copies(&mut goals, &self.goals()[by..])?;
        add_copies(&mut goals, &self.goals()[..by])?;
        Element::made(alloc, goals, self.basis().copy()?)
    }

    /// The same element.
    /// An error says that no count is left for one more copy.
    pub fn copy(&self) -> Result<Element, AllocError>
        ensures { IfOk result (λ element. element ≡ self.now) }
    {
        Ok(Element {
            shared: self.shared.clone()?,
        })
    }
}

impl Change {
    /// An equal change.
    pub(crate) fn copy(&self) -> Result<Change, AllocError>
        ensures { IfOk result (λ change. change ≡ self.now) }
    {
        Ok(match self {
            Change::Left(step) => Change::Left(step.copy()?),
            Change::Turned(by) => Change::Turned(*by),
        })
    }
}

impl Earlier {
    /// An equal element.
    pub(crate) fn copy(&self) -> Result<Earlier, AllocError>
        ensures { IfOk result (λ one. one ≡ self.now) }
    {
        Ok(Earlier {
            step: self.step.copy()?,
            change: self.change.copy()?,
        })
    }
}

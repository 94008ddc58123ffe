//! Open proofs.
ghost use Rattle.std.specs.Prelude.{◌≡◌, ◌≢◌, [], OnOk, OnErr, IfOk, Some, length, string_bytes};
ghost use Rattle.hol_terms.specs.Named.{named_type};
ghost use Rattle.hol_terms.specs.Nameless.{nameless};
ghost use Rattle.hol_formulas.specs.Equation.{bool_type};
ghost use Rattle.hol_exec.specs.OutcomeValue.{opened, stepped, without_newest, rotated};
ghost use Rattle.hol_exec.specs.Valid.{IsStatement, CanStep};

use hol_goal::Goal;
use hol_kernel::Basis;
use hol_stack::{Element, SharedStep, Stack, StackError};
use hol_terms::Term;
use std::alloc::{AllocError, Global};
use std::marker::Model;

/// An open proof: the name that it was opened with, and the stack of its statement.
#[derive(Drop)]
pub(crate) struct Proof {
    name: String,
    stack: Stack,
}

impl Model for Proof {
    ghost use Rattle.std.specs.Prelude.{string_bytes};
    ghost use Rattle.hol_exec.specs.StateValue.{ProofValue};
    ghost use Rattle.hol_exec.specs.Codes.{coded_proof};

    ghost Value = { ProofValue };

    ghost coded = { coded_proof };

    ghost view = { λ p. record { name = string_bytes p.name; statement = p.stack.goal.conclusion; newest = p.stack.newest; earlier = p.stack.earlier } };
}

impl Proof {
    /// A proof of a statement, which is its one open goal.
    #[tactic(auto, using(crate::proofs::Statements::formula_of, crate::proofs::Statements::goal_typed, crate::proofs::Statements::goal_plain))]
    pub(crate) fn begin(
        alloc: Global,
        name: &str,
        statement: &Term,
        basis: &Basis,
    ) -> Result<Proof, AllocError>
        requires { IsStatement basis.now (nameless [] statement.now) }
        ensures { IfOk result (λ p. p ≡ opened name.now (nameless [] statement.now) basis.now) }
    {
        let name = String::from_str(alloc, name)?;
        let goal = stated(alloc, statement)?;
        let stack = Stack::set(alloc, goal, basis.copy()?)?;
        Ok(Proof { name, stack })
    }

    /// An equal proof, which shares the elements of the history.
    pub(crate) fn copy(&self, alloc: Global) -> Result<Proof, AllocError>
        ensures { IfOk result (λ p. p ≡ self.now) }
    {
        let name = String::from_str(alloc, self.name.as_str())?;
        let stack = self.stack.copy(alloc)?;
        Ok(Proof { name, stack })
    }

    /// The theorem's name.
    pub(crate) fn name(&self) -> &str
        ensures { result.now ≡ self.now.name }
    {
        self.name.as_str()
    }

    /// The stack.
    pub(crate) fn stack(&self) -> &Stack
        ensures goal { result.now.goal.conclusion ≡ self.now.statement }
        ensures newest { result.now.newest ≡ self.now.newest }
    {
        &self.stack
    }

    /// The open goals, in order.
    pub(crate) fn goals(&self) -> &[Goal]
        ensures { result.now ≡ self.now.newest.goals }
    {
        self.stack.goals()
    }

    /// The goals that the step left stand in the place of the first goal, in a new element of the history; the basis is joined with what was resolved.
    pub(crate) fn step(
        &mut self,
        alloc: Global,
        step: &SharedStep,
        basis: &Basis,
    ) -> Result<(), AllocError>
        requires { CanStep basis.now step.now.moves step.now.goals self.old }
        ensures ok { OnOk result (self.new ≡ stepped step.now.goals basis.now self.old) }
        ensures err { OnErr result (self.new ≡ self.old) }
    {
        self.stack.apply(alloc, step, basis)
    }

    /// The same by an element that is there already.
    pub(crate) fn step_with(
        &mut self,
        step: &SharedStep,
        basis: &Basis,
        next: &Element,
    ) -> Result<(), AllocError>
        requires step { CanStep basis.now step.now.moves step.now.goals self.old }
        requires next { next.now ≡ (stepped step.now.goals basis.now self.old).newest }
        ensures ok { OnOk result (self.new ≡ stepped step.now.goals basis.now self.old) }
        ensures err { OnErr result (self.new ≡ self.old) }
    {
        let _ = basis;
        self.stack.follow_with(step, next)
    }

    /// The newest element of the history.
    pub(crate) fn newest(&self) -> &Element
        ensures { result.now ≡ self.now.newest }
    {
        self.stack.newest()
    }

    /// How many elements of the history stand before the newest one.
    pub(crate) fn steps(&self) -> usize
        ensures { result ≡ length self.now.earlier }
    {
        self.stack.steps()
    }

    /// The newest element of the history is dropped, if there is one before it.
    pub(crate) fn back(&mut self)
        ensures { self.new ≡ without_newest self.old self.old.earlier }
    {
        let _ = self.stack.back();
    }

    /// The first goal is put last, so many times, in a new element of the history.
    pub(crate) fn rotate(&mut self, alloc: Global, times: usize) -> Result<(), AllocError>
        requires { self.old.newest.goals ≢ [] }
        ensures ok { OnOk result (self.new ≡ rotated times self.old) }
        ensures err { OnErr result (self.new ≡ self.old) }
    {
        match self.stack.rotate(alloc, times) {
            Ok(()) => Ok(()),
            Err(StackError::Memory) => Err(AllocError),
            Err(StackError::NoGoal) => unreachable!(),
            Err(StackError::NothingToUndo) => unreachable!(),
            Err(StackError::GoalsRemain) => unreachable!(),
        }
    }

    /// The same by an element that is there already.
    pub(crate) fn rotate_with(&mut self, times: usize, next: &Element) -> Result<(), AllocError>
        requires open { self.old.newest.goals ≢ [] }
        requires next { next.now ≡ (rotated times self.old).newest }
        ensures ok { OnOk result (self.new ≡ rotated times self.old) }
        ensures err { OnErr result (self.new ≡ self.old) }
    {
        self.stack.rotate_with(times, next)
    }
}

// The goal of a statement, without assumptions.
fn stated(alloc: Global, statement: &Term) -> Result<Goal, AllocError>
    requires { named_type statement.now ≡ Some bool_type }
    ensures { IfOk result (λ g. g ≡ record { assumptions = []; conclusion = nameless [] statement.now }) }
{
    Goal::new(alloc, Vec::new(alloc), statement.copy()?)
}

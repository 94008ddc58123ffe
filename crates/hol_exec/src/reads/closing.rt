//! What the end of a proof reads of it.
ghost use Rattle.std.specs.Prelude.{◌≡◌, ◌↔◌, [], IsTrue, IfOk, Some};
ghost use Rattle.hol_terms.specs.Nameless.{nameless};
ghost use Rattle.hol_kernel.specs.Sequent.{no_hyps};
ghost use Rattle.hol_kernel.specs.Theorem.{theorem_over};
ghost use Rattle.hol_exec.specs.ReadsValue.{ClosingValue, closing_of};

use crate::reads::same::Same;
use crate::state::Proof;
use hol_kernel::{Basis, Thm};
use hol_stack::{Stack, StackError};
use hol_terms::Term;
use hol_theory::same_basis;
use std::alloc::{AllocError, Global};
use std::marker::Model;

/// What the end of a proof reads of it: its name, statement and basis, and how many goals are open. It keeps why the goals are all that is left.
#[derive(Drop)]
pub(crate) struct Closing {
    name: String,
    stack: Stack,
}

impl Model for Closing {
    ghost use Rattle.std.specs.Prelude.{string_bytes, length};
    ghost use Rattle.hol_exec.specs.ReadsValue.{ClosingValue};
    ghost use Rattle.hol_exec.specs.Codes.{coded_closing};

    ghost Value = { ClosingValue };

    ghost coded = { coded_closing };

    ghost view = { λ c. record { name = string_bytes c.name; statement = c.stack.goal.conclusion; basis = c.stack.newest.basis; open_goals = length c.stack.newest.goals } };
}

impl Same for Closing {
    fn same_as(&self, other: &Closing) -> bool {
        self.name.as_str() == other.name.as_str()
            && self.statement().same(other.statement())
            && same_basis(self.basis(), other.basis())
            && self.open_goals() == other.open_goals()
    }
}

impl Closing {
    /// What the end of the proof reads of it.
    pub(crate) fn of(alloc: Global, proof: &Proof) -> Result<Closing, AllocError>
        ensures { IfOk result (λ c. closing_of (Some proof.now) ≡ Some c) }
    {
        Ok(Closing {
            name: String::from_str(alloc, proof.name())?,
            stack: proof.stack().copy(alloc)?,
        })
    }

    /// Whether it is what the end of the proof reads of it. It takes no memory.
    pub(crate) fn is_of(&self, proof: &Proof) -> bool
        ensures { IsTrue result ↔ (closing_of (Some proof.now) ≡ Some self.now) }
    {
        let stack = proof.stack();
        self.name.as_str() == proof.name()
            && self.statement().same(stack.goal().conclusion())
            && same_basis(self.basis(), stack.basis())
            && self.open_goals() == stack.goals().len()
    }

    /// The theorem's name.
    pub(crate) fn name(&self) -> &str
        ensures { result.now ≡ self.now.name }
    {
        self.name.as_str()
    }

    /// How much it holds, in nodes of terms, up to 2^32 - 1: the proof's history.
    pub(crate) fn weight(&self) -> u32 {
        self.stack.weight()
    }

    /// The statement.
    pub(crate) fn statement(&self) -> &Term
        ensures { nameless [] result.now ≡ self.now.statement }
    {
        self.stack.goal().conclusion()
    }

    /// The proof's basis.
    pub(crate) fn basis(&self) -> &Basis
        ensures { result.now ≡ self.now.basis }
    {
        self.stack.basis()
    }

    /// How many goals are open.
    pub(crate) fn open_goals(&self) -> usize
        ensures { result ≡ self.now.open_goals }
    {
        self.stack.goals().len()
    }

    /// The theorem of the statement, without hypotheses, on the proof's basis.
    #[tactic(auto, using(crate::proofs::Steps::none_open))]
    pub(crate) fn theorem(&self, alloc: Global) -> Result<Thm, AllocError>
        requires { self.now.open_goals ≡ 0 }
        ensures { IfOk result (λ th. th ≡ theorem_over self.now.basis no_hyps self.now.statement) }
    {
        match self.stack.finish(alloc) {
            Ok(theorem) => Ok(theorem),
            Err(StackError::Memory) => Err(AllocError),
            Err(StackError::NothingToUndo) => unreachable!(),
            Err(StackError::NoGoal) => unreachable!(),
            Err(StackError::GoalsRemain) => unreachable!(),
        }
    }
}

//! The state of a theory while it is run.
ghost use Rattle.std.specs.Prelude.{◌≡◌, ◌≢◌, ◌++◌, IfOk, OnOk, OnErr, IfSome, Some, None, [], option_copied};
ghost use Rattle.std.specs.List.{IsDistinct};
ghost use Rattle.std.specs.Map.{keys_of};
ghost use Rattle.hol_kernel.specs.Items.{IsSubset};
ghost use Rattle.hol_theory.specs.Adding.{AreNew, CanFollow};
ghost use Rattle.hol_theory.specs.Entry.{entry_at};
ghost use Rattle.hol_theory.specs.Key.{key_eq, theorem_key};
ghost use Rattle.hol_theory.specs.Theory.{items_in, IsTheory};
ghost use Rattle.hol_exec.specs.StateValue.{StateValue, start, open_goals, newest_of};
ghost use Rattle.hol_exec.specs.OutcomeValue.{stepped, stepped_in, undone_in, rotated, rotated_in};
ghost use Rattle.hol_exec.specs.Valid.{CanStep, IsFreeFor, IsProofWithin};

mod new_entries;
mod proof;

use hol_goal::Goal;
use hol_kernel::Basis;
use hol_stack::{Element, SharedStep};
use hol_theory::{Env, Key, Value};
pub(crate) use new_entries::NewEntries;
pub(crate) use proof::Proof;
use std::alloc::{AllocError, Global};
use std::marker::Model;

/// The state of a theory while it is run: its entries, and at most one open proof, under whose name no theorem stands, and which rests on items of the entries.
#[derive(Drop)]
pub struct State {
    env: Env,
    proof: Option<Proof>,
}

impl Model for State {
    ghost use Rattle.hol_exec.specs.StateValue.{StateValue};
    ghost use Rattle.hol_exec.specs.Codes.{coded_state};
    ghost use Rattle.hol_exec.specs.Valid.{IsFreeFor, IsProofWithin};

    ghost Value = { StateValue };

    ghost coded = { coded_state };

    ghost view = { λ s. record { entries = s.env; proof = s.proof } };

    ghost invariant = { λ s. IsFreeFor s.env s.proof × IsProofWithin s.env s.proof };
}

impl State {
    /// The state that a theory starts from: the prelude alone, and no proof.
    pub fn new(alloc: Global) -> State
        ensures { result ≡ start }
    {
        State {
            env: Env::new(alloc),
            proof: None,
        }
    }

    /// The same state, to go on from apart from this one. It shares all but the newest entries, and the elements of the open proof's history.
    pub fn checkpoint(&self, alloc: Global) -> Result<State, AllocError>
        ensures { IfOk result (λ s. s ≡ self.now) }
    {
        let env = self.env.checkpoint()?;
        match &self.proof {
            Some(proof) => Ok(State {
                env,
                proof: Some(proof.copy(alloc)?),
            }),
            None => Ok(State { env, proof: None }),
        }
    }

    /// Its entries.
    pub fn env(&self) -> &Env
        ensures { result.now ≡ self.now.entries }
    {
        &self.env
    }

    /// What stands under the key.
    pub fn entry(&self, key: &Key) -> Option<&Value>
        ensures { option_copied result ≡ entry_at key.now self.now.entries }
    {
        self.env.get(key)
    }

    /// The open proof.
    pub(crate) fn proof(&self) -> Option<&Proof>
        ensures { option_copied result ≡ self.now.proof }
    {
        self.proof.as_ref()
    }

    /// The open goals, in order.
    pub(crate) fn goals(&self) -> &[Goal]
        ensures { result.now ≡ open_goals self.now.proof }
    {
        match self.proof() {
            Some(proof) => proof.goals(),
            None => &[],
        }
    }

    /// The newest element of the open proof's history.
    pub fn newest(&self) -> Result<Option<Element>, AllocError>
        ensures { IfOk result (λ element. element ≡ newest_of self.now.proof) }
    {
        match self.proof() {
            Some(proof) => Ok(Some(proof.newest().copy()?)),
            None => Ok(None),
        }
    }

    /// Its entries are a theory, and no two of them have one key; under the name of the open proof no theorem stands, and it rests on items of the entries.
    pub fn promise(&self)
        ensures theory { IsTheory self.now.entries }
        ensures keys { IsDistinct key_eq (keys_of self.now.entries) }
        ensures free { IsFreeFor self.now.entries self.now.proof }
        ensures within { IsProofWithin self.now.entries self.now.proof }
    {
        self.env.promise();
    }

    /// Opens the proof, in the place of one that is open.
    pub(crate) fn begin(&mut self, proof: Proof)
        requires free { entry_at (theorem_key proof.name) self.old.entries ≡ None }
        requires within { IsProofWithin self.old.entries (Some proof) }
        ensures { self.new ≡ record { entries = self.old.entries; proof = Some proof } }
    {
        self.proof = Some(proof);
    }

    /// The goals that the step left stand in the place of the open proof's first goal.
    #[tactic(auto, using(crate::proofs::Entries::step_within))]
    pub(crate) fn step(
        &mut self,
        alloc: Global,
        step: &SharedStep,
        basis: &Basis,
    ) -> Result<(), AllocError>
        requires step { IfSome self.old.proof (CanStep basis.now step.now.moves step.now.goals) }
        requires within { IsSubset basis.now (items_in self.old.entries) }
        ensures ok { OnOk result (self.new ≡ record { entries = self.old.entries; proof = stepped_in step.now.goals basis.now self.old.proof }) }
        ensures err { OnErr result (self.new ≡ self.old) }
    {
        match &mut self.proof {
            Some(proof) => proof.step(alloc, step, basis),
            None => Ok(()),
        }
    }

    /// The same by an element that is there already.
    #[tactic(auto, using(crate::proofs::Entries::step_within))]
    pub(crate) fn step_with(
        &mut self,
        step: &SharedStep,
        basis: &Basis,
        next: &Element,
    ) -> Result<(), AllocError>
        requires step { IfSome self.old.proof (CanStep basis.now step.now.moves step.now.goals) }
        requires within { IsSubset basis.now (items_in self.old.entries) }
        requires next { IfSome self.old.proof (λ p. next.now ≡ (stepped step.now.goals basis.now p).newest) }
        ensures ok { OnOk result (self.new ≡ record { entries = self.old.entries; proof = stepped_in step.now.goals basis.now self.old.proof }) }
        ensures err { OnErr result (self.new ≡ self.old) }
    {
        match &mut self.proof {
            Some(proof) => proof.step_with(step, basis, next),
            None => Ok(()),
        }
    }

    /// Drops the newest element of the open proof's history, if there is one before it.
    #[tactic(auto, using(crate::proofs::Free::free_undone, crate::proofs::Entries::back_within))]
    pub(crate) fn back(&mut self)
        ensures { self.new ≡ record { entries = self.old.entries; proof = undone_in self.old.proof } }
    {
        if let Some(proof) = &mut self.proof {
            proof.back();
        }
    }

    /// Puts the open proof's first goal last, so many times.
    #[tactic(auto, using(crate::proofs::Entries::rotate_within))]
    pub(crate) fn rotate(&mut self, alloc: Global, times: usize) -> Result<(), AllocError>
        requires { IfSome self.old.proof (λ p. p.newest.goals ≢ []) }
        ensures ok { OnOk result (self.new ≡ record { entries = self.old.entries; proof = rotated_in times self.old.proof }) }
        ensures err { OnErr result (self.new ≡ self.old) }
    {
        match &mut self.proof {
            Some(proof) => proof.rotate(alloc, times),
            None => Ok(()),
        }
    }

    /// The same by an element that is there already.
    #[tactic(auto, using(crate::proofs::Entries::rotate_within))]
    pub(crate) fn rotate_with(&mut self, times: usize, next: &Element) -> Result<(), AllocError>
        requires open { IfSome self.old.proof (λ p. p.newest.goals ≢ []) }
        requires next { IfSome self.old.proof (λ p. next.now ≡ (rotated times p).newest) }
        ensures ok { OnOk result (self.new ≡ record { entries = self.old.entries; proof = rotated_in times self.old.proof }) }
        ensures err { OnErr result (self.new ≡ self.old) }
    {
        match &mut self.proof {
            Some(proof) => proof.rotate_with(times, next),
            None => Ok(()),
        }
    }

    /// Makes the entries and drops the proof.
    pub(crate) fn make(&mut self, entries: &NewEntries) -> Result<(), AllocError>
        requires new { AreNew self.old.entries entries.now }
        requires follow { CanFollow self.old.entries entries.now }
        ensures ok { OnOk result (self.new ≡ record { entries = self.old.entries ++ entries.now; proof = None }) }
        ensures err { OnErr result (self.new ≡ self.old) }
    {
        entries.add_to(&mut self.env)?;
        self.proof = None;
        Ok(())
    }
}

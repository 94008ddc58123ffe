//! Slots.
ghost use Rattle.std.specs.Prelude.{◌≡◌, IfOk, IfSome, None};
ghost use Rattle.std.specs.Option.{option_map};

use crate::line::Line;
use hol_exec::{Element, Outcome, Reads, State, Tested};
use std::alloc::{AllocError, Global};
use std::marker::Model;
use std::rc::Rc;

/// A command that stands: its text, what it read of the state, which names of constants were tested, what it came to, and the newest element of the open proof's history
/// after it; and the state before it, where that is kept, so that an edit behind it may begin there.
#[derive(Drop)]
pub(crate) struct Slot {
    line: Rc<Line>,
    reads: Option<Rc<Reads>>,
    tested: Rc<Tested>,
    outcome: Rc<Outcome>,
    opened: Option<Element>,
    kept: Option<State>,
}

impl Model for Slot {
    ghost use Rattle.std.specs.Option.{option_map};
    ghost use Rattle.std.specs.Coded.{codes};
    ghost use Rattle.hol_exec.specs.CommandCode.{coded_command};
    ghost use Rattle.hol_stack.specs.Codes.{step_code};
    ghost use Rattle.hol_exec.specs.Codes.{coded_reads, coded_tested, coded_outcome, coded_state};
    ghost use Rattle.hol_document.specs.Slots.{SlotValue};

    ghost Value = { SlotValue };

    ghost coded = { Prim.hlevel (codes, coded_command, coded_reads, coded_tested, coded_outcome, step_code, coded_state) };

    ghost view = { λ s. record { text = s.line.value.text; row = record { value = s.line.value.value; reads = option_map (λ r. r.value) s.reads; tested = s.tested.value; outcome = s.outcome.value }; opened = s.opened; kept = s.kept } };
}

impl Slot {
    /// The slot of these.
    pub(crate) fn new(
        line: Rc<Line>,
        reads: Option<Rc<Reads>>,
        tested: Rc<Tested>,
        outcome: Rc<Outcome>,
        opened: Option<Element>,
        kept: Option<State>,
    ) -> Slot
        ensures { result ≡ record { text = line.value.text; row = record { value = line.value.value; reads = option_map (λ r. r.value) reads; tested = tested.value; outcome = outcome.value }; opened = opened; kept = kept } }
    {
        Slot {
            line,
            reads,
            tested,
            outcome,
            opened,
            kept,
        }
    }

    /// The same, which keeps this state.
    fn keeping(&self, kept: Option<State>) -> Result<Slot, AllocError>
        ensures { IfOk result (λ new. new ≡ record { text = self.now.text; row = self.now.row; opened = self.now.opened; kept = kept }) }
    {
        let Slot {
            line,
            reads,
            tested,
            outcome,
            opened,
            ..
        } = self.bare()?;
        Ok(Slot::new(line, reads, tested, outcome, opened, kept))
    }

    // The same, which keeps no state.
    fn bare(&self) -> Result<Slot, AllocError>
        ensures { IfOk result (λ new. new ≡ record { text = self.now.text; row = self.now.row; opened = self.now.opened; kept = None }) }
    {
        let line = self.line.clone()?;
        let tested = self.tested.clone()?;
        let outcome = self.outcome.clone()?;
        let reads = self.shared_reads()?;
        let opened = self.shared_opened()?;
        Ok(Slot::new(line, reads, tested, outcome, opened, None))
    }

    /// What it read of the state, to share.
    pub(crate) fn shared_reads(&self) -> Result<Option<Rc<Reads>>, AllocError>
        ensures { IfOk result (λ reads. option_map (λ r. r.value) reads ≡ self.now.row.reads) }
    {
        match &self.reads {
            Some(reads) => Ok(Some(reads.clone()?)),
            None => Ok(None),
        }
    }

    // The newest element of the open proof's history after it, to share.
    fn shared_opened(&self) -> Result<Option<Element>, AllocError>
        ensures { IfOk result (λ opened. opened ≡ self.now.opened) }
    {
        match &self.opened {
            Some(opened) => Ok(Some(opened.copy()?)),
            None => Ok(None),
        }
    }

    /// Its text.
    pub(crate) fn line(&self) -> &Rc<Line>
        ensures text { result.now.value.text ≡ self.now.text }
        ensures value { result.now.value.value ≡ self.now.row.value }
    {
        &self.line
    }

    /// What it read of the state.
    pub(crate) fn reads(&self) -> &Option<Rc<Reads>>
        ensures { option_map (λ r. r.value) result.now ≡ self.now.row.reads }
    {
        &self.reads
    }

    /// Which names of constants were tested.
    pub(crate) fn tested(&self) -> &Rc<Tested>
        ensures { result.now.value ≡ self.now.row.tested }
    {
        &self.tested
    }

    /// What it came to.
    pub(crate) fn outcome(&self) -> &Rc<Outcome>
        ensures { result.now.value ≡ self.now.row.outcome }
    {
        &self.outcome
    }

    /// The newest element of the open proof's history after it.
    pub(crate) fn opened(&self) -> &Option<Element>
        ensures { result.now ≡ self.now.opened }
    {
        &self.opened
    }

    /// The state before it, where that is kept.
    pub(crate) fn kept(&self) -> &Option<State>
        ensures { result.now ≡ self.now.kept }
    {
        &self.kept
    }
}

/// The slot, which keeps this state.
pub(crate) fn keeping(
    alloc: Global,
    slot: &Rc<Slot>,
    kept: Option<State>,
) -> Result<Rc<Slot>, AllocError>
    ensures text { IfOk result (λ new. new.value.text ≡ slot.now.value.text) }
    ensures row { IfOk result (λ new. new.value.row ≡ slot.now.value.row) }
    ensures opened { IfOk result (λ new. new.value.opened ≡ slot.now.value.opened) }
    ensures kept { IfOk result (λ new. new.value.kept ≡ kept) }
{
    if kept.is_none() && slot.kept().is_none() {
        return slot.clone();
    }
    Ok(Rc::new(alloc, slot.keeping(kept)?)?)
}

//! A theory under way.
ghost use Rattle.std.specs.Prelude.{◌≡◌, ◌≤◌, ◌<◌, ◌+◌, ◌++◌, true, [], List, IfOk, IfSome, OnOk, map, take, drop, length};
ghost use Rattle.hol_document.specs.RunnerView.{setup_of, ran_of, GoesOn};
ghost use Rattle.hol_exec.specs.Setup.{SetupValue};
ghost use Rattle.hol_exec.specs.StateValue.{StateValue, EndedTheory, AreTheories, start};
ghost use Rattle.hol_document.specs.Alike.{AreAlike, EachImportsAlike, no_drift};
ghost use Rattle.hol_document.specs.Settled.{HaveStood, HaveAdded, HaveLeft, LeadTo};
ghost use Rattle.hol_document.specs.Slots.{AreSlots, ended_of};

use crate::drift::Drift;
use crate::runner::Runner;
use crate::settle::settle;
use crate::slot::Slot;
use crate::theory::Theory;
use hol_exec::{State, promise_each, resume};
use std::alloc::{AllocError, Global};
use std::rc::Rc;

// So many slots in a row keep no state, at the most, where an edit goes through them.
const SPACING: usize = 32;

/// A theory under way: its slots so far, the state after them, and what is known of how that differs from the state before the edit; and how many slots were passed over since
/// the last one that keeps its state.
#[derive(Drop)]
pub(crate) struct Growing {
    pub(crate) slots: Vec<Rc<Slot>>,
    pub(crate) state: State,
    pub(crate) drift: Drift,
    pub(crate) since: usize,
}

/// A theory that was redone.
#[derive(Drop)]
pub(crate) struct Redone {
    pub(crate) theory: Theory,
    /// Whether its last entries are surely those that it had.
    pub(crate) is_same: bool,
}

/// A theory without slots.
pub(crate) fn begun(alloc: Global) -> Growing
    ensures slots { result.slots.items ≡ [] }
    ensures state { result.state ≡ start }
    ensures drift { result.drift ≡ no_drift }
{
    Growing {
        slots: Vec::new(alloc),
        state: State::new(alloc),
        drift: Drift::none(alloc),
        since: 0,
    }
}

/// The state, for the next slot to keep, where many slots were passed over since the last one that keeps its own.
pub(crate) fn to_keep(alloc: Global, growing: &Growing) -> Result<Option<State>, AllocError>
    ensures { IfOk result (λ kept. IfSome kept (λ s. s ≡ growing.now.state)) }
{
    if growing.since < SPACING {
        return Ok(None);
    }
    Ok(Some(growing.state.checkpoint(alloc)?))
}

/// How many slots were passed over since the last one that keeps its state, after the slot, where so many were before it.
pub(crate) fn since_after(since: usize, slot: &Slot) -> usize {
    match slot.kept() {
        Some(_) => 1,
        None => since.saturating_add(1),
    }
}

/// The first slots of a theory, as they stand.
pub(crate) fn front(
    alloc: Global,
    earlier: &[Theory],
    theory: &Theory,
    at: usize,
) -> Result<Growing, AllocError>
    requires at { at ≤ length theory.now.slots }
    requires stood { (setup : SetupValue) × AreSlots setup (map ended_of earlier.now) start theory.now.slots theory.now.last }
    ensures slots { IfOk result (λ growing. map (λ x. x.value) growing.slots.items ≡ take at theory.now.slots) }
    ensures are { IfOk result (λ growing. (setup : SetupValue) (before : List EndedTheory) (last : StateValue) → AreSlots setup before start theory.now.slots last
        → AreSlots setup before start (take at theory.now.slots) growing.state × AreSlots setup before growing.state (drop at theory.now.slots) last) }
    ensures drift { IfOk result (λ growing. growing.drift ≡ no_drift) }
{
    if at == theory.slots().len() {
        at_end(alloc, theory)
    } else {
        resumed(alloc, earlier, &theory.slots()[..at])
    }
}

// All slots of a theory, as they stand: nothing is run through, since its last state is kept.
fn at_end(alloc: Global, theory: &Theory) -> Result<Growing, AllocError>
    ensures slots { IfOk result (λ growing. map (λ x. x.value) growing.slots.items ≡ theory.now.slots) }
    ensures state { IfOk result (λ growing. growing.state ≡ theory.now.last) }
    ensures drift { IfOk result (λ growing. growing.drift ≡ no_drift) }
{
    let slots = theory.slots();
    Ok(Growing {
        slots: copies(alloc, slots)?,
        state: theory.last().checkpoint(alloc)?,
        drift: Drift::none(alloc),
        since: since_kept(slots),
    })
}

// How many slots were passed over since the last one that keeps its state, with that one.
fn since_kept(slots: &[Rc<Slot>]) -> usize {
    match last_kept(slots) {
        Some((at, _state)) => slots.len().saturating_sub(at),
        None => slots.len(),
    }
}

// The slots that a theory begins with, as they stand: the state is run through from the last one that is kept.
fn resumed(alloc: Global, earlier: &[Theory], slots: &[Rc<Slot>]) -> Result<Growing, AllocError>
    requires { (setup : SetupValue) × (last : StateValue) × AreSlots setup (map ended_of earlier.now) start (map (λ x. x.value) slots.now) last }
    ensures slots { IfOk result (λ growing. map (λ x. x.value) growing.slots.items ≡ map (λ x. x.value) slots.now) }
    ensures state { IfOk result (λ growing. (setup : SetupValue) (before : List EndedTheory) (last : StateValue) → AreSlots setup before start (map (λ x. x.value) slots.now) last → growing.state ≡ last) }
    ensures drift { IfOk result (λ growing. growing.drift ≡ no_drift) }
{
    promise_each(earlier);
    let (from, mut state) = kept_front(alloc, slots)?;
    resume_each(alloc, &slots[from..], &mut state)?;
    Ok(Growing {
        slots: copies(alloc, slots)?,
        state,
        drift: Drift::none(alloc),
        since: slots.len() - from,
    })
}

// The state goes on with what the slots came to.
fn resume_each(alloc: Global, slots: &[Rc<Slot>], state: &mut State) -> Result<(), AllocError>
    requires { (setup : SetupValue) × (earlier : List EndedTheory) × AreTheories earlier × (last : StateValue) × AreSlots setup earlier state.old (map (λ x. x.value) slots.now) last }
    ensures { OnOk result ((setup : SetupValue) (before : List EndedTheory) (last : StateValue) → AreSlots setup before state.old (map (λ x. x.value) slots.now) last → state.new ≡ last) }
{
    for slot in slots {
        resume(alloc, state, slot.outcome(), slot.opened())?;
    }
    Ok(())
}

// The place of the last slot whose state is kept, and that state; the first place and the state there, where none is kept.
fn kept_front(alloc: Global, slots: &[Rc<Slot>]) -> Result<(usize, State), AllocError>
    ensures within { IfOk result (λ found. found.0 ≤ length slots.now) }
    ensures state { IfOk result (λ found. LeadTo (map (λ x. x.value) slots.now) (map (λ x. x.value) (drop found.0 slots.now)) found.1) }
{
    match last_kept(slots) {
        Some((at, state)) => Ok((at, state.checkpoint(alloc)?)),
        None => Ok((0, State::new(alloc))),
    }
}

// The place of the last slot whose state is kept, and that state.
fn last_kept(slots: &[Rc<Slot>]) -> Option<(usize, &State)>
    ensures within { IfSome result (λ kept. kept.0 < length slots.now) }
    ensures state { IfSome result (λ kept. LeadTo (map (λ x. x.value) slots.now) (map (λ x. x.value) (drop kept.0 slots.now)) kept.1.now) }
{
    let mut at = slots.len();
    while at > 0 {
        at -= 1;
        if let Some(state) = slots[at].kept() {
            return Some((at, state));
        }
    }
    None
}

// Settles the slots, in order, up to the first place from `until` on where the states are one; gives that place, or the end.
fn settle_each(
    alloc: Global,
    runner: &mut Runner,
    earlier: &[Theory],
    slots: &[Rc<Slot>],
    until: usize,
    growing: &mut Growing,
) -> Result<usize, AllocError>
    requires theories { AreTheories (map ended_of earlier.now) }
    requires stood { HaveStood (setup_of runner.old) growing.old.drift (map (λ x. x.value) slots.now) growing.old.state }
    ensures within { IfOk result (λ at. at ≤ length slots.now) }
    ensures done { IfOk result (λ at. HaveAdded (setup_of runner.old) (map ended_of earlier.now) growing.old.state (map (λ x. x.value) (take at slots.now)) (ran_of runner.old) (ran_of runner.new)
        (map (λ x. x.value) growing.old.slots.items) (map (λ x. x.value) growing.new.slots.items) growing.new.state) }
    ensures left { IfOk result (λ at. (before : List EndedTheory) (s last : StateValue) → AreSlots (setup_of runner.old) before s (map (λ x. x.value) slots.now) last → AreAlike growing.old.drift s growing.old.state
        → HaveLeft (setup_of runner.old) before growing.new.drift (map (λ x. x.value) (drop at slots.now)) last growing.new.state) }
    ensures entries { IfOk result (λ at. at < length slots.now → growing.new.drift.entries ≡ true) }
    ensures proof { IfOk result (λ at. at < length slots.now → growing.new.drift.proof ≡ true) }
    ensures past { IfOk result (λ at. at < length slots.now → until ≤ at) }
    ensures goes { GoesOn runner.old runner.new }
{
    for (at, slot) in slots.iter().enumerate() {
        if at >= until && growing.drift.is_none() {
            return Ok(at);
        }
        let kept = to_keep(alloc, growing)?;
        let new = settle(
            alloc,
            runner,
            earlier,
            slot,
            kept,
            &mut growing.state,
            &mut growing.drift,
        )?;
        growing.since = since_after(growing.since, &new);
        growing.slots.push(new)?;
    }
    Ok(slots.len())
}

/// The theory that goes on with the slots of the old one from a place on: each is settled, up to the first place from `until` on where the states are one, and what comes
/// after that is taken as it stands.
pub(crate) fn redo(
    alloc: Global,
    runner: &mut Runner,
    earlier: &[Theory],
    theory: &Theory,
    from: usize,
    until: usize,
    growing: Growing,
) -> Result<Redone, AllocError>
    requires from { from ≤ length theory.now.slots }
    requires stood { (before : List EndedTheory) × (s : StateValue) × AreSlots (setup_of runner.old) before s (drop from theory.now.slots) theory.now.last × AreAlike growing.drift s growing.state
        × EachImportsAlike before (map ended_of earlier.now) (drop until (drop from theory.now.slots)) }
    ensures name { IfOk result (λ r. r.theory.name ≡ theory.now.name) }
    ensures slots { IfOk result (λ r. HaveAdded (setup_of runner.old) (map ended_of earlier.now) growing.state (drop from theory.now.slots) (ran_of runner.old) (ran_of runner.new)
        (map (λ x. x.value) growing.slots.items) r.theory.slots r.theory.last) }
    ensures same { IfOk result (λ r. r.is_same ≡ true → r.theory.last.entries ≡ theory.now.last.entries) }
    ensures goes { GoesOn runner.old runner.new }
{
    promise_each(earlier);
    let mut growing = growing;
    let slots = &theory.slots()[from..];
    let at = settle_each(alloc, runner, earlier, slots, until, &mut growing)?;
    let is_same = growing.drift.has_same_entries();
    let Growing {
        slots: done,
        state,
        ..
    } = growing;
    let theory = ended(alloc, theory, &slots[at..], done, state)?;
    Ok(Redone { theory, is_same })
}

// The theory of the slots that are done and of those that are left, which are taken as they stand, where there are any; else the state is its last one.
fn ended(
    alloc: Global,
    theory: &Theory,
    left: &[Rc<Slot>],
    done: Vec<Rc<Slot>>,
    state: State,
) -> Result<Theory, AllocError>
    ensures name { IfOk result (λ t. t.name ≡ theory.now.name) }
    ensures slots { IfOk result (λ t. t.slots ≡ map (λ x. x.value) done.items ++ map (λ x. x.value) left.now) }
    ensures all { IfOk result (λ t. length left.now ≡ 0 → t.last ≡ state) }
    ensures cut { IfOk result (λ t. 0 < length left.now → t.last ≡ theory.now.last) }
{
    let last = last_of(alloc, theory, left, state)?;
    let mut slots = done;
    add_each(&mut slots, left)?;
    theory.with_slots(alloc, slots, last)
}

// The last state of the theory, where slots are left that are taken as they stand; else this one.
fn last_of(
    alloc: Global,
    theory: &Theory,
    left: &[Rc<Slot>],
    state: State,
) -> Result<Rc<State>, AllocError>
    ensures all { IfOk result (λ last. length left.now ≡ 0 → last.value ≡ state) }
    ensures cut { IfOk result (λ last. 0 < length left.now → last.value ≡ theory.now.last) }
{
    if left.is_empty() {
        return Ok(Rc::new(alloc, state)?);
    }
    theory.last().clone()
}

// The same slots.
fn copies(alloc: Global, slots: &[Rc<Slot>]) -> Result<Vec<Rc<Slot>>, AllocError>
    ensures { IfOk result (λ copied. map (λ x. x.value) copied.items ≡ map (λ x. x.value) slots.now) }
{
    let mut copied = Vec::new(alloc);
    add_each(&mut copied, slots)?;
    Ok(copied)
}

// Adds the slots as they stand.
fn add_each(slots: &mut Vec<Rc<Slot>>, more: &[Rc<Slot>]) -> Result<(), AllocError>
    ensures { OnOk result (map (λ x. x.value) slots.new.items ≡ map (λ x. x.value) slots.old.items ++ map (λ x. x.value) more.now) }
{
    for slot in more {
        slots.push(slot.clone()?)?;
    }
    Ok(())
}

//! A theory after an edit in it, and the theories after that.
ghost use Rattle.std.specs.Prelude.{◌≡◌, ◌≤◌, ◌<◌, ◌+◌, ◌++◌, ◌∷◌, true, false, [], List, IfOk, OnOk, Some, None, map, drop, length, slice_set, string_bytes, bytes_eq};
ghost use Rattle.std.specs.List.{insert, list_any, remove};
ghost use Rattle.hol_document.specs.RunnerView.{setup_of, ran_of, Stays, GoesOn};
ghost use Rattle.hol_exec.specs.CommandText.{Direct};
ghost use Rattle.hol_exec.specs.CommandView.{direct_text};
ghost use Rattle.hol_exec.specs.OutcomeValue.{after};
ghost use Rattle.hol_exec.specs.Reading.{Reads};
ghost use Rattle.hol_exec.specs.StateValue.{StateValue, EndedTheory, AreTheories, start, newest_of};
ghost use Rattle.hol_document.specs.Alike.{AreAlike, ImportsAlike, EachImportsAlike, EndAlike};
ghost use Rattle.hol_document.specs.Settled.{HaveFollowed, IsEdited, IsPut, FitsAt, edited_texts, rows_beside, rows_of, texts_of};
ghost use Rattle.hol_document.specs.Slots.{SlotValue, IsSlot, AreSlots, AreStanding, ended_of};

use crate::growing::{Growing, Redone, begun, front, redo, since_after, to_keep};
use crate::line::Line;
use crate::runner::Runner;
use crate::settle::{is_open_after, run};
use crate::slot::Slot;
use crate::theory::Theory;
use hol_exec::{CommandNode, DirectCommand, Element, Parsed, promise_each};
use std::alloc::{AllocError, Global};
use std::rc::Rc;

/// An edit at a place of a theory.
#[derive(Drop)]
pub(crate) enum Edit {
    /// The text is put there.
    Insert(Rc<Line>),
    /// The text is put in the place of the one there.
    Replace(Rc<Line>),
    /// The text there is taken away.
    Remove,
}

/// The theory after the edit at the place.
pub(crate) fn edited(
    alloc: Global,
    runner: &mut Runner,
    earlier: &[Theory],
    theory: &Theory,
    edit: &Edit,
    at: usize,
) -> Result<Redone, AllocError>
    requires fits { FitsAt edit.now at (length theory.now.slots) }
    requires stood { AreSlots (setup_of runner.old) (map ended_of earlier.now) start theory.now.slots theory.now.last }
    ensures name { IfOk result (λ r. r.theory.name ≡ theory.now.name) }
    ensures edited { IfOk result (λ r. IsEdited (setup_of runner.old) (map ended_of earlier.now) (edited_texts edit.now at (texts_of theory.now.slots)) (rows_beside edit.now at (map Some (rows_of theory.now.slots)))
        (ran_of runner.old) (ran_of runner.new) r.theory.slots r.theory.last) }
    ensures same { IfOk result (λ r. r.is_same ≡ true → r.theory.last.entries ≡ theory.now.last.entries) }
    ensures goes { GoesOn runner.old runner.new }
{
    match edit {
        Edit::Insert(line) => inserted(alloc, runner, earlier, theory, line, at),
        Edit::Replace(line) => replaced(alloc, runner, earlier, theory, line, at),
        Edit::Remove => removed(alloc, runner, earlier, theory, at),
    }
}

// With a new text at the place.
fn inserted(
    alloc: Global,
    runner: &mut Runner,
    earlier: &[Theory],
    theory: &Theory,
    line: &Rc<Line>,
    at: usize,
) -> Result<Redone, AllocError>
    requires fits { at ≤ length theory.now.slots }
    requires stood { AreSlots (setup_of runner.old) (map ended_of earlier.now) start theory.now.slots theory.now.last }
    ensures name { IfOk result (λ r. r.theory.name ≡ theory.now.name) }
    ensures edited { IfOk result (λ r. IsEdited (setup_of runner.old) (map ended_of earlier.now) (insert (texts_of theory.now.slots) at line.now.value.text) (insert (map Some (rows_of theory.now.slots)) at None)
        (ran_of runner.old) (ran_of runner.new) r.theory.slots r.theory.last) }
    ensures same { IfOk result (λ r. r.is_same ≡ true → r.theory.last.entries ≡ theory.now.last.entries) }
    ensures goes { GoesOn runner.old runner.new }
{
    promise_each(earlier);
    let mut growing = front(alloc, earlier, theory, at)?;
    insert(alloc, runner, earlier, line, &mut growing)?;
    redo(alloc, runner, earlier, theory, at, 0, growing)
}

// With another text at the place.
fn replaced(
    alloc: Global,
    runner: &mut Runner,
    earlier: &[Theory],
    theory: &Theory,
    line: &Rc<Line>,
    at: usize,
) -> Result<Redone, AllocError>
    requires fits { at < length theory.now.slots }
    requires stood { AreSlots (setup_of runner.old) (map ended_of earlier.now) start theory.now.slots theory.now.last }
    ensures name { IfOk result (λ r. r.theory.name ≡ theory.now.name) }
    ensures edited { IfOk result (λ r. IsEdited (setup_of runner.old) (map ended_of earlier.now) (slice_set (texts_of theory.now.slots) at line.now.value.text) (slice_set (map Some (rows_of theory.now.slots)) at None)
        (ran_of runner.old) (ran_of runner.new) r.theory.slots r.theory.last) }
    ensures same { IfOk result (λ r. r.is_same ≡ true → r.theory.last.entries ≡ theory.now.last.entries) }
    ensures goes { GoesOn runner.old runner.new }
{
    promise_each(earlier);
    let mut growing = front(alloc, earlier, theory, at)?;
    replace(
        alloc,
        runner,
        earlier,
        &theory.slots()[at],
        line,
        &mut growing,
    )?;
    redo(alloc, runner, earlier, theory, at + 1, 0, growing)
}

// Without the text at the place.
fn removed(
    alloc: Global,
    runner: &mut Runner,
    earlier: &[Theory],
    theory: &Theory,
    at: usize,
) -> Result<Redone, AllocError>
    requires fits { at < length theory.now.slots }
    requires stood { AreSlots (setup_of runner.old) (map ended_of earlier.now) start theory.now.slots theory.now.last }
    ensures name { IfOk result (λ r. r.theory.name ≡ theory.now.name) }
    ensures edited { IfOk result (λ r. IsEdited (setup_of runner.old) (map ended_of earlier.now) (remove (texts_of theory.now.slots) at) (remove (map Some (rows_of theory.now.slots)) at)
        (ran_of runner.old) (ran_of runner.new) r.theory.slots r.theory.last) }
    ensures same { IfOk result (λ r. r.is_same ≡ true → r.theory.last.entries ≡ theory.now.last.entries) }
    ensures goes { GoesOn runner.old runner.new }
{
    let mut growing = front(alloc, earlier, theory, at)?;
    leave_out(runner, &theory.slots()[at], &mut growing)?;
    redo(alloc, runner, earlier, theory, at + 1, 0, growing)
}

// A new text comes after the slots so far.
fn insert(
    alloc: Global,
    runner: &mut Runner,
    earlier: &[Theory],
    line: &Rc<Line>,
    growing: &mut Growing,
) -> Result<(), AllocError>
    requires theories { AreTheories (map ended_of earlier.now) }
    ensures put { OnOk result ((slot : SlotValue) × (map (λ x. x.value) growing.new.slots.items ≡ map (λ x. x.value) growing.old.slots.items ++ slot ∷ [])
        × IsPut (setup_of runner.old) (map ended_of earlier.now) growing.old.state line.now.value.text (ran_of runner.old) (ran_of runner.new) slot growing.new.state) }
    ensures alike { OnOk result (AreAlike growing.new.drift growing.old.state growing.new.state) }
    ensures goes { GoesOn runner.old runner.new }
{
    let before = growing.state.newest()?;
    let kept = to_keep(alloc, growing)?;
    let slot = run(alloc, runner, earlier, line, kept, &mut growing.state)?;
    let is_open = is_any_open(&before, slot.opened());
    growing.drift.differ(None, Some(slot.outcome()), is_open)?;
    growing.since = since_after(growing.since, &slot);
    Ok(growing.slots.push(slot)?)
}

// A text comes after the slots so far, in the place of an old one.
fn replace(
    alloc: Global,
    runner: &mut Runner,
    earlier: &[Theory],
    old: &Slot,
    line: &Rc<Line>,
    growing: &mut Growing,
) -> Result<(), AllocError>
    requires theories { AreTheories (map ended_of earlier.now) }
    requires stood { (before : List EndedTheory) × (s : StateValue) × IsSlot (setup_of runner.old) before s old.now }
    requires opened { old.now.opened ≡ newest_of (after growing.old.state old.now.row.outcome).proof }
    ensures put { OnOk result ((slot : SlotValue) × (map (λ x. x.value) growing.new.slots.items ≡ map (λ x. x.value) growing.old.slots.items ++ slot ∷ [])
        × IsPut (setup_of runner.old) (map ended_of earlier.now) growing.old.state line.now.value.text (ran_of runner.old) (ran_of runner.new) slot growing.new.state) }
    ensures alike { OnOk result (AreAlike growing.new.drift (after growing.old.state old.now.row.outcome) growing.new.state) }
    ensures goes { GoesOn runner.old runner.new }
{
    let kept = to_keep(alloc, growing)?;
    let slot = run(alloc, runner, earlier, line, kept, &mut growing.state)?;
    growing
        .drift
        .follow(old.outcome(), slot.outcome(), is_open_after(old, &slot))?;
    runner.leave(old);
    growing.since = since_after(growing.since, &slot);
    Ok(growing.slots.push(slot)?)
}

// An old slot is left out after the slots so far.
fn leave_out(runner: &mut Runner, old: &Slot, growing: &mut Growing) -> Result<(), AllocError>
    requires stood { (before : List EndedTheory) × (s : StateValue) × IsSlot (setup_of runner.old) before s old.now }
    requires opened { old.now.opened ≡ newest_of (after growing.old.state old.now.row.outcome).proof }
    ensures slots { growing.new.slots.items ≡ growing.old.slots.items }
    ensures state { growing.new.state ≡ growing.old.state }
    ensures alike { OnOk result (AreAlike growing.new.drift (after growing.old.state old.now.row.outcome) growing.new.state) }
    ensures stays { Stays runner.old runner.new }
{
    let after = growing.state.newest()?;
    let is_open = is_any_open(old.opened(), &after);
    runner.leave(old);
    growing.drift.differ(Some(old.outcome()), None, is_open)
}

// Whether a proof is open before or after.
fn is_any_open(old: &Option<Element>, new: &Option<Element>) -> bool
    ensures old { result ≡ false → old.now ≡ None }
    ensures new { result ≡ false → new.now ≡ None }
{
    old.is_some() || new.is_some()
}

/// The theories after one that may end otherwise than it did, as may all of these names: those that import none of them stand as they are.
pub(crate) fn follow(
    alloc: Global,
    runner: &mut Runner,
    theories: &[Theory],
    names: Vec<Rc<String>>,
    done: &mut Vec<Theory>,
) -> Result<(), AllocError>
    requires { (before : List EndedTheory) × AreStanding (setup_of runner.old) before theories.now × EndAlike (map (λ name. string_bytes name.value) names.items) before (map ended_of done.old.items) }
    ensures follow { OnOk result (HaveFollowed (setup_of runner.old) done.old.items theories.now (ran_of runner.old) (ran_of runner.new) done.new.items) }
    ensures goes { GoesOn runner.old runner.new }
{
    let mut names = names;
    for theory in theories {
        let next = following(alloc, runner, theory, &names, done)?;
        add_unless(&mut names, next.is_same, theory)?;
        done.push(next.theory)?;
    }
    Ok(())
}

/// Adds the theory's name to those of theories that may end otherwise, unless it surely has the same last entries.
pub(crate) fn add_unless(
    names: &mut Vec<Rc<String>>,
    is_same: bool,
    theory: &Theory,
) -> Result<(), AllocError>
    ensures { OnOk result ((before earlier : List EndedTheory) (new : EndedTheory) → new.name ≡ theory.now.name → (is_same ≡ true → new.entries ≡ theory.now.last.entries)
        → EndAlike (map (λ name. string_bytes name.value) names.old.items) before earlier
        → EndAlike (map (λ name. string_bytes name.value) names.new.items) (before ++ ended_of theory.now ∷ []) (earlier ++ new ∷ [])) }
{
    if is_same {
        return Ok(());
    }
    Ok(names.push(theory.shared_name().clone()?)?)
}

// The theory after these, which may end otherwise where they have one of the names.
fn following(
    alloc: Global,
    runner: &mut Runner,
    theory: &Theory,
    names: &[Rc<String>],
    earlier: &[Theory],
) -> Result<Redone, AllocError>
    requires { (before : List EndedTheory) × AreSlots (setup_of runner.old) before start theory.now.slots theory.now.last × EndAlike (map (λ name. string_bytes name.value) names.now) before (map ended_of earlier.now) }
    ensures name { IfOk result (λ r. r.theory.name ≡ theory.now.name) }
    ensures edited { IfOk result (λ r. IsEdited (setup_of runner.old) (map ended_of earlier.now) (texts_of theory.now.slots) (map Some (rows_of theory.now.slots))
        (ran_of runner.old) (ran_of runner.new) r.theory.slots r.theory.last) }
    ensures same { IfOk result (λ r. r.is_same ≡ true → r.theory.last.entries ≡ theory.now.last.entries) }
    ensures goes { GoesOn runner.old runner.new }
{
    let until = past_imports(theory.slots(), names);
    if until == 0 {
        let theory = theory.copy()?;
        return Ok(Redone {
            theory,
            is_same: true,
        });
    }
    redo(alloc, runner, earlier, theory, 0, until, begun(alloc))
}

// The place after the last slot that imports a theory of one of the names; the first place where there is none.
fn past_imports(slots: &[Rc<Slot>], names: &[Rc<String>]) -> usize
    ensures { (before earlier : List EndedTheory) → EndAlike (map (λ name. string_bytes name.value) names.now) before earlier → EachImportsAlike before earlier (drop result (map (λ x. x.value) slots.now)) }
{
    let mut past = slots.len();
    while past > 0 {
        if imports_any(&slots[past - 1], names) {
            return past;
        }
        past -= 1;
    }
    0
}

// Whether the slot imports a theory of one of the names.
fn imports_any(slot: &Slot, names: &[Rc<String>]) -> bool
    ensures { result ≡ false → (before earlier : List EndedTheory) → EndAlike (map (λ name. string_bytes name.value) names.now) before earlier → ImportsAlike before earlier slot.now.row.value }
{
    match slot.line().parsed() {
        Parsed::Read(command) => match command.node() {
            CommandNode::Local(_) => false,
            CommandNode::Direct(command) => direct_imports_any(command, names),
        },
        Parsed::Unread(_) => false,
    }
}

// The same for what is answered from the state.
fn direct_imports_any(command: &DirectCommand, names: &[Rc<String>]) -> bool
    ensures { result ≡ false → (before earlier : List EndedTheory) → EndAlike (map (λ name. string_bytes name.value) names.now) before earlier
        → ImportsAlike before earlier (Reads (Direct (direct_text command.now))) }
{
    match command {
        DirectCommand::Import(name) => is_any(name.as_str(), names),
        DirectCommand::Back | DirectCommand::Rotate(_) | DirectCommand::Oops => false,
    }
}

// Whether the name is one of these.
fn is_any(name: &str, names: &[Rc<String>]) -> bool
    ensures { result ≡ list_any (λ changed. bytes_eq changed name.now) (map (λ changed. string_bytes changed.value) names.now) }
{
    for changed in names {
        if changed.as_str() == name {
            return true;
        }
    }
    false
}

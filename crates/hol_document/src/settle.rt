//! What a text comes to at a state: its slot from before, where that stands there as well, or one that is made by running the text.
ghost use Rattle.std.specs.Prelude.{◌≡◌, List, [], true, false, IfOk, IfSome, Some, None, map};
ghost use Rattle.std.specs.Option.{option_map};
ghost use Rattle.hol_exec.specs.At.{IsOutcomeAt};
ghost use Rattle.hol_exec.specs.CommandView.{local_text, direct_text};
ghost use Rattle.hol_exec.specs.CommandText.{LocalText, Local, Direct};
ghost use Rattle.hol_exec.specs.Tested.{agrees};
ghost use Rattle.hol_document.specs.RunnerView.{setup_of, RunsAtMost};
ghost use Rattle.hol_exec.specs.OutcomeValue.{after};
ghost use Rattle.hol_exec.specs.Reading as read;
ghost use Rattle.hol_exec.specs.Reading.{IsRead};
ghost use Rattle.hol_exec.specs.ReadsValue.{reads_at};
ghost use Rattle.hol_exec.specs.Setup.{SetupValue};
ghost use Rattle.hol_exec.specs.StateValue.{StateValue, EndedTheory, AreTheories, newest_of};
ghost use Rattle.hol_theory.specs.Theory.{IsTheory};
ghost use Rattle.hol_document.specs.Affected.{counts, counts_beside};
ghost use Rattle.hol_document.specs.Afresh.{Row, IsRow};
ghost use Rattle.hol_document.specs.Alike.{AreAlike, IsPassedOver};
ghost use Rattle.hol_document.specs.Settled.{IsAnswer, IsKeyed, StoodAlike};
ghost use Rattle.hol_document.specs.Slots.{IsSlot, ended_of};

use crate::drift::Drift;
use crate::line::Line;
use crate::runner::Runner;
use crate::slot::{Slot, keeping};
use crate::theory::Theory;
use hol_exec::{
    Command, CommandKeys, CommandNode, DirectCommand, LocalCommand, Outcome, Parsed, Reads, State,
    Tested, agrees, apply, direct, resume, unread,
};
use std::alloc::{AllocError, Global};
use std::rc::Rc;

// What a text reads of a state, which names of constants were tested, and its outcome there.
#[derive(Drop)]
struct Answer {
    reads: Option<Rc<Reads>>,
    tested: Rc<Tested>,
    outcome: Rc<Outcome>,
}

// What the text reads of the state, and its outcome there.
fn answered(
    alloc: Global,
    runner: &mut Runner,
    earlier: &[Theory],
    line: &Line,
    state: &State,
) -> Result<Answer, AllocError>
    ensures read { IsRead line.now.text line.now.value }
    ensures is { IfOk result (λ a. IsAnswer (setup_of runner.old) (map ended_of earlier.now) state.now line.now.value (option_map (λ r. r.value) a.reads) a.tested.value a.outcome.value) }
    ensures few { RunsAtMost runner.old runner.new result (λ a. counts_beside None (option_map (λ r. r.value) a.reads)) }
{
    match line.parsed() {
        Parsed::Read(command) => answer_of_command(alloc, runner, earlier, line, command, state),
        Parsed::Unread(place) => unread_answer(alloc, runner, unread(alloc, *place)?),
    }
}

// What is told from the state alone.
fn unread_answer(alloc: Global, runner: &Runner, outcome: Outcome) -> Result<Answer, AllocError>
    ensures reads { IfOk result (λ a. a.reads ≡ None) }
    ensures tested { IfOk result (λ a. a.tested.value ≡ []) }
    ensures outcome { IfOk result (λ a. a.outcome.value ≡ outcome) }
{
    let outcome = Rc::new(alloc, outcome)?;
    Ok(Answer {
        reads: None,
        tested: runner.nothing()?,
        outcome,
    })
}

fn answer_of_command(
    alloc: Global,
    runner: &mut Runner,
    earlier: &[Theory],
    line: &Line,
    command: &Command,
    state: &State,
) -> Result<Answer, AllocError>
    requires { line.now.value ≡ read.Reads command.now }
    ensures is { IfOk result (λ a. IsAnswer (setup_of runner.old) (map ended_of earlier.now) state.now (read.Reads command.now) (option_map (λ r. r.value) a.reads) a.tested.value a.outcome.value) }
    ensures few { RunsAtMost runner.old runner.new result (λ a. counts_beside None (option_map (λ r. r.value) a.reads)) }
{
    match command.node() {
        CommandNode::Local(command) => answer_of_local(alloc, runner, line, command, state),
        CommandNode::Direct(command) => {
            unread_answer(alloc, runner, direct(alloc, command, state, earlier)?)
        }
    }
}

// The command is run, unless what it comes to is known: it counts one at the most.
fn answer_of_local(
    alloc: Global,
    runner: &mut Runner,
    line: &Line,
    command: &LocalCommand,
    state: &State,
) -> Result<Answer, AllocError>
    requires { line.now.value ≡ read.Reads (Local (local_text command.now)) }
    ensures is { IfOk result (λ a. (earlier : List EndedTheory) → IsAnswer (setup_of runner.old) earlier state.now (read.Reads (Local (local_text command.now))) (option_map (λ r. r.value) a.reads) a.tested.value a.outcome.value) }
    ensures few { RunsAtMost runner.old runner.new result (λ a. counts_beside None (option_map (λ r. r.value) a.reads)) }
{
    let keys = CommandKeys::of(alloc, command)?;
    let reads = Rc::new(alloc, Reads::of(alloc, command, &keys, state)?)?;
    let (outcome, tested) = runner.outcome(alloc, line, command, &reads, state.env())?;
    Ok(Answer {
        reads: Some(reads),
        tested,
        outcome,
    })
}

// The slot of an answer, whose outcome brings the state on.
fn carried_out(
    alloc: Global,
    line: &Rc<Line>,
    answer: Answer,
    kept: Option<State>,
    state: &mut State,
) -> Result<Rc<Slot>, AllocError>
    requires { IsOutcomeAt state.old answer.outcome.value }
    ensures text { IfOk result (λ slot. slot.value.text ≡ line.now.value.text) }
    ensures value { IfOk result (λ slot. slot.value.row.value ≡ line.now.value.value) }
    ensures reads { IfOk result (λ slot. slot.value.row.reads ≡ option_map (λ r. r.value) answer.reads) }
    ensures tested { IfOk result (λ slot. slot.value.row.tested ≡ answer.tested.value) }
    ensures outcome { IfOk result (λ slot. slot.value.row.outcome ≡ answer.outcome.value) }
    ensures opened { IfOk result (λ slot. slot.value.opened ≡ newest_of state.new.proof) }
    ensures kept { IfOk result (λ slot. slot.value.kept ≡ kept) }
    ensures state { IfOk result (λ slot. state.new ≡ after state.old answer.outcome.value) }
    ensures stands { IfOk result (λ slot. IsTheory state.new.entries) }
{
    let Answer {
        reads,
        tested,
        outcome,
    } = answer;
    apply(alloc, state, &outcome)?;
    state.promise();
    let opened = state.newest()?;
    let line = line.clone()?;
    let slot = Slot::new(line, reads, tested, outcome, opened, kept);
    Ok(Rc::new(alloc, slot)?)
}

/// The slot of a text that is run at the state, which goes on with it; what is kept, if anything is, is that state.
pub(crate) fn run(
    alloc: Global,
    runner: &mut Runner,
    earlier: &[Theory],
    line: &Rc<Line>,
    kept: Option<State>,
    state: &mut State,
) -> Result<Rc<Slot>, AllocError>
    requires theories { AreTheories (map ended_of earlier.now) }
    requires kept { IfSome kept (λ s. s ≡ state.old) }
    ensures slot { IfOk result (λ new. IsSlot (setup_of runner.old) (map ended_of earlier.now) state.old new.value) }
    ensures text { IfOk result (λ new. new.value.text ≡ line.now.value.text) }
    ensures value { IfOk result (λ new. new.value.row.value ≡ line.now.value.value) }
    ensures state { IfOk result (λ new. state.new ≡ after state.old new.value.row.outcome) }
    ensures few { RunsAtMost runner.old runner.new result (λ new. counts None new.value.row) }
{
    let answer = answered(alloc, runner, earlier, line, state)?;
    carried_out(alloc, line, answer, kept, state)
}

// Whether the row of the slot stands at the state as well: nothing that it reads was changed, or it is found to read the same.
fn keeps(slot: &Slot, state: &State, drift: &Drift) -> bool
    requires { IsKeyed slot.now.row }
    ensures yes { result ≡ true → (setup : SetupValue) (before earlier : List EndedTheory) (s : StateValue) → AreAlike drift.now s state.now
        → IsRow setup before s slot.now.text slot.now.row → IsRow setup earlier state.now slot.now.text slot.now.row }
    ensures no { result ≡ false → (setup : SetupValue) (earlier : List EndedTheory) (row : Row) → IsRow setup earlier state.now slot.now.text row → counts (Some slot.now.row) row ≡ counts None row }
{
    match slot.line().parsed() {
        Parsed::Read(command) => match command.node() {
            CommandNode::Local(command) => keeps_local(slot, command, state, drift),
            CommandNode::Direct(command) => keeps_direct(command, drift),
        },
        Parsed::Unread(_) => true,
    }
}

// The same for a command: it reads the same, and of the names that were tested the same are constants.
fn keeps_local(slot: &Slot, command: &LocalCommand, state: &State, drift: &Drift) -> bool
    requires parsed { IsRead slot.now.text slot.now.row.value }
    requires value { slot.now.row.value ≡ read.Reads (Local (local_text command.now)) }
    requires keyed { IsKeyed slot.now.row }
    ensures yes { result ≡ true → (setup : SetupValue) (before earlier : List EndedTheory) (s : StateValue) → AreAlike drift.now s state.now
        → IsRow setup before s slot.now.text slot.now.row → IsRow setup earlier state.now slot.now.text slot.now.row }
    ensures no { result ≡ false → (setup : SetupValue) (earlier : List EndedTheory) (row : Row) → IsRow setup earlier state.now slot.now.text row → counts (Some slot.now.row) row ≡ counts None row }
{
    reads_again(slot, command, state, drift) && tests_again(slot, state, drift)
}

// Whether a command reads the same of the state: no key that it cites or makes is changed, and the open proof is the same, or it is found to.
fn reads_again(slot: &Slot, command: &LocalCommand, state: &State, drift: &Drift) -> bool
    requires value { slot.now.row.value ≡ read.Reads (Local (local_text command.now)) }
    requires keyed { IsKeyed slot.now.row }
    ensures yes { result ≡ true → (setup : SetupValue) (before earlier : List EndedTheory) (s : StateValue) → AreAlike drift.now s state.now → agrees slot.now.row.tested state.now.entries ≡ true
        → IsRow setup before s slot.now.text slot.now.row → IsRow setup earlier state.now slot.now.text slot.now.row }
    ensures no { result ≡ false → counts_beside slot.now.row.reads (reads_at slot.now.row.value state.now) ≡ counts_beside None (reads_at slot.now.row.value state.now) }
{
    match slot.reads() {
        Some(reads) => {
            drift.has_same_proof() && reads.is_apart(drift.changes()) || reads.agree(command, state)
        }
        None => unreachable!(),
    }
}

// Whether the names that were tested for a command are those of constants at the state, or not, as they were: the entries are the same, or they are found to.
fn tests_again(slot: &Slot, state: &State, drift: &Drift) -> bool
    ensures yes { result ≡ true → (setup : SetupValue) (before : List EndedTheory) (s : StateValue) (command : LocalText) → slot.now.row.value ≡ read.Reads (Local command) → AreAlike drift.now s state.now
        → IsRow setup before s slot.now.text slot.now.row → agrees slot.now.row.tested state.now.entries ≡ true }
    ensures no { result ≡ false → agrees slot.now.row.tested state.now.entries ≡ false }
{
    drift.has_same_entries() || agrees(slot.tested(), state.env())
}

// The same for what is answered from the state: the open proof is the same. An import is made again.
fn keeps_direct(command: &DirectCommand, drift: &Drift) -> bool
    ensures { result ≡ true → IsPassedOver drift.now (read.Reads (Direct (direct_text command.now))) }
{
    match command {
        DirectCommand::Back | DirectCommand::Rotate(_) | DirectCommand::Oops => {
            drift.has_same_proof()
        }
        DirectCommand::Import(_) => false,
    }
}

// What is told in the slot.
fn answer_in(slot: &Slot) -> Result<Answer, AllocError>
    ensures reads { IfOk result (λ a. option_map (λ r. r.value) a.reads ≡ slot.now.row.reads) }
    ensures tested { IfOk result (λ a. a.tested.value ≡ slot.now.row.tested) }
    ensures outcome { IfOk result (λ a. a.outcome.value ≡ slot.now.row.outcome) }
{
    Ok(Answer {
        reads: slot.shared_reads()?,
        tested: slot.tested().clone()?,
        outcome: slot.outcome().clone()?,
    })
}

// The slot of a row that stands at the state as well.
fn keep(
    alloc: Global,
    slot: &Rc<Slot>,
    kept: Option<State>,
    state: &mut State,
    drift: &Drift,
) -> Result<Rc<Slot>, AllocError>
    requires at { IsOutcomeAt state.old slot.now.value.row.outcome }
    requires opened { drift.now.proof ≡ true → slot.now.value.opened ≡ newest_of (after state.old slot.now.value.row.outcome).proof }
    ensures text { IfOk result (λ new. new.value.text ≡ slot.now.value.text) }
    ensures row { IfOk result (λ new. new.value.row ≡ slot.now.value.row) }
    ensures opened { IfOk result (λ new. new.value.opened ≡ newest_of state.new.proof) }
    ensures kept { IfOk result (λ new. new.value.kept ≡ kept) }
    ensures state { IfOk result (λ new. state.new ≡ after state.old slot.now.value.row.outcome) }
    ensures stands { IfOk result (λ slot. IsTheory state.new.entries) }
{
    if drift.has_same_proof() {
        resume(alloc, state, slot.outcome(), slot.opened())?;
        state.promise();
        return keeping(alloc, slot, kept);
    }
    carried_out(alloc, slot.line(), answer_in(slot)?, kept, state)
}

/// Whether a proof is open after either.
pub(crate) fn is_open_after(old: &Slot, new: &Slot) -> bool
    ensures old { result ≡ false → old.now.opened ≡ None }
    ensures new { result ≡ false → new.now.opened ≡ None }
{
    old.opened().is_some() || new.opened().is_some()
}

// The slot of a row that stands at the state as well; what is known of how that differs goes on.
fn go_on(
    alloc: Global,
    slot: &Rc<Slot>,
    kept: Option<State>,
    state: &mut State,
    drift: &mut Drift,
) -> Result<Rc<Slot>, AllocError>
    requires at { IsOutcomeAt state.old slot.now.value.row.outcome }
    requires opened { drift.old.proof ≡ true → slot.now.value.opened ≡ newest_of (after state.old slot.now.value.row.outcome).proof }
    ensures text { IfOk result (λ new. new.value.text ≡ slot.now.value.text) }
    ensures row { IfOk result (λ new. new.value.row ≡ slot.now.value.row) }
    ensures opened { IfOk result (λ new. new.value.opened ≡ newest_of state.new.proof) }
    ensures kept { IfOk result (λ new. new.value.kept ≡ kept) }
    ensures state { IfOk result (λ new. state.new ≡ after state.old slot.now.value.row.outcome) }
    ensures stands { IfOk result (λ new. IsTheory state.new.entries) }
    ensures alike { IfOk result (λ new. (s : StateValue) → slot.now.value.opened ≡ newest_of (after s slot.now.value.row.outcome).proof → AreAlike drift.old s state.old
        → AreAlike drift.new (after s slot.now.value.row.outcome) (after state.old slot.now.value.row.outcome)) }
{
    let new = keep(alloc, slot, kept, state, drift)?;
    drift.go_on(is_open_after(slot, &new));
    Ok(new)
}

// The slot of the text, run again.
fn run_again(
    alloc: Global,
    runner: &mut Runner,
    earlier: &[Theory],
    slot: &Slot,
    kept: Option<State>,
    state: &mut State,
    drift: &mut Drift,
) -> Result<Rc<Slot>, AllocError>
    requires theories { AreTheories (map ended_of earlier.now) }
    requires kept { IfSome kept (λ s. s ≡ state.old) }
    requires stood { (before : List EndedTheory) × (s : StateValue) × IsSlot (setup_of runner.old) before s slot.now }
    ensures slot { IfOk result (λ new. IsSlot (setup_of runner.old) (map ended_of earlier.now) state.old new.value) }
    ensures text { IfOk result (λ new. new.value.text ≡ slot.now.text) }
    ensures value { IfOk result (λ new. new.value.row.value ≡ slot.now.row.value) }
    ensures state { IfOk result (λ new. state.new ≡ after state.old new.value.row.outcome) }
    ensures alike { IfOk result (λ new. (s : StateValue) → slot.now.opened ≡ newest_of (after s slot.now.row.outcome).proof → AreAlike drift.old s state.old
        → AreAlike drift.new (after s slot.now.row.outcome) (after state.old new.value.row.outcome)) }
    ensures few { RunsAtMost runner.old runner.new result (λ new. counts None new.value.row) }
{
    let new = run(alloc, runner, earlier, slot.line(), kept, state)?;
    drift.follow(slot.outcome(), new.outcome(), is_open_after(slot, &new))?;
    runner.leave(slot);
    Ok(new)
}

/// The slot at the state, which goes on with it: the same where its row stands there as well, else its text is run. What is kept, if anything is, is that state.
pub(crate) fn settle(
    alloc: Global,
    runner: &mut Runner,
    earlier: &[Theory],
    slot: &Rc<Slot>,
    kept: Option<State>,
    state: &mut State,
    drift: &mut Drift,
) -> Result<Rc<Slot>, AllocError>
    requires theories { AreTheories (map ended_of earlier.now) }
    requires kept { IfSome kept (λ s. s ≡ state.old) }
    requires stood { StoodAlike (setup_of runner.old) drift.old slot.now.value state.old }
    ensures slot { IfOk result (λ new. IsSlot (setup_of runner.old) (map ended_of earlier.now) state.old new.value) }
    ensures text { IfOk result (λ new. new.value.text ≡ slot.now.value.text) }
    ensures state { IfOk result (λ new. state.new ≡ after state.old new.value.row.outcome) }
    ensures alike { IfOk result (λ new. (before : List EndedTheory) (s : StateValue) → IsSlot (setup_of runner.old) before s slot.now.value → AreAlike drift.old s state.old
        → AreAlike drift.new (after s slot.now.value.row.outcome) (after state.old new.value.row.outcome)) }
    ensures few { RunsAtMost runner.old runner.new result (λ new. counts (Some slot.now.value.row) new.value.row) }
{
    if keeps(slot, state, drift) {
        return go_on(alloc, slot, kept, state, drift);
    }
    run_again(alloc, runner, earlier, slot, kept, state, drift)
}

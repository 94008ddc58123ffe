//! Outcomes that have left their slots.
ghost use Rattle.std.specs.Prelude.{◌≡◌, ◌≤◌, List, true, IfOk, IfSome};
ghost use Rattle.hol_exec.specs.CommandText.{Local};
ghost use Rattle.hol_exec.specs.CommandView.{local_text};
ghost use Rattle.hol_exec.specs.Local.{IsLocalOutcome};
ghost use Rattle.hol_exec.specs.Reading as read;
ghost use Rattle.hol_exec.specs.StateValue.{StateValue, EndedTheory};
ghost use Rattle.hol_theory.specs.Constants.{constant_names};
ghost use Rattle.hol_document.specs.Runs.{IsRun};
ghost use Rattle.hol_document.specs.Slots.{IsSlot};

use crate::line::Line;
use crate::slot::Slot;
use hol_exec::{LocalCommand, Outcome, Reads, ReadsMark, SetupTable, Tested, agrees};
use hol_theory::Env;
use lru::LruCache;
use std::alloc::{AllocError, Global};
use std::marker::Model;
use std::num::NonZeroUsize;
use std::rc::Rc;

// What an outcome is found by: the text of its command, and what tells most of what that read apart.
#[derive(PartialEq, Eq, Hash, Drop)]
struct RunKey {
    text: Rc<String>,
    mark: ReadsMark,
}

// The most that all outcomes hold, in nodes of terms: some 90 bytes each.
const LARGEST_WEIGHT: u32 = 4_000_000;

// How many bytes of a text, with what it reads as, count one node.
const NODE_BYTES: u32 = 4;

// A command that was run: its text, what it read, which names of constants were tested, and what it came to.
#[derive(Drop)]
struct Run {
    line: Rc<Line>,
    reads: Rc<Reads>,
    tested: Rc<Tested>,
    outcome: Rc<Outcome>,
    weight: u32,
}

impl Model for Run {
    ghost use Rattle.std.specs.Coded.{codes};
    ghost use Rattle.hol_exec.specs.CommandCode.{coded_command};
    ghost use Rattle.hol_exec.specs.Codes.{coded_reads, coded_tested, coded_outcome};
    ghost use Rattle.hol_document.specs.Runs.{RunValue};

    ghost Value = { RunValue };

    ghost coded = { Prim.hlevel (codes, coded_command, coded_reads, coded_tested, coded_outcome) };

    ghost view = { λ r. record { text = r.line.value.text; value = r.line.value.value; reads = r.reads.value; tested = r.tested.value; outcome = r.outcome.value } };
}

impl Run {
    fn line(&self) -> &Rc<Line>
        ensures text { result.now.value.text ≡ self.now.text }
        ensures value { result.now.value.value ≡ self.now.value }
    {
        &self.line
    }

    fn reads(&self) -> &Rc<Reads>
        ensures { result.now.value ≡ self.now.reads }
    {
        &self.reads
    }

    fn tested(&self) -> &Rc<Tested>
        ensures { result.now.value ≡ self.now.tested }
    {
        &self.tested
    }

    fn outcome(&self) -> &Rc<Outcome>
        ensures { result.now.value ≡ self.now.outcome }
    {
        &self.outcome
    }

    // How much it holds, in nodes of terms.
    fn weight(&self) -> u32 {
        self.weight
    }
}

/// Outcomes that have left their slots, one for each text of a command and mark of what it read; all of one set-up. The one that has not left a slot for longest gives way where a
/// new one finds no room; all do, where they would hold too much with it.
#[derive(Drop)]
pub(crate) struct Cache {
    setup: Rc<SetupTable>,
    runs: LruCache<RunKey, Run>,
    weight: u32,
}

impl Model for Cache {
    ghost use Rattle.std.specs.Prelude.{Contains};
    ghost use Rattle.hol_exec.specs.Setup.{SetupValue};
    ghost use Rattle.hol_theory.specs.Constants.{constant_names};
    ghost use Rattle.hol_document.specs.Runs.{IsRun};

    ghost Value = { SetupValue };

    ghost view = { λ c. c.setup.value };

    ghost invariant = { λ c. (entry : _) → Contains c.runs.entries entry → IsRun c.setup.value entry.1 };
}

impl Cache {
    /// No outcomes, with room for so many of this set-up.
    pub(crate) fn new(alloc: Global, setup: Rc<SetupTable>, room: u32) -> Result<Cache, AllocError>
        requires { 1 ≤ room }
        ensures { IfOk result (λ cache. cache ≡ setup.value) }
    {
        let Some(room) = NonZeroUsize::new(room as usize) else {
            unreachable!()
        };
        let runs = LruCache::new(alloc, room)?;
        Ok(Cache {
            setup,
            runs,
            weight: 0,
        })
    }

    /// What the command came to where it read this, if that is there and was run where the names that were tested are those of constants, or not, as they are here. It stays,
    /// since other slots may ask for it too.
    pub(crate) fn find(
        &self,
        line: &Line,
        command: &LocalCommand,
        reads: &Rc<Reads>,
        env: &Env,
    ) -> Result<Option<(Rc<Outcome>, Rc<Tested>)>, AllocError>
        requires { line.now.value ≡ read.Reads (Local (local_text command.now)) }
        ensures { IfOk result (λ found. IfSome found (λ r. IsLocalOutcome self.now (constant_names env.now) (local_text command.now) reads.now.value (record { outcome = r.0.value; tested = r.1.value }))) }
    {
        let key = RunKey {
            text: line.text().clone()?,
            mark: reads.mark(),
        };
        let Some(run) = self.runs.peek(&key) else {
            return Ok(None);
        };
        let _ = line.parsed();
        if is_of(run, line, reads) && agrees(run.tested(), env) {
            let outcome = run.outcome().clone()?;
            let tested = run.tested().clone()?;
            return Ok(Some((outcome, tested)));
        }
        Ok(None)
    }

    /// Puts in the slot's outcome, if its command was run. Where there is no memory for it, or it holds too much by itself, it is lost.
    pub(crate) fn put(&mut self, slot: &Slot)
        requires { (before : List EndedTheory) × (s : StateValue) × IsSlot self.old before s slot.now }
        ensures { self.new ≡ self.old }
    {
        if let Some(reads) = slot.reads() {
            if let Ok((key, run)) = run_of(slot, reads) {
                self.put_run(key, run);
            }
        }
    }

    // Puts in the run under this key, unless it holds too much by itself.
    fn put_run(&mut self, key: RunKey, run: Run)
        requires { IsRun self.old run }
        ensures { self.new ≡ self.old }
    {
        let weight = run.weight();
        if weight > LARGEST_WEIGHT {
            return;
        }
        self.make_room(weight);
        if let Ok(left) = self.runs.push(key, run) {
            self.weight = self
                .weight
                .saturating_add(weight)
                .saturating_sub(weight_of(&left));
        }
    }

    // Drops all outcomes, where they would hold too much with one more of this weight.
    fn make_room(&mut self, weight: u32)
        ensures { self.new ≡ self.old }
    {
        if self.weight.saturating_add(weight) > LARGEST_WEIGHT {
            self.clear();
        }
    }

    /// Drops all outcomes.
    pub(crate) fn clear(&mut self)
        ensures { self.new ≡ self.old }
    {
        self.runs.clear();
        self.weight = 0;
    }
}

// How much the run that has left the cache holds, if one has.
fn weight_of(left: &Option<(RunKey, Run)>) -> u32 {
    match left {
        Some(left) => left.1.weight(),
        None => 0,
    }
}

// Whether the run is of this text, and of these reads.
fn is_of(run: &Run, line: &Line, reads: &Reads) -> bool
    ensures text { result ≡ true → run.now.text ≡ line.now.text }
    ensures reads { result ≡ true → run.now.reads ≡ reads.now }
{
    run.line().text().as_str() == line.text().as_str() && run.reads().same(reads)
}

// The slot's run, which read this, and what it is found by.
fn run_of(slot: &Slot, reads: &Rc<Reads>) -> Result<(RunKey, Run), AllocError>
    ensures { IfOk result (λ found. found.1 ≡ record { text = slot.now.text; value = slot.now.row.value; reads = reads.now.value; tested = slot.now.row.tested; outcome = slot.now.row.outcome }) }
{
    let line = slot.line().clone()?;
    let key = RunKey {
        text: line.text().clone()?,
        mark: reads.mark(),
    };
    let run = Run {
        line,
        reads: reads.clone()?,
        tested: slot.tested().clone()?,
        outcome: slot.outcome().clone()?,
        weight: weight_in(slot, reads),
    };
    Ok((key, run))
}

// How much the slot's run holds, in nodes of terms: its text with what that reads as, what it read, and what it came to.
fn weight_in(slot: &Slot, reads: &Reads) -> u32 {
    let text = slot.line().text().len().min(1_000_000) as u32 / NODE_BYTES;
    text.saturating_add(reads.weight())
        .saturating_add(slot.outcome().weight())
}

//! What runs commands.
ghost use Rattle.std.specs.Prelude.{◌≡◌, []};
ghost use Rattle.std.specs.Coded.{Coded-set};
ghost use Rattle.hol_exec.specs.Codes.{coded_tested};
ghost use Rattle.hol_exec.specs.MeterView as metered;
ghost use Rattle.hol_exec.specs.SetupCode.{coded_setup};

use crate::cache::Cache;
use crate::line::Line;
use crate::slot::Slot;
use hol_exec::{LocalCommand, Meter, Outcome, Reads, SetupTable, Tested, run_local};
use hol_theory::Env;
use std::alloc::{AllocError, Global};
use std::rc::Rc;

/// What commands are run by, with how many were, and the outcomes that have left their slots.
#[derive(Drop)]
pub(crate) struct Runner {
    meter: Meter,
    cache: Cache,
    // No tested names: what tested none has these, which are made once.
    nothing: Rc<Tested>,
    ghost same: { cache ≡ metered.setup_of meter } by { Coded-set coded_setup cache (metered.setup_of meter) },
    ghost none: { nothing.value ≡ [] } by { Coded-set coded_tested nothing.value [] },
}

impl Runner {
    ghost use Rattle.std.specs.Prelude.{◌≡◌, ◌≤◌, List, IfOk, [], map};
    ghost use Rattle.hol_exec.specs.CommandText.{Local};
    ghost use Rattle.hol_exec.specs.CommandView.{local_text};
    ghost use Rattle.hol_exec.specs.Local.{IsLocalOutcome};
    ghost use Rattle.hol_exec.specs.MeterView as metered;
    ghost use Rattle.hol_exec.specs.Reading as read;
    ghost use Rattle.hol_exec.specs.ReadsValue.{AreKeyed};
    ghost use Rattle.hol_exec.specs.StateValue.{StateValue, EndedTheory};
    ghost use Rattle.hol_theory.specs.Constants.{constant_names};
    ghost use Rattle.hol_document.specs.RunnerView.{setup_of, ran_of, Stays, RunsAtMost};
    ghost use Rattle.hol_document.specs.Slots.{IsSlot, AreSlots};

    /// By this meter, with room for so many outcomes.
    pub(crate) fn new(
        alloc: Global,
        meter: Meter,
        setup: Rc<SetupTable>,
        room: u32,
    ) -> Result<Runner, AllocError>
        requires room { 1 ≤ room }
        requires setup { setup.value ≡ metered.setup_of meter }
        ensures setup { IfOk result (λ runner. setup_of runner ≡ metered.setup_of meter) }
        ensures ran { IfOk result (λ runner. ran_of runner ≡ metered.ran_of meter) }
    {
        let cache = Cache::new(alloc, setup, room)?;
        let nothing = Rc::new(alloc, Tested::none(alloc))?;
        Ok(Runner {
            meter,
            cache,
            nothing,
        })
    }

    /// How many commands were run, or 2^64 - 1 for more.
    pub(crate) fn ran(&self) -> u64
        ensures { result ≡ ran_of self.now }
    {
        self.meter.ran()
    }

    /// What the command comes to where it reads this and these are the entries, with the names of constants that were tested: an outcome that has left its slot, else it
    /// is run.
    pub(crate) fn outcome(
        &mut self,
        alloc: Global,
        line: &Line,
        command: &LocalCommand,
        reads: &Rc<Reads>,
        env: &Env,
    ) -> Result<(Rc<Outcome>, Rc<Tested>), AllocError>
        requires command { line.now.value ≡ read.Reads (Local (local_text command.now)) }
        requires keyed { AreKeyed (local_text command.now) reads.now.value }
        ensures outcome { IfOk result (λ r. IsLocalOutcome (setup_of self.old) (constant_names env.now) (local_text command.now) reads.now.value (record { outcome = r.0.value; tested = r.1.value })) }
        ensures few { RunsAtMost self.old self.new result (λ _. 1) }
    {
        if let Some(known) = self.cache.find(line, command, reads, env)? {
            return Ok(known);
        }
        let (outcome, tested) = run_local(alloc, &mut self.meter, command, reads, env.names())?;
        Ok((Rc::new(alloc, outcome)?, self.shared(alloc, tested)?))
    }

    /// No tested names.
    pub(crate) fn nothing(&self) -> Result<Rc<Tested>, AllocError>
        ensures { IfOk result (λ tested. tested.value ≡ []) }
    {
        self.nothing.clone()
    }

    // The tested names, to be shared.
    fn shared(&self, alloc: Global, tested: Tested) -> Result<Rc<Tested>, AllocError>
        ensures { IfOk result (λ shared. shared.value ≡ tested) }
    {
        if tested.is_none() {
            return self.nothing();
        }
        Ok(Rc::new(alloc, tested)?)
    }

    /// The slot's outcome has left it.
    pub(crate) fn leave(&mut self, slot: &Slot)
        requires { (before : List EndedTheory) × (s : StateValue) × IsSlot (setup_of self.old) before s slot.now }
        ensures { Stays self.old self.new }
    {
        self.cache.put(slot);
    }

    /// Drops the outcomes that have left their slots.
    pub(crate) fn forget(&mut self)
        ensures { Stays self.old self.new }
    {
        self.cache.clear();
    }

    /// The outcomes of all these slots have left them.
    pub(crate) fn leave_each(&mut self, slots: &[Rc<Slot>])
        requires { (before : List EndedTheory) × (s last : StateValue) × AreSlots (setup_of self.old) before s (map (λ x. x.value) slots.now) last }
        ensures { Stays self.old self.new }
    {
        for slot in slots {
            self.leave(slot);
        }
    }
}

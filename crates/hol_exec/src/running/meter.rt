//! What commands are run by, with how many were.
ghost use Rattle.std.specs.Prelude.{◌≡◌, ◌≤◌, ◌+◌, ◌-◌, ◌^◌, min, IfOk};

use crate::running::setup::Setup;
use crate::running::setup_table::SetupTable;
use std::alloc::{AllocError, Global};

/// What is fixed for a run, and the number of commands that were run.
#[derive(Drop)]
pub struct Meter {
    setup: Setup,
    ran: u64,
}

impl Meter {
    ghost use Rattle.std.specs.Prelude.{◌≡◌, ◌≤◌, ◌+◌, ◌-◌, ◌^◌, min, IfOk};
    ghost use Rattle.hol_exec.specs.SetupView.{setup_value};
    ghost use Rattle.hol_exec.specs.MeterView.{setup_of, ran_of};

    /// A meter of this set-up, by which nothing was run.
    pub fn new(setup: Setup) -> Meter
        ensures setup { setup_of result ≡ setup_value setup }
        ensures ran { ran_of result ≡ 0 }
    {
        Meter { setup, ran: 0 }
    }

    /// How many commands were run, or 2^64 - 1 for more.
    pub fn ran(&self) -> u64
        ensures { result ≡ ran_of self.now }
    {
        self.ran
    }

    /// The set-up as plain data.
    pub fn table(&self, alloc: Global) -> Result<SetupTable, AllocError>
        ensures { IfOk result (λ table. table ≡ setup_of self.now) }
    {
        self.setup.table(alloc)
    }

    /// The set-up.
    pub(crate) fn setup(&self) -> &Setup
        ensures { setup_value result.now ≡ setup_of self.now }
    {
        &self.setup
    }

    /// Counts a command that is run.
    pub(crate) fn count(&mut self)
        ensures setup { setup_of self.new ≡ setup_of self.old }
        ensures ran { ran_of self.new ≡ min (ran_of self.old + 1) (2 ^ 64 - 1) }
        ensures rises { ran_of self.old ≤ ran_of self.new }
    {
        self.ran = self.ran.saturating_add(1);
    }
}

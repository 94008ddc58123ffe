//! What is fixed for a run, as plain data.
ghost use Rattle.std.specs.Prelude.{◌≡◌, map};
ghost use Rattle.hol_registry.specs.RegistryView.{listed};

use hol_goal::TacCode;
use std::marker::Model;

/// What is fixed for a run, as plain data: names and codes of the registered functions on goals, and the number of turns that a command has.
#[derive(Drop)]
pub struct SetupTable {
    rows: Vec<(String, TacCode)>,
    turns: u32,
}

impl Model for SetupTable {
    ghost use Rattle.std.specs.Prelude.{map};
    ghost use Rattle.hol_registry.specs.RegistryView.{listed};
    ghost use Rattle.hol_exec.specs.Setup.{SetupValue};
    ghost use Rattle.hol_exec.specs.SetupCode.{coded_setup};

    ghost Value = { SetupValue };

    ghost coded = { coded_setup };

    ghost view = { λ s. record { table = map listed s.rows.items; turns = s.turns } };
}

impl SetupTable {
    /// The set-up of these functions and this number of turns.
    pub(crate) fn new(rows: Vec<(String, TacCode)>, turns: u32) -> SetupTable
        ensures { result ≡ record { table = map listed rows.items; turns = turns } }
    {
        SetupTable { rows, turns }
    }
}

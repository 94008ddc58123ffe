//! Where the names of functions on goals are looked up.
ghost use Rattle.std.specs.Prelude.{◌≡◌, ℕ, List};
ghost use Rattle.std.specs.Option.{option_map};
ghost use Rattle.hol_goal.specs.declared.tac_code.TacCode.{TacCode};
ghost use Rattle.hol_exec.specs.Callee.{registered};
ghost use Rattle.hol_exec.specs.CalleeView.{callee_option};
ghost use Rattle.hol_exec.specs.declared.resolving.callee.Callee.TheVariants as Callee;

use crate::running::{RegisteredTac, Setup};

/// Where the names of functions on goals are looked up: a set-up. The functions that call each other to resolve an expression take it by this trait.
pub(crate) trait LooksUp {
    ghost use Rattle.std.specs.Prelude.{◌≡◌, ℕ, List};
    ghost use Rattle.std.specs.Option.{option_map};
    ghost use Rattle.hol_goal.specs.declared.tac_code.TacCode.{TacCode};
    ghost use Rattle.hol_exec.specs.Callee.{registered};
    ghost use Rattle.hol_exec.specs.CalleeView.{callee_option};
    ghost use Rattle.hol_exec.specs.declared.resolving.callee.Callee.TheVariants as Callee;

    ghost table_of: { Self → List (List ℕ × TacCode) };

    fn look_up(&self, name: &str) -> Option<RegisteredTac>
        ensures { callee_option (option_map Callee.Registered result) ≡ registered name.now (table_of self.now) };
}

impl LooksUp for Setup {
    ghost use Rattle.hol_exec.specs.SetupView.{setup_value};

    ghost table_of = { λ setup. (setup_value setup).table };

    fn look_up(&self, name: &str) -> Option<RegisteredTac> {
        self.find(name)
    }
}

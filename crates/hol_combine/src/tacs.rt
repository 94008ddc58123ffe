//! What calls registered functions on goals.
ghost use Rattle.std.specs.Prelude.{◌≡◌, ◌≤◌, ◌<◌, length, IfOk};
ghost use Rattle.hol_goal.specs.ArgumentsView.{args_value};
ghost use Rattle.hol_just.specs.Answering.{IsJustified};
ghost use Rattle.hol_combine.specs.Called.{IsCalled};
ghost use Rattle.hol_combine.specs.Runs.{KnownValue};

use hol_goal::{Goal, Names, TacArgs};
use hol_just::{TacFault, Tried};
use hol_registry::Registry;

/// What calls registered functions on goals: a registry, and the names of constants. The functions that run an expression take it by this trait.
pub(crate) trait Tacs {
    ghost use Rattle.std.specs.Prelude.{◌≡◌, ◌≤◌, ◌<◌, length, IfOk};
    ghost use Rattle.hol_goal.specs.ArgumentsView.{args_value};
    ghost use Rattle.hol_just.specs.Answering.{IsJustified};
    ghost use Rattle.hol_combine.specs.Called.{IsCalled};
    ghost use Rattle.hol_combine.specs.Runs.{KnownValue};

    ghost known_of: { Self → KnownValue };

    fn count(&self) -> usize
        ensures { result ≡ length (known_of self.now).table };

    fn call_at(
        &self,
        index: usize,
        args: &TacArgs,
        goal: &Goal,
        turns: u32,
    ) -> Result<Tried, TacFault>
        requires index { index < length (known_of self.now).table }
        requires turns { turns ≤ 100000 }
        ensures answer { IsCalled (known_of self.now) index (args_value args.now) goal.now turns result }
        ensures valid { IfOk result (λ tried. IsJustified (args_value args.now) goal.now tried.step) };
}

/// The registry, and the names of constants.
#[derive(Clone, Copy)]
pub(crate) struct Calls<'a> {
    pub(crate) registry: &'a Registry,
    pub(crate) names: &'a Names,
}

impl<'a> Tacs for Calls<'a> {
    ghost use Rattle.hol_registry.specs.RegistryView.{table};

    ghost known_of = { λ calls. record { table = table calls.registry.now; names = calls.names.now } };

    fn count(&self) -> usize {
        self.registry.count()
    }

    fn call_at(
        &self,
        index: usize,
        args: &TacArgs,
        goal: &Goal,
        turns: u32,
    ) -> Result<Tried, TacFault> {
        self.registry.call(index, args, goal, self.names, turns)
    }
}

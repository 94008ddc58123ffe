//! The keys that a command cites and makes, with a filter of their names.
ghost use Rattle.std.specs.Prelude.{◌≡◌, IfOk};
ghost use Rattle.hol_notation_commands.specs.CommandView.{local_text};
ghost use Rattle.hol_exec.specs.Filters.{HasNames};
ghost use Rattle.hol_exec.specs.Keys.{command_keys};

use crate::reads::keys::{cited_keys, made_keys};
use crate::reads::names::names_of;
use hol_notation_commands::LocalCommand;
use hol_theory::Key;
use hol_types::NameFilter;
use std::alloc::{AllocError, Global};
use std::marker::Model;

/// The keys that a command cites and those that it makes, each in text order. Each has the names of its keys in a filter.
#[derive(Drop)]
pub struct CommandKeys {
    cited: Vec<Key>,
    made: Vec<Key>,
    names: NameFilter,
}

impl Model for CommandKeys {
    ghost use Rattle.hol_exec.specs.Codes.{coded_command_keys};
    ghost use Rattle.hol_exec.specs.Filters.{HasNames};
    ghost use Rattle.hol_exec.specs.Keys.{CommandKeysValue};

    ghost Value = { CommandKeysValue };

    ghost coded = { coded_command_keys };

    ghost view = { λ k. record { cited = k.cited.items; made = k.made.items } };

    ghost invariant = { λ k. HasNames k.names.bits k.cited.items × HasNames k.names.bits k.made.items };
}

impl CommandKeys {
    /// The keys of the command.
    #[tactic(auto, using(crate::proofs::NameFilters::names_left, crate::proofs::NameFilters::names_right))]
    pub fn of(alloc: Global, command: &LocalCommand) -> Result<CommandKeys, AllocError>
        ensures { IfOk result (λ keys. keys ≡ command_keys (local_text command.now)) }
    {
        let cited = cited_keys(alloc, command)?;
        let made = made_keys(alloc, command)?;
        let names = names_of(&cited).union(names_of(&made));
        Ok(CommandKeys { cited, made, names })
    }

    /// Those that it cites.
    pub(crate) fn cited(&self) -> &[Key]
        ensures { result.now ≡ self.now.cited }
    {
        self.cited.as_slice()
    }

    /// Those that it makes.
    pub(crate) fn made(&self) -> &[Key]
        ensures { result.now ≡ self.now.made }
    {
        self.made.as_slice()
    }

    /// A filter that has their names.
    pub(crate) fn names(&self) -> NameFilter
        ensures cited { HasNames result.bits self.now.cited }
        ensures made { HasNames result.bits self.now.made }
    {
        self.names
    }
}

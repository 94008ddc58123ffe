//! Registries of functions on goals.
ghost use Rattle.std.specs.Prelude.{◌≡◌, ◌≤◌, ◌<◌, map, length, bytes_eq, slice_get, IfOk, IfErr, IfSome, OnOk, Some};
ghost use Rattle.std.specs.Option.{option_map};
ghost use Rattle.std.specs.List.{IsDistinct};
ghost use Rattle.hol_goal.specs.ArgumentsView.{args_value};
ghost use Rattle.hol_just.specs.Answering.{AnswersCode, IsJustified};
ghost use Rattle.hol_registry.specs.Table.{index_of};
ghost use Rattle.hol_registry.specs.Refusal.{IsRefusal};

use crate::entry::Entry;
use crate::error::RegistryError;
use crate::named::{self, Named};
use hol_goal::{Goal, Names, TacArgs, TacCode};
use hol_just::{TacFault, Tried};
use std::alloc::{AllocError, Global};

/// Functions on goals whose names differ.
#[derive(Drop)]
pub struct Registry {
    entries: Vec<Entry>,
}

impl Registry {
    ghost use Rattle.hol_registry.specs.RegistryView.{name, row, table, listed};

    /// The registry of these entries, in order.
    ///
    /// Refused by [`RegistryError::Twice`] where two have one name: by the first name that is met again.
    pub fn new(entries: Vec<Entry>) -> Result<Registry, RegistryError>
        ensures table { IfOk result (λ registry. table registry ≡ map row entries.items) }
        ensures distinct { OnOk result (IsDistinct bytes_eq (map name entries.items)) }
        ensures twice { IfErr result (IsRefusal (map name entries.items)) }
    {
        let mut entries = entries;
        match named::first_again(&entries) {
            None => Ok(Registry { entries }),
            Some(i) => Err(RegistryError::Twice(entries.swap_remove(i).into_name())),
        }
    }

    /// The index of the entry of the name.
    pub fn find(&self, name: &str) -> Option<usize>
        ensures index { result ≡ index_of name.now (table self.now) }
        ensures within { IfSome result (λ i. i < length (table self.now)) }
    {
        named::find(&self.entries, name)
    }

    /// How many entries it has.
    pub fn count(&self) -> usize
        ensures { result ≡ length (table self.now) }
    {
        self.entries.len()
    }

    /// The code of the entry at an index.
    pub fn code(&self, index: usize) -> TacCode
        requires { index < length (table self.now) }
        ensures { option_map (λ row. row.1) (slice_get (table self.now) index) ≡ Some result }
    {
        self.entries[index].code()
    }

    /// The names and codes of the entries, in order.
    pub fn rows(&self, alloc: Global) -> Result<Vec<(String, TacCode)>, AllocError>
        ensures { IfOk result (λ rows. map listed rows.items ≡ table self.now) }
    {
        let mut rows = Vec::with_capacity(alloc, self.entries.len())?;
        for entry in &self.entries {
            rows.push((String::from_str(alloc, entry.name())?, entry.code()))?;
        }
        Ok(rows)
    }

    /// Calls the function of the entry at an index: it answers what the entry's code means, with a justified step, or that memory is short.
    pub fn call(
        &self,
        index: usize,
        args: &TacArgs,
        goal: &Goal,
        names: &Names,
        turns: u32,
    ) -> Result<Tried, TacFault>
        requires index { index < length (table self.now) }
        requires turns { turns ≤ 100000 }
        ensures answer { IfSome (slice_get (table self.now) index) (λ row. AnswersCode row.1 (args_value args.now) goal.now names.now turns result) }
        ensures valid { IfOk result (λ tried. IsJustified (args_value args.now) goal.now tried.step) }
    {
        self.entries[index].call(args, goal, names, turns)
    }
}

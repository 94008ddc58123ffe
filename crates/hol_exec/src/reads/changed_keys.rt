//! Keys under which something else stands than before.
ghost use Rattle.std.specs.Prelude.{◌≡◌, ◌||◌, [], false, OnOk, is_some, map};
ghost use Rattle.std.specs.List.{list_any};
ghost use Rattle.std.specs.Map.{keys_of};
ghost use Rattle.hol_theory.specs.Entry.{entry_at};
ghost use Rattle.hol_theory.specs.Key.{KeyValue};
ghost use Rattle.hol_exec.specs.ChangedKeys.{is_one_of, keys_made, AreApart};
ghost use Rattle.hol_exec.specs.Filters.{HasNames};

use crate::reads::listed_keys::ListedKeys;
use crate::running::{Change, Outcome};
use crate::state::NewEntries;
use hol_theory::{Env, Key};
use hol_types::NameFilter;
use std::alloc::{AllocError, Global};
use std::marker::Model;

/// Keys under which something else stands than before. Those that an import brings as a theory's are held as that theory, which takes no memory for each.
#[derive(Drop)]
pub struct ChangedKeys {
    listed: ListedKeys,
    theories: Vec<Env>,
}

impl Model for ChangedKeys {
    ghost use Rattle.std.specs.Prelude.{List, ◌++◌};
    ghost use Rattle.std.specs.Coded.{coded_list};
    ghost use Rattle.hol_theory.specs.Codes.{coded_key};
    ghost use Rattle.hol_theory.specs.Key.{KeyValue};
    ghost use Rattle.hol_exec.specs.ChangedKeysView.{all_keys};

    ghost Value = { List KeyValue };

    ghost coded = { coded_list coded_key };

    ghost view = { λ c. c.listed ++ all_keys c.theories.items };
}

impl ChangedKeys {
    /// No keys.
    pub fn new(alloc: Global) -> ChangedKeys
        ensures { result ≡ [] }
    {
        ChangedKeys {
            listed: ListedKeys::new(alloc),
            theories: Vec::new(alloc),
        }
    }

    /// Whether the key is one of them.
    pub(crate) fn has(&self, key: &Key) -> bool
        ensures { result ≡ is_one_of self.now key.now }
    {
        self.listed.has(key) || is_in_any(&self.theories, key)
    }

    /// Whether keys of which this is a filter of names may be among them.
    pub(crate) fn may_meet(&self, names: NameFilter) -> bool
        ensures { result ≡ false → (keys : _) → HasNames names.bits keys → AreApart self.now keys }
    {
        if !self.theories.is_empty() {
            return true;
        }
        names.meets(self.listed.names())
    }

    /// Adds the keys of what the outcome makes.
    pub fn add_made(&mut self, outcome: &Outcome) -> Result<(), AllocError>
        ensures { OnOk result ((k : KeyValue) → is_one_of self.new k ≡ (is_one_of self.old k || is_one_of (keys_made outcome.now) k)) }
    {
        match outcome.change() {
            Change::Makes(entries) => self.add_keys_of(entries),
            Change::Opens(_, _, _)
            | Change::Leaves(_, _, _)
            | Change::Undoes
            | Change::Rotates(_)
            | Change::Refuses(_, _) => Ok(()),
        }
    }

    // Adds the keys of entries.
    fn add_keys_of(&mut self, entries: &NewEntries) -> Result<(), AllocError>
        ensures { OnOk result ((k : KeyValue) → is_one_of self.new k ≡ (is_one_of self.old k || is_one_of (map (λ entry. entry.0) entries.now) k)) }
    {
        match entries.shared_theory() {
            Some(theory) => self.add_theory(theory),
            None => self.add_listed(entries),
        }
    }

    // Adds the keys of a theory, which is held whole.
    fn add_theory(&mut self, theory: &Env) -> Result<(), AllocError>
        ensures { OnOk result ((k : KeyValue) → is_one_of self.new k ≡ (is_one_of self.old k || is_one_of (map (λ entry. entry.0) theory.now) k)) }
    {
        self.theories.push(theory.checkpoint()?)?;
        Ok(())
    }

    // Adds the keys of entries one by one.
    fn add_listed(&mut self, entries: &NewEntries) -> Result<(), AllocError>
        ensures { OnOk result ((k : KeyValue) → is_one_of self.new k ≡ (is_one_of self.old k || is_one_of (map (λ entry. entry.0) entries.now) k)) }
    {
        self.listed.add_keys_of(entries)
    }
}

// Whether one of the theories has an entry under the key.
fn is_in_any(theories: &[Env], key: &Key) -> bool
    ensures { result ≡ list_any (λ entries. is_some (entry_at key.now entries)) theories.now }
{
    theories.iter().any(|theory| theory.get(key).is_some())
}

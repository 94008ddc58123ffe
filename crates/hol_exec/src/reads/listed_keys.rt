//! A set of keys, with a filter of their names.
ghost use Rattle.std.specs.Prelude.{◌≡◌, ◌||◌, [], OnOk, map};
ghost use Rattle.indexmap.specs.IndexSet.{IsUnique};
ghost use Rattle.hol_theory.specs.Key.{KeyValue, key_eq};
ghost use Rattle.hol_exec.specs.ChangedKeys.{is_one_of};
ghost use Rattle.hol_exec.specs.Filters.{HasNames};

use crate::state::NewEntries;
use hol_theory::Key;
use hol_types::NameFilter;
use indexmap::IndexSet;
use std::alloc::{AllocError, Global};
use std::marker::Model;

/// A set of keys, with a filter of their names.
#[derive(Drop)]
pub(crate) struct ListedKeys {
    keys: IndexSet<Key>,
    names: NameFilter,
}

impl Model for ListedKeys {
    ghost use Rattle.std.specs.Prelude.{List};
    ghost use Rattle.std.specs.Coded.{coded_list};
    ghost use Rattle.indexmap.specs.IndexSet.{IsUnique};
    ghost use Rattle.hol_theory.specs.Codes.{coded_key};
    ghost use Rattle.hol_theory.specs.Key.{KeyValue, key_eq};
    ghost use Rattle.hol_exec.specs.Filters.{HasNames};

    ghost Value = { List KeyValue };

    ghost coded = { coded_list coded_key };

    ghost view = { λ c. c.keys.keys };

    ghost invariant = { λ c. IsUnique key_eq c.keys × HasNames c.names.bits c.keys.keys };
}

impl ListedKeys {
    /// No keys.
    pub(crate) fn new(alloc: Global) -> ListedKeys
        ensures { result ≡ [] }
    {
        ListedKeys {
            keys: IndexSet::new(alloc),
            names: NameFilter::empty(),
        }
    }

    /// Whether the key is one of them.
    pub(crate) fn has(&self, key: &Key) -> bool
        ensures { result ≡ is_one_of self.now key.now }
    {
        if !self.names.meets(key.filter()) {
            return false;
        }
        self.keys.contains(key)
    }

    /// A filter that has their names.
    pub(crate) fn names(&self) -> NameFilter
        ensures { HasNames result.bits self.now }
    {
        self.names
    }

    // Adds a key.
    fn add(&mut self, key: &Key) -> Result<(), AllocError>
        ensures { OnOk result ((k : KeyValue) → is_one_of self.new k ≡ (is_one_of self.old k || key_eq k key.now)) }
    {
        self.keys.insert(key.copy()?)?;
        self.names = self.names.union(key.filter());
        Ok(())
    }

    /// Adds the keys of entries.
    #[tactic(auto, using(crate::proofs::Changing::none_more))]
    pub(crate) fn add_keys_of(&mut self, entries: &NewEntries) -> Result<(), AllocError>
        ensures { OnOk result ((k : KeyValue) → is_one_of self.new k ≡ (is_one_of self.old k || is_one_of (map (λ entry. entry.0) entries.now) k)) }
    {
        for i in 0..entries.len() {
            let (key, _) = entries.entry(i);
            self.add(key)?;
        }
        Ok(())
    }
}

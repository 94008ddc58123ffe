//! A layer: entries in a row, each found by its key.
ghost use Rattle.std.specs.Prelude.{◌≡◌, ◌<◌, ◌≤◌, ◌+◌, ◌++◌, [], ◌∷◌, length, slice_get, IfOk, OnOk, OnErr, Some, None, option_copied};
ghost use Rattle.indexmap.specs.IndexMap.{insert_entry, insert_all, spare, IsUnique};
ghost use Rattle.hol_theory.specs.Key.{key_eq};
ghost use Rattle.hol_theory.specs.Entry.{entry_at};
ghost use Rattle.hol_theory.specs.Adding.{AreNew};

use crate::key::Key;
use crate::value::Value;
use indexmap::IndexMap;
use std::alloc::{AllocError, Global};
use std::marker::Model;

/// Entries in standing order, each under its key.
#[derive(Drop)]
pub(crate) struct Layer {
    entries: IndexMap<Key, Value>,
}

impl Model for Layer {
    ghost use Rattle.indexmap.specs.IndexMap.{IsUnique};
    ghost use Rattle.hol_theory.specs.Key.{key_eq};
    ghost use Rattle.hol_theory.specs.Entry.{Entries};
    ghost use Rattle.hol_theory.specs.Codes.{coded_entries};

    ghost Value = { Entries };

    ghost coded = { coded_entries };

    ghost view = { λ layer. layer.entries.entries };

    ghost invariant = { λ layer. IsUnique key_eq layer.entries };
}

impl Layer {
    /// The layer without entries.
    pub(crate) fn new(alloc: Global) -> Layer
        ensures { result ≡ [] }
    {
        Layer {
            entries: IndexMap::new(alloc),
        }
    }

    /// What stands under the key.
    pub(crate) fn get(&self, key: &Key) -> Option<&Value>
        ensures { option_copied result ≡ entry_at key.now self.now }
    {
        self.entries.get(key)
    }

    /// The number of entries.
    pub(crate) fn len(&self) -> usize
        ensures { result ≡ length self.now }
    {
        self.entries.len()
    }

    /// An entry by its place, from 0.
    pub(crate) fn entry(&self, index: usize) -> (&Key, &Value)
        requires { index < length self.now }
        ensures { slice_get self.now index ≡ Some (result.0.now, result.1.now) }
    {
        match self.entries.get_index(index) {
            Some(entry) => entry,
            None => unreachable!(),
        }
    }

    /// Adds an entry, which comes last.
    pub(crate) fn add(&mut self, key: Key, value: Value) -> Result<(), AllocError>
        requires { entry_at key self.old ≡ None }
        ensures ok { OnOk result (self.new ≡ self.old ++ (key, value) ∷ []) }
        ensures err { OnErr result (self.new ≡ self.old) }
    {
        self.entries.insert(key, value)?;
        Ok(())
    }

    /// Adds entries, which come last in their order: all of them, or none.
    pub(crate) fn add_all(&mut self, more: Vec<(Key, Value)>) -> Result<(), AllocError>
        requires { AreNew self.old more.items }
        ensures ok { OnOk result (self.new ≡ self.old ++ more.items) }
        ensures err { OnErr result (self.new ≡ self.old) }
    {
        insert_each(&mut self.entries, more)
    }

    /// The same entries.
    pub(crate) fn copy(&self, alloc: Global) -> Result<Layer, AllocError>
        ensures { IfOk result (λ layer. layer ≡ self.now) }
    {
        self.with_room(alloc, 0)
    }

    /// These entries, and after them those of the next layer.
    pub(crate) fn joined(&self, alloc: Global, next: &Layer) -> Result<Layer, AllocError>
        requires { AreNew self.now next.now }
        ensures { IfOk result (λ layer. layer ≡ self.now ++ next.now) }
    {
        let mut both = self.with_room(alloc, next.len())?;
        both.add_copies(next)?;
        Ok(both)
    }

    // The same entries, with room for so many more.
    fn with_room(&self, alloc: Global, more: usize) -> Result<Layer, AllocError>
        ensures { IfOk result (λ layer. layer ≡ self.now) }
    {
        let room = self.entries.len().saturating_add(more);
        let mut copy = Layer {
            entries: IndexMap::with_capacity(alloc, room)?,
        };
        copy.add_copies(self)?;
        Ok(copy)
    }

    // Adds copies of the entries, which come last in their order.
    fn add_copies(&mut self, more: &Layer) -> Result<(), AllocError>
        requires { AreNew self.old more.now }
        ensures { OnOk result (self.new ≡ self.old ++ more.now) }
    {
        for (key, value) in more.entries.iter() {
            self.add(key.copy()?, value.copy()?)?;
        }
        Ok(())
    }
}

// Inserts the entries in their order: all of them, or none.
fn insert_each(
    entries: &mut IndexMap<Key, Value>,
    more: Vec<(Key, Value)>,
) -> Result<(), AllocError>
    ensures ok { OnOk result (entries.new.entries ≡ insert_all key_eq entries.old.entries more.items) }
    ensures err { OnErr result (entries.new.entries ≡ entries.old.entries) }
    ensures unique { IsUnique key_eq entries.old → IsUnique key_eq entries.new }
{
    entries.reserve(more.len())?;
    for (key, value) in more {
        insert_one(entries, key, value);
    }
    Ok(())
}

// Inserts an entry where there is room for one.
fn insert_one(entries: &mut IndexMap<Key, Value>, key: Key, value: Value)
    requires { 0 < spare entries.old }
    ensures entries { entries.new.entries ≡ insert_entry key_eq entries.old.entries key value }
    ensures room { spare entries.old ≤ spare entries.new + 1 }
    ensures unique { IsUnique key_eq entries.new }
{
    match entries.insert(key, value) {
        Ok(_) => {}
        Err(_) => unreachable!(),
    }
}

//! The entries of a theory.
ghost use Rattle.std.specs.Prelude.{◌≡◌, ◌<◌, ◌+◌, ◌++◌, [], ◌∷◌, length, slice_get, IfOk, OnOk, OnErr, Some, None, is_some, option_copied};
ghost use Rattle.std.specs.List.{IsDistinct};
ghost use Rattle.std.specs.Map.{keys_of};
ghost use Rattle.hol_theory.specs.Key.{key_eq};
ghost use Rattle.hol_theory.specs.Constants.{constant_name, constant_names};
ghost use Rattle.hol_theory.specs.Entry.{entry_at};
ghost use Rattle.hol_theory.specs.Theory.{IsTheory};
ghost use Rattle.hol_theory.specs.Adding.{AreNew, CanFollow, Adds, Imports, stands_otherwise, first_clash, missing};

use crate::error::EnvError;
use crate::key::{Key, Kind};
use crate::layer::Layer;
use crate::older::Older;
use crate::value::Value;
use hol_goal::Names;
use std::alloc::{AllocError, AllocFailed, Global};
use std::marker::Model;
use std::mem;

// The number of newest entries at which they become a layer of the older ones.
const LAYER_LEN: usize = 32;

/// The entries of a theory in standing order, each under its key. The prelude is not among them. Checkpoints share all but the newest ones.
#[derive(Drop)]
pub struct Env {
    alloc: Global,
    count: usize,
    older: Older,
    newest: Layer,
    names: Names,
}

impl Model for Env {
    ghost use Rattle.std.specs.Prelude.{◌≡◌, ◌++◌, [], length};
    ghost use Rattle.hol_theory.specs.Constants.{constant_names};
    ghost use Rattle.hol_theory.specs.Entry.{Entries};
    ghost use Rattle.hol_theory.specs.Theory.{IsTheory};
    ghost use Rattle.hol_theory.specs.Adding.{AreNew};
    ghost use Rattle.hol_theory.specs.Codes.{coded_entries};

    ghost Value = { Entries };

    ghost coded = { coded_entries };

    ghost view = { λ env. env.older ++ env.newest };

    ghost invariant = { λ env. AreNew [] (env.older ++ env.newest) × IsTheory (env.older ++ env.newest) × (env.count ≡ length (env.older ++ env.newest)) × (env.names ≡ constant_names (env.older ++ env.newest)) };
}

impl Env {
    /// The theory without entries.
    pub fn new(alloc: Global) -> Env
        ensures { result ≡ [] }
    {
        Env {
            alloc,
            count: 0,
            older: Older::new(alloc),
            newest: Layer::new(alloc),
            names: Names::none(alloc),
        }
    }

    /// What stands under the key.
    pub fn get(&self, key: &Key) -> Option<&Value>
        ensures { option_copied result ≡ entry_at key.now self.now }
    {
        match self.older.get(key) {
            Some(value) => Some(value),
            None => self.newest.get(key),
        }
    }

    /// The number of entries.
    pub fn len(&self) -> usize
        ensures { result ≡ length self.now }
    {
        self.count
    }

    /// The names of its constants, in standing order. Takes no memory.
    pub fn names(&self) -> &Names
        ensures { result.now ≡ constant_names self.now }
    {
        &self.names
    }

    /// An entry by its place in standing order, from 0.
    pub fn entry(&self, index: usize) -> (&Key, &Value)
        requires { index < length self.now }
        ensures { slice_get self.now index ≡ Some (result.0.now, result.1.now) }
    {
        let older = self.count - self.newest.len();
        if index < older {
            self.older.entry(index)
        } else {
            self.newest.entry(index - older)
        }
    }

    /// What every theory promises: no two of its entries have one key; the items of its entries in standing order, each at its first place,
    /// are a legal list; and each entry rests on items that stand up to it.
    pub fn promise(&self)
        ensures theory { IsTheory self.now }
        ensures keys { IsDistinct key_eq (keys_of self.now) }
    {
        let _newest = &self.newest;
    }

    /// The same theory, to go on from apart from this one. It shares all but the newest entries.
    pub fn checkpoint(&self) -> Result<Env, AllocError>
        ensures { IfOk result (λ env. env ≡ self.now) }
    {
        Ok(Env {
            alloc: self.alloc,
            count: self.count,
            older: self.older.copy(self.alloc)?,
            newest: self.newest.copy(self.alloc)?,
            names: self.names.copy(self.alloc)?,
        })
    }

    /// Adds an entry, which comes last.
    ///
    /// Refused by [`EnvError::Taken`] where something stands under the key.
    pub fn add(&mut self, key: &Key, value: &Value) -> Result<(), EnvError>
        requires { entry_at key.now self.old ≡ None → CanFollow self.old ((key.now, value.now) ∷ []) }
        ensures { Adds key.now value.now self.old self.new result }
    {
        if self.contains_key(key) {
            return Err(EnvError::Taken(key.copy()?));
        }
        let count = self.count_with(1)?;
        let mut names = self.names.copy(self.alloc)?;
        add_name(self.alloc, &mut names, key)?;
        let (key, value) = entry_copy(key, value)?;
        self.newest.add(key, value)?;
        self.names = names;
        self.count = count;
        self.settle();
        Ok(())
    }

    /// Adds entries, which come last in their order: all of them, or none.
    pub fn add_all(&mut self, more: &[(Key, Value)]) -> Result<(), AllocError>
        requires new { AreNew self.old more.now }
        requires follow { CanFollow self.old more.now }
        ensures ok { OnOk result (self.new ≡ self.old ++ more.now) }
        ensures err { OnErr result (self.new ≡ self.old) }
    {
        let copied = copies(self.alloc, more)?;
        self.take_all(copied)
    }

    /// Adds the other theory's entries under whose keys nothing stands, in their order: all of them, or none. A theory without entries shares those of the other.
    ///
    /// Refused by [`EnvError::ImportClash`] with the other theory's first key under which another value stands.
    pub fn import(&mut self, other: &Env) -> Result<(), EnvError>
        ensures { Imports other.now self.old self.new result }
    {
        if self.count == 0 {
            return Ok(self.become_checkpoint(other)?);
        }
        other.promise();
        if let Some(key) = self.first_clash(other) {
            return Err(EnvError::ImportClash(key.copy()?));
        }
        let more = self.missing(other)?;
        self.take_all(more)?;
        Ok(())
    }

    /// The other theory's first key under which another value stands.
    pub fn first_clash<'a>(&self, other: &'a Env) -> Option<&'a Key>
        ensures { option_copied result ≡ first_clash self.now other.now }
    {
        for i in 0..other.count {
            let (key, value) = other.entry(i);
            if self.stands_otherwise(key, value) {
                return Some(key);
            }
        }
        None
    }

    // Whether another value stands under the key.
    fn stands_otherwise(&self, key: &Key, value: &Value) -> bool
        ensures { result ≡ stands_otherwise (entry_at key.now self.now) value.now }
    {
        match self.get(key) {
            Some(own) => !own.same(value),
            None => false,
        }
    }

    /// Copies of the other theory's entries under whose keys nothing stands, in their order.
    pub fn missing(&self, other: &Env) -> Result<Vec<(Key, Value)>, AllocError>
        ensures { IfOk result (λ more. more.items ≡ missing self.now other.now) }
    {
        let mut more = Vec::new(self.alloc);
        for i in 0..other.count {
            let (key, value) = other.entry(i);
            if !self.contains_key(key) {
                more.push(entry_copy(key, value)?)?;
            }
        }
        Ok(more)
    }

    // Whether something stands under the key.
    fn contains_key(&self, key: &Key) -> bool
        ensures { result ≡ is_some (entry_at key.now self.now) }
    {
        self.get(key).is_some()
    }

    // This becomes the other theory.
    fn become_checkpoint(&mut self, other: &Env) -> Result<(), AllocError>
        ensures ok { OnOk result (self.new ≡ other.now) }
        ensures err { OnErr result (self.new ≡ self.old) }
    {
        *self = other.checkpoint()?;
        Ok(())
    }

    // The number of entries with so many more.
    fn count_with(&self, more: usize) -> Result<usize, AllocError>
        ensures { IfOk result (λ count. count ≡ length self.now + more) }
    {
        match self.count.checked_add(more) {
            Some(count) => Ok(count),
            None => Err(AllocError),
        }
    }

    // The names with those of the constants among more entries.
    fn names_with(&self, more: &[(Key, Value)]) -> Result<Names, AllocError>
        ensures { IfOk result (λ names. names ≡ constant_names (self.now ++ more.now)) }
    {
        let mut names = self.names.copy(self.alloc)?;
        for entry in more {
            add_name(self.alloc, &mut names, &entry.0)?;
        }
        Ok(names)
    }

    // Adds entries, which come last in their order: all of them, or none.
    fn take_all(&mut self, more: Vec<(Key, Value)>) -> Result<(), AllocError>
        requires new { AreNew self.old more.items }
        requires follow { CanFollow self.old more.items }
        ensures ok { OnOk result (self.new ≡ self.old ++ more.items) }
        ensures err { OnErr result (self.new ≡ self.old) }
    {
        let count = self.count_with(more.len())?;
        let names = self.names_with(&more)?;
        self.newest.add_all(more)?;
        self.names = names;
        self.count = count;
        self.settle();
        Ok(())
    }

    // Where the newest entries are many, they become a layer of the older ones. They stay where there is no memory for it.
    fn settle(&mut self)
        ensures { self.new ≡ self.old }
    {
        if self.newest.len() < LAYER_LEN {
            return;
        }
        let newest = mem::replace(&mut self.newest, Layer::new(self.alloc));
        if let Err(AllocFailed { value }) = self.older.push(self.alloc, newest) {
            self.newest = value;
        }
    }
}

// Adds the name of a key, where it is that of a constant.
fn add_name(alloc: Global, names: &mut Names, key: &Key) -> Result<(), AllocError>
    ensures { OnOk result (names.new ≡ names.old ++ constant_name key.now.kind key.now.name) }
{
    match key.kind() {
        Kind::Constant => names.add(alloc, key.shared_name()),
        Kind::Type | Kind::Theorem | Kind::Tac => Ok(()),
    }
}

// A copy of a key and a value.
fn entry_copy(key: &Key, value: &Value) -> Result<(Key, Value), AllocError>
    ensures { IfOk result (λ entry. entry ≡ (key.now, value.now)) }
{
    Ok((key.copy()?, value.copy()?))
}

// Copies of entries.
fn copies(alloc: Global, entries: &[(Key, Value)]) -> Result<Vec<(Key, Value)>, AllocError>
    ensures { IfOk result (λ copied. copied.items ≡ entries.now) }
{
    let mut copied = Vec::with_capacity(alloc, entries.len())?;
    for entry in entries {
        copied.push(entry_copy(&entry.0, &entry.1)?)?;
    }
    Ok(copied)
}

//! Entries that come new to a theory.
ghost use Rattle.std.specs.Prelude.{◌≡◌, ◌<◌, ◌++◌, ◌↔◌, IsTrue, length, slice_get, option_copied, Some, IfOk, OnOk, OnErr};
ghost use Rattle.hol_theory.specs.Adding.{AreNew, CanFollow};

use crate::weight::entries_weight;
use hol_theory::{Entries, Env, EnvError, Key, Value};
use std::alloc::{AllocError, Global};
use std::marker::Model;

/// Entries that come new to a theory, in their order.
#[derive(Drop)]
pub(crate) struct NewEntries {
    held: Held,
}

/// How they are held.
#[derive(Drop)]
pub(crate) enum Held {
    /// One by one.
    Listed(Entries),
    /// As all those of another theory, in layers that both share.
    Shared(Env),
}

impl Model for NewEntries {
    ghost use Rattle.hol_theory.specs.Entry.{Entries};
    ghost use Rattle.hol_theory.specs.Codes.{coded_entries};
    ghost use Rattle.hol_exec.specs.NewEntriesView.{held_entries};

    ghost Value = { Entries };

    ghost coded = { coded_entries };

    ghost view = { λ new. held_entries new.held };
}

impl NewEntries {
    /// These.
    pub(crate) fn listed(entries: Entries) -> NewEntries
        ensures { result ≡ entries.items }
    {
        NewEntries {
            held: Held::Listed(entries),
        }
    }

    /// All those of the theory.
    pub(crate) fn shared(env: Env) -> NewEntries
        ensures { result ≡ env }
    {
        NewEntries {
            held: Held::Shared(env),
        }
    }

    /// The number of them.
    pub(crate) fn len(&self) -> usize
        ensures { result ≡ length self.now }
    {
        match &self.held {
            Held::Listed(entries) => entries.len(),
            Held::Shared(env) => env.len(),
        }
    }

    /// How much they hold, in nodes of terms, up to 2^32 - 1. Those that are another theory's are held there.
    pub(crate) fn weight(&self) -> u32 {
        match &self.held {
            Held::Listed(entries) => entries_weight(entries),
            Held::Shared(_) => 1,
        }
    }

    /// One of them by its place, from 0.
    pub(crate) fn entry(&self, index: usize) -> (&Key, &Value)
        requires { index < length self.now }
        ensures { slice_get self.now index ≡ Some (result.0.now, result.1.now) }
    {
        match &self.held {
            Held::Listed(entries) => listed_entry(entries, index),
            Held::Shared(env) => env.entry(index),
        }
    }

    /// The theory whose entries they are, where they are held as that.
    pub(crate) fn shared_theory(&self) -> Option<&Env>
        ensures { (theory : _) → option_copied result ≡ Some theory → theory ≡ self.now }
    {
        match &self.held {
            Held::Listed(_) => None,
            Held::Shared(env) => Some(env),
        }
    }

    /// Whether both are the same, in the same order.
    #[tactic(auto, using(crate::proofs::NewEntries::same_next, crate::proofs::NewEntries::other_entry, crate::proofs::NewEntries::same_whole))]
    pub(crate) fn same(&self, other: &NewEntries) -> bool
        ensures { IsTrue result ↔ (self.now ≡ other.now) }
    {
        if self.len() != other.len() {
            return false;
        }
        for i in 0..self.len() {
            let (key, value) = self.entry(i);
            let (key2, value2) = other.entry(i);
            if !same_entry(key, value, key2, value2) {
                return false;
            }
        }
        true
    }

    /// Adds them to the theory, where they come last: all of them, or none. A theory without entries shares those that are another's.
    pub(crate) fn add_to(&self, env: &mut Env) -> Result<(), AllocError>
        requires new { AreNew env.old self.now }
        requires follow { CanFollow env.old self.now }
        ensures ok { OnOk result (env.new ≡ env.old ++ self.now) }
        ensures err { OnErr result (env.new ≡ env.old) }
    {
        match &self.held {
            Held::Listed(entries) => env.add_all(entries),
            Held::Shared(other) => import_new(env, other),
        }
    }
}

fn listed_entry(entries: &[(Key, Value)], index: usize) -> (&Key, &Value)
    requires { index < length entries.now }
    ensures { slice_get entries.now index ≡ Some (result.0.now, result.1.now) }
{
    let entry = &entries[index];
    (&entry.0, &entry.1)
}

fn same_entry(key: &Key, value: &Value, key2: &Key, value2: &Value) -> bool
    ensures { IsTrue result ↔ ((key.now ≡ key2.now) × (value.now ≡ value2.now)) }
{
    key == key2 && value.same(value2)
}

// Imports a theory under whose keys nothing stands.
#[tactic(auto, using(crate::proofs::NewEntries::new_clash, crate::proofs::NewEntries::new_missing))]
fn import_new(env: &mut Env, other: &Env) -> Result<(), AllocError>
    requires { AreNew env.old other.now }
    ensures ok { OnOk result (env.new ≡ env.old ++ other.now) }
    ensures err { OnErr result (env.new ≡ env.old) }
{
    match env.import(other) {
        Ok(()) => Ok(()),
        Err(EnvError::Memory) => Err(AllocError),
        Err(EnvError::Taken(_) | EnvError::ImportClash(_)) => unreachable!(),
    }
}

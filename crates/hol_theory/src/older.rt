//! The older entries of a theory, in layers that copies share.
ghost use Rattle.std.specs.Prelude.{◌≡◌, ◌<◌, ◌++◌, [], length, slice_get, IfOk, IfErr, IfSome, OnOk, OnErr, Some, option_copied};
ghost use Rattle.hol_theory.specs.Entry.{entry_at};
ghost use Rattle.hol_theory.specs.Adding.{AreNew};

use crate::key::Key;
use crate::layer::Layer;
use crate::value::Value;
use std::alloc::{AllocError, AllocFailed, Global};
use std::marker::Model;
use std::rc::Rc;

/// Entries in standing order, in layers: each at least twice as long as the next, but where memory was short. So there are few, and copies share them.
#[derive(Drop)]
pub(crate) struct Older {
    layers: Vec<Rc<Layer>>,
}

impl Model for Older {
    ghost use Rattle.std.specs.Prelude.{[], map};
    ghost use Rattle.hol_theory.specs.Entry.{Entries};
    ghost use Rattle.hol_theory.specs.Codes.{coded_entries};
    ghost use Rattle.hol_theory.specs.Adding.{AreNew};
    ghost use Rattle.hol_theory.specs.Layers.{joined};

    ghost Value = { Entries };

    ghost coded = { coded_entries };

    ghost view = { λ older. joined (map (λ layer. layer.value) older.layers.items) };

    ghost invariant = { λ older. AreNew [] (joined (map (λ layer. layer.value) older.layers.items)) };
}

impl Older {
    /// No layers.
    pub(crate) fn new(alloc: Global) -> Older
        ensures { result ≡ [] }
    {
        Older {
            layers: Vec::new(alloc),
        }
    }

    /// What stands under the key.
    pub(crate) fn get(&self, key: &Key) -> Option<&Value>
        ensures { option_copied result ≡ entry_at key.now self.now }
    {
        for layer in &self.layers {
            if let Some(value) = layer.get(key) {
                return Some(value);
            }
        }
        None
    }

    /// An entry by its place, from 0.
    pub(crate) fn entry(&self, index: usize) -> (&Key, &Value)
        requires { index < length self.now }
        ensures { slice_get self.now index ≡ Some (result.0.now, result.1.now) }
    {
        let mut rest = index;
        for layer in &self.layers {
            let len = layer.len();
            if rest < len {
                return layer.entry(rest);
            }
            rest -= len;
        }
        unreachable!()
    }

    /// The same entries, sharing the layers.
    pub(crate) fn copy(&self, alloc: Global) -> Result<Older, AllocError>
        ensures { IfOk result (λ older. older ≡ self.now) }
    {
        let mut layers = Vec::with_capacity(alloc, self.layers.len())?;
        for layer in &self.layers {
            layers.push(layer.clone()?)?;
        }
        Ok(Older { layers })
    }

    /// The layer's entries come last. It is given back where there is no memory for it.
    pub(crate) fn push(&mut self, alloc: Global, layer: Layer) -> Result<(), AllocFailed<Layer>>
        requires { AreNew self.old layer }
        ensures ok { OnOk result (self.new ≡ self.old ++ layer) }
        ensures err { OnErr result (self.new ≡ self.old) }
        ensures back { IfErr result (λ failed. failed.value ≡ layer) }
    {
        if self.layers.reserve(1).is_err() {
            return Err(AllocFailed { value: layer });
        }
        self.layers.push_reserved(Rc::new(alloc, layer)?);
        self.join_short(alloc);
        Ok(())
    }

    // While the last layer but one is shorter than twice the last, the two become one, where there is memory for it.
    fn join_short(&mut self, alloc: Global)
        ensures { self.new ≡ self.old }
    {
        for _ in 0..self.layers.len() {
            if !self.join_last(alloc) {
                return;
            }
        }
    }

    // Whether the last two layers became one.
    fn join_last(&mut self, alloc: Global) -> bool
        ensures { self.new ≡ self.old }
    {
        let Some(last) = self.layers.pop() else {
            return false;
        };
        let Some(before) = self.layers.pop() else {
            self.layers.push_reserved(last);
            return false;
        };
        match both(alloc, &before, &last) {
            Some(layer) => {
                self.layers.push_reserved(layer);
                true
            }
            None => {
                self.layers.push_reserved(before);
                self.layers.push_reserved(last);
                false
            }
        }
    }
}

// Both in one layer, where the first is shorter than twice the other, and there is memory for it.
fn both(alloc: Global, before: &Layer, last: &Layer) -> Option<Rc<Layer>>
    requires { AreNew before.now last.now }
    ensures { IfSome result (λ layer. layer.value ≡ before.now ++ last.now) }
{
    if last.len() <= before.len() / 2 {
        return None;
    }
    let layer = before.joined(alloc, last).ok()?;
    Rc::new(alloc, layer).ok()
}

//! The shown names of the binders around a part of a term.
ghost use Rattle.std.specs.Prelude.{◌≡◌, ◌∷◌, [], None, Some, OnOk, MatchOption, drop, slice_get};

use crate::primed_name::PrimedName;
use std::alloc::{AllocError, Global};
use std::marker::Model;

/// The shown names of the binders around a part of a term, the innermost first.
#[derive(Drop)]
pub(crate) struct ShownNames<'a> {
    // the innermost last
    names: Vec<PrimedName<'a>>,
}

impl<'a> Model for ShownNames<'a> {
    ghost use Rattle.std.specs.Prelude.{ℕ, List, reverse};

    ghost Value = { List (List ℕ) };

    ghost view = { λ s. reverse s.names.items };
}

impl<'a> ShownNames<'a> {
    /// Under no binder.
    pub(crate) fn new(alloc: Global) -> ShownNames<'a>
        ensures { result ≡ [] }
    {
        ShownNames {
            names: Vec::new(alloc),
        }
    }

    /// Under one binder more, which is shown by this name.
    pub(crate) fn enter(&mut self, name: PrimedName<'a>) -> Result<(), AllocError>
        ensures { OnOk result (self.new ≡ name.entry ∷ self.old) }
    {
        Ok(self.names.push(name)?)
    }

    /// Out of the innermost binder, if there is one.
    pub(crate) fn leave(&mut self)
        ensures { self.new ≡ drop 1 self.old }
    {
        let _ = self.names.pop();
    }

    /// The name of the binder that has so many inside it.
    #[tactic(auto, using(crate::proofs::Places::inner, crate::proofs::Places::none_inner))]
    pub(crate) fn get(&self, index: usize) -> Option<&PrimedName<'a>>
        ensures { MatchOption result (slice_get self.now index ≡ None) (λ name. slice_get self.now index ≡ Some name.now) }
    {
        if index >= self.names.len() {
            return None;
        }
        Some(&self.names[self.names.len() - 1 - index])
    }
}

//! The name of a theorem that is cited.
ghost use Rattle.std.specs.Prelude.{◌≡◌, IfOk};

use std::alloc::{AllocError, Global};
use std::marker::Model;

/// The name of a theorem that is cited.
#[derive(Drop)]
pub struct CitedName {
    name: String,
}

impl Model for CitedName {
    ghost use Rattle.std.specs.Prelude.{ℕ, List, string_bytes};

    ghost Value = { List ℕ };

    ghost view = { λ a. string_bytes a.name };
}

impl CitedName {
    /// The name.
    pub fn new(alloc: Global, name: &str) -> Result<CitedName, AllocError>
        ensures { IfOk result (λ cited. cited ≡ name.now) }
    {
        Ok(CitedName {
            name: String::from_str(alloc, name)?,
        })
    }

    /// Its text.
    pub fn as_str(&self) -> &str
        ensures { result.now ≡ self.now }
    {
        self.name.as_str()
    }
}

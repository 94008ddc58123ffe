//! Variables where they are bound.
ghost use Rattle.std.specs.Prelude.{◌≡◌, ◌↔◌, IfOk, IsTrue};

use crate::pre_type::{PreType, same_annotations};
use std::alloc::{AllocError, Global};
use std::marker::Model;

/// A variable where it is bound, with the type that is written for it, if there is one.
#[derive(Drop)]
pub struct PreVariable {
    /// Its name.
    pub name: String,
    /// The type that is written for it.
    pub annotation: Option<PreType>,
}

impl Model for PreVariable {
    ghost use Rattle.std.specs.Prelude.{string_bytes};
    ghost use Rattle.hol_notation_terms.specs.Text.{VariableText};
    ghost use Rattle.hol_notation_terms.specs.Code.{coded_variable};

    ghost Value = { VariableText };

    ghost coded = { coded_variable };

    ghost view = { λ a. record { name = string_bytes a.name; annotation = a.annotation } };
}

impl PreVariable {
    /// The same variable.
    pub fn copy(&self, alloc: Global) -> Result<PreVariable, AllocError>
        ensures { IfOk result (λ variable. variable ≡ self.now) }
    {
        let annotation = match &self.annotation {
            Some(ty) => Some(ty.copy()?),
            None => None,
        };
        Ok(PreVariable {
            name: String::from_str(alloc, self.name.as_str())?,
            annotation,
        })
    }

    /// Whether the two variables are the same: their names, and the types that are written for them.
    pub fn same(&self, other: &PreVariable) -> bool
        ensures { IsTrue result ↔ (self.now ≡ other.now) }
    {
        self.name.as_str() == other.name.as_str()
            && same_annotations(&self.annotation, &other.annotation)
    }
}

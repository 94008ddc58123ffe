//! Definitions of types.
ghost use Rattle.std.specs.Prelude.{◌≡◌, ◌↔◌, IfOk, IsTrue};

use std::alloc::{AllocError, Global};
use std::marker::Model;

/// The names that `new_basic_type_definition` is given, in the order in which they are written.
#[derive(Drop)]
pub struct TypeDefinition {
    /// The type.
    pub ty: String,
    /// The function to the type.
    pub abs: String,
    /// The function from the type.
    pub rep: String,
    /// The theorem to make that says `abs (rep a) = a`.
    pub abs_rep: String,
    /// The theorem to make that says `P r <=> rep (abs r) = r`.
    pub rep_abs: String,
    /// The theorem that says `P x`.
    pub theorem: String,
}

impl Model for TypeDefinition {
    ghost use Rattle.std.specs.Prelude.{string_bytes};
    ghost use Rattle.hol_notation_commands.specs.Text.{TypeDefinitionText};
    ghost use Rattle.hol_notation_commands.specs.Code.{coded_type_definition};

    ghost Value = { TypeDefinitionText };

    ghost coded = { coded_type_definition };

    ghost use Rattle.hol_notation_commands.specs.TypeDefinitionView.{type_definition_text};

    ghost view = { type_definition_text };
}

impl TypeDefinition {
    /// The same names.
    pub fn copy(&self, alloc: Global) -> Result<TypeDefinition, AllocError>
        ensures { IfOk result (λ definition. definition ≡ self.now) }
    {
        Ok(TypeDefinition {
            ty: String::from_str(alloc, self.ty.as_str())?,
            abs: String::from_str(alloc, self.abs.as_str())?,
            rep: String::from_str(alloc, self.rep.as_str())?,
            abs_rep: String::from_str(alloc, self.abs_rep.as_str())?,
            rep_abs: String::from_str(alloc, self.rep_abs.as_str())?,
            theorem: String::from_str(alloc, self.theorem.as_str())?,
        })
    }

    /// Whether the two definitions are the same.
    pub fn same(&self, other: &TypeDefinition) -> bool
        ensures { IsTrue result ↔ (self.now ≡ other.now) }
    {
        self.ty.as_str() == other.ty.as_str()
            && self.abs.as_str() == other.abs.as_str()
            && self.rep.as_str() == other.rep.as_str()
            && self.abs_rep.as_str() == other.abs_rep.as_str()
            && self.rep_abs.as_str() == other.rep_abs.as_str()
            && self.theorem.as_str() == other.theorem.as_str()
    }
}

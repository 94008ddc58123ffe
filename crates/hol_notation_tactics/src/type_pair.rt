//! What a type variable is instantiated by.
ghost use Rattle.std.specs.Prelude.{◌≡◌, ◌↔◌, IfOk, IsTrue};

use hol_notation_terms::TypeQuotation;
use std::alloc::AllocError;
use std::marker::Model;

/// A type, and the type variable that it is put for.
#[derive(Drop)]
pub struct TypePair {
    /// The type that is put in.
    pub new_type: TypeQuotation,
    /// The type variable that it is put for.
    pub old_type: TypeQuotation,
}

impl Model for TypePair {
    ghost use Rattle.hol_notation_tactics.specs.Text.{TypePairText};
    ghost use Rattle.hol_notation_tactics.specs.Code.{coded_pair};

    ghost Value = { TypePairText };

    ghost coded = { coded_pair };

    ghost view = { λ a. record { new_type = a.new_type; old_type = a.old_type } };
}

impl TypePair {
    /// The same pair, sharing the nodes of its types.
    pub fn copy(&self) -> Result<TypePair, AllocError>
        ensures { IfOk result (λ pair. pair ≡ self.now) }
    {
        Ok(TypePair {
            new_type: self.new_type.copy()?,
            old_type: self.old_type.copy()?,
        })
    }

    /// Whether the two pairs are the same, their places included.
    pub fn same(&self, other: &TypePair) -> bool
        ensures { IsTrue result ↔ (self.now ≡ other.now) }
    {
        self.new_type.same(&other.new_type) && self.old_type.same(&other.old_type)
    }
}

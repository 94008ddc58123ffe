//! What a type definition gives.
ghost use Rattle.std.specs.Prelude.{◌≡◌, IfOk};

use crate::basis::Basis;
use crate::thm::Thm;
use std::alloc::AllocError;

/// A type definition: the larger basis, and what the constants to and from the new type satisfy over it.
#[derive(Drop)]
pub struct TypeDefinition {
    /// The basis with the new type and both constants.
    pub basis: Basis,
    /// `|- abs (rep a) = a`.
    pub abs_rep: Thm,
    /// `|- P r = (rep (abs r) = r)`.
    pub rep_abs: Thm,
}

impl TypeDefinition {
    /// The same type definition.
    pub fn copy(&self) -> Result<TypeDefinition, AllocError>
        ensures { IfOk result (λ made. made ≡ self.now) }
    {
        Ok(TypeDefinition {
            basis: self.basis.copy()?,
            abs_rep: self.abs_rep.copy()?,
            rep_abs: self.rep_abs.copy()?,
        })
    }
}

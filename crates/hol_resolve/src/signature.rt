//! What stands for readings.
ghost use Rattle.std.specs.Prelude.{◌≡◌, IfOk};
ghost use Rattle.hol_resolve.specs.SignatureView.{signature_value};

use hol_types::{Name, Ty};
use std::alloc::{AllocError, Global};

/// The generic types of constants and the arities of type constructors, by name; the first of a name counts.
#[derive(Drop)]
pub struct Signature {
    /// Constants with their generic types.
    pub constants: Vec<(Name, Ty)>,
    /// Type constructors with their arities.
    pub types: Vec<(Name, usize)>,
}

impl Signature {
    /// The same signature.
    pub fn copy(&self, alloc: Global) -> Result<Signature, AllocError>
        ensures { IfOk result (λ signature. signature_value signature ≡ signature_value self.now) }
    {
        Ok(Signature {
            constants: constant_copies(alloc, &self.constants)?,
            types: type_copies(alloc, &self.types)?,
        })
    }
}

fn constant_copies(alloc: Global, constants: &[(Name, Ty)]) -> Result<Vec<(Name, Ty)>, AllocError>
    ensures { IfOk result (λ copied. copied.items ≡ constants.now) }
{
    let mut copied = Vec::with_capacity(alloc, constants.len())?;
    for constant in constants {
        copied.push((constant.0.copy()?, constant.1.copy()?))?;
    }
    Ok(copied)
}

fn type_copies(alloc: Global, types: &[(Name, usize)]) -> Result<Vec<(Name, usize)>, AllocError>
    ensures { IfOk result (λ copied. copied.items ≡ types.now) }
{
    let mut copied = Vec::with_capacity(alloc, types.len())?;
    for one in types {
        copied.push((one.0.copy()?, one.1))?;
    }
    Ok(copied)
}

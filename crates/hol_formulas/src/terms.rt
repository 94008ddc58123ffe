//! Variables and constants by their names.
ghost use Rattle.std.specs.Prelude.{◌≡◌, IfOk, Some};
ghost use Rattle.hol_terms.specs.Named.{var, constant, named_type};

use hol_terms::{Term, Variable};
use hol_types::{Name, Ty};
use std::alloc::{AllocError, Global};

/// The variable of the name and the type.
pub fn variable(alloc: Global, name: &str, ty: &Ty) -> Result<Variable, AllocError>
    ensures { IfOk result (λ v. v ≡ (name.now, ty.now)) }
{
    let name = Name::new(alloc, name)?;
    Variable::new(&name, ty)
}

/// The term that is the variable.
pub fn occurrence(alloc: Global, v: &Variable) -> Result<Term, AllocError>
    ensures is { IfOk result (λ t. t ≡ var v.now) }
    ensures typed { IfOk result (λ t. named_type t ≡ Some v.now.1) }
{
    Term::var(alloc, v)
}

/// The constant of the name and the type.
pub fn constant(alloc: Global, name: &Name, ty: &Ty) -> Result<Term, AllocError>
    ensures is { IfOk result (λ t. t ≡ constant name.now ty.now) }
    ensures typed { IfOk result (λ t. named_type t ≡ Some ty.now) }
{
    Term::constant(alloc, name, ty)
}

/// The constant whose name has this text.
pub(crate) fn constant_named(alloc: Global, name: &str, ty: &Ty) -> Result<Term, AllocError>
    ensures is { IfOk result (λ t. t ≡ constant name.now ty.now) }
    ensures typed { IfOk result (λ t. named_type t ≡ Some ty.now) }
{
    let name = Name::new(alloc, name)?;
    constant(alloc, &name, ty)
}

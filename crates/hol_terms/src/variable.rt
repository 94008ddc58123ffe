//! Variables: a name and a type.
ghost use Rattle.std.specs.Prelude.{◌≡◌, IfOk, ◌++◌, ◌∷◌, []};
ghost use Rattle.hol_types.specs.Equal.{variable_eq};
ghost use Rattle.hol_types.specs.Filter.{name_bit};

use hol_types::{Name, NameFilter, Ty};
use std::alloc::{AllocError, Global};
use std::marker::Model;

/// A variable: a name and a type. Two variables are the same where both are.
#[derive(Drop)]
pub struct Variable {
    name: Name,
    ty: Ty,
    filter: NameFilter,
}

impl Model for Variable {
    ghost use Rattle.std.specs.Prelude.{ℕ, List};
    ghost use Rattle.hol_types.specs.Tree.{TypeTree};
    ghost use Rattle.std.specs.Prelude.{◌≡◌};
    ghost use Rattle.hol_terms.specs.Code.{coded_variable};
    ghost use Rattle.hol_types.specs.Filter.{name_bit};

    ghost Value = { List ℕ × TypeTree };

    ghost coded = { coded_variable };

    ghost view = { λ a. (a.name, a.ty) };

    ghost invariant = { λ a. a.filter.bits ≡ name_bit a.name };
}

impl Variable {
    /// The variable of this name and type.
    pub fn new(name: &Name, ty: &Ty) -> Result<Variable, AllocError>
        ensures { IfOk result (λ v. v ≡ (name.now, ty.now)) }
    {
        Ok(Variable {
            name: name.copy()?,
            ty: ty.copy()?,
            filter: NameFilter::of_name(name),
        })
    }

    /// Its name.
    pub fn name(&self) -> &Name
        ensures { result.now ≡ self.now.0 }
    {
        &self.name
    }

    /// Its type.
    pub fn ty(&self) -> &Ty
        ensures { result.now ≡ self.now.1 }
    {
        &self.ty
    }

    /// The same variable, sharing its name and the nodes of its type.
    /// An error says that no count is left for one more copy.
    pub fn copy(&self) -> Result<Variable, AllocError>
        ensures { IfOk result (λ v. v ≡ self.now) }
    {
        Ok(Variable {
            name: self.name.copy()?,
            ty: self.ty.copy()?,
            filter: self.filter,
        })
    }

    /// Whether the two have the same name and the same type.
    ///
    /// Takes no memory.
    pub fn same(&self, other: &Variable) -> bool
        ensures { result ≡ variable_eq self.now other.now }
    {
        self.name.same(&other.name) && self.ty.same(&other.ty)
    }

    /// The variable with one prime more at the end of its name.
    pub fn primed(&self, alloc: Global) -> Result<Variable, AllocError>
        ensures { IfOk result (λ v. v ≡ (self.now.0 ++ 39 ∷ [], self.now.1)) }
    {
        let name = self.name.primed(alloc)?;
        let filter = NameFilter::of_name(&name);
        Ok(Variable {
            name,
            ty: self.ty.copy()?,
            filter,
        })
    }

    /// A set that has its name, and may have others. Each variable keeps it, so this is at once.
    pub fn filter(&self) -> NameFilter
        ensures { result.bits ≡ name_bit self.now.0 }
    {
        self.filter
    }
}

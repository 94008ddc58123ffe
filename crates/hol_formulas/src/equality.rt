//! The constant `=` between terms of a type.
ghost use Rattle.std.specs.Prelude.{◌≡◌, IfOk, IsTrue, Some, codes};
ghost use Rattle.hol_types.specs.Fun.{fun_type};
ghost use Rattle.hol_terms.specs.Named.{constant, named_type};
ghost use Rattle.hol_formulas.specs.Equation.{bool_type, equality_type, mk_eq};

use crate::types::bool_beside;
use hol_terms::Term;
use hol_types::{KnownName, Name, Ty};
use std::alloc::{AllocError, Global};
use std::marker::Model;

/// The constant `=` between terms of a type, with the types of its applications.
#[derive(Drop)]
pub struct Equality {
    ty: Ty,
    sign: Term,
    property: Ty,
    truth: Ty,
}

impl Model for Equality {
    ghost use Rattle.std.specs.Prelude.{◌≡◌, codes};
    ghost use Rattle.hol_types.specs.Tree.{TypeTree};
    ghost use Rattle.hol_types.specs.Code.{coded_type};
    ghost use Rattle.hol_types.specs.Fun.{fun_type};
    ghost use Rattle.hol_terms.specs.Named.{constant};
    ghost use Rattle.hol_formulas.specs.Equation.{bool_type, equality_type};

    ghost Value = { TypeTree };

    ghost coded = { coded_type };

    ghost view = { λ e. e.ty };

    ghost invariant = { λ e. (e.sign ≡ constant (codes "=") (equality_type e.ty)) × (e.property ≡ fun_type e.ty bool_type) × (e.truth ≡ bool_type) };
}

impl Equality {
    /// `=` between terms of the type.
    pub fn at(alloc: Global, ty: &Ty) -> Result<Equality, AllocError>
        ensures { IfOk result (λ equality. equality ≡ ty.now) }
    {
        let truth = bool_beside(alloc, ty)?;
        let property = Ty::fun(alloc, ty, &truth)?;
        let sign_type = Ty::fun(alloc, ty, &property)?;
        let name = Name::known(KnownName::Equality);
        Ok(Equality {
            ty: ty.copy()?,
            sign: Term::constant(alloc, &name, &sign_type)?,
            property,
            truth,
        })
    }

    /// Whether it is between terms of the type.
    pub fn is_at(&self, ty: &Ty) -> bool
        ensures { IsTrue result → self.now ≡ ty.now }
    {
        self.ty.same(ty)
    }

    // The constant.
    fn sign(&self) -> &Term
        ensures { result.now ≡ constant (codes "=") (equality_type self.now) }
    {
        &self.sign
    }

    // The type of the constant with a left side.
    fn property(&self) -> &Ty
        ensures { result.now ≡ fun_type self.now bool_type }
    {
        &self.property
    }

    // `bool`.
    fn truth(&self) -> &Ty
        ensures { result.now ≡ bool_type }
    {
        &self.truth
    }

    /// `left = right`, for two terms of its type. No types are compared.
    #[tactic(auto, using(crate::proofs::Signs::half_type, crate::proofs::Signs::whole_type))]
    #[inline(always)]
    pub fn between(&self, alloc: Global, left: &Term, right: &Term) -> Result<Term, AllocError>
        requires left { named_type left.now ≡ Some self.now }
        requires right { named_type right.now ≡ Some self.now }
        ensures is { IfOk result (λ t. t ≡ mk_eq self.now left.now right.now) }
        ensures typed { IfOk result (λ t. named_type t ≡ Some bool_type) }
    {
        let (Ok(sign), Ok(first), Ok(property)) = (
            self.sign().copy(),
            left.copy(),
            self.property().copy(),
        ) else {
            return Err(no_memory());
        };
        let half = Term::application_of(alloc, sign, first, property)?;
        let (Ok(second), Ok(truth)) = (right.copy(), self.truth().copy()) else {
            return Err(no_memory());
        };
        Term::application_of(alloc, half, second, truth)
    }
}

// The error of memory. It is a call, marked as one that hardly happens: so the compiler keeps the way on in one piece.
#[cold]
#[inline(never)]
fn no_memory() -> AllocError {
    AllocError
}

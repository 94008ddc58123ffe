//! The types of formulas, connectives and quantifiers.
ghost use Rattle.std.specs.Prelude.{◌≡◌, IfOk};
ghost use Rattle.hol_types.specs.Equal.{type_eq};
ghost use Rattle.hol_types.specs.Tree.{TyVar};
ghost use Rattle.hol_types.specs.Fun.{fun_type};
ghost use Rattle.hol_formulas.specs.Equation.{bool_type, equality_type};
ghost use Rattle.hol_formulas.specs.Formula.{negation_type, connective_type, quantifier_type};

use hol_types::{KnownName, Name, Ty};
use std::alloc::{AllocError, Global};

/// The type of truth values.
pub fn bool_type(alloc: Global) -> Result<Ty, AllocError>
    ensures { IfOk result (λ ty. ty ≡ bool_type) }
{
    let name = Name::known(KnownName::BoolType);
    Ty::app(alloc, &name, &[])
}

/// Whether the type is that of truth values.
#[tactic(auto, using(crate::proofs::TypeTests::truth_test))]
pub fn is_bool(ty: &Ty) -> bool
    ensures { result ≡ type_eq ty.now bool_type }
{
    ty.is_bool()
}

/// The type variable of this name.
pub fn type_variable(alloc: Global, name: &str) -> Result<Ty, AllocError>
    ensures { IfOk result (λ ty. ty ≡ TyVar name.now) }
{
    let name = Name::new(alloc, name)?;
    Ty::var(alloc, &name)
}

/// `bool`, which shares the nodes of the given type where it is `bool`.
#[tactic(auto, using(crate::proofs::TypeTests::same_type))]
pub(crate) fn bool_beside(alloc: Global, ty: &Ty) -> Result<Ty, AllocError>
    ensures { IfOk result (λ truth. truth ≡ bool_type) }
{
    if is_bool(ty) {
        ty.copy()
    } else {
        bool_type(alloc)
    }
}

// The type of `=` between terms of a type.
fn equality_type(alloc: Global, ty: &Ty) -> Result<Ty, AllocError>
    ensures { IfOk result (λ equality. equality ≡ equality_type ty.now) }
{
    let truth = bool_beside(alloc, ty)?;
    let property = Ty::fun(alloc, ty, &truth)?;
    Ty::fun(alloc, ty, &property)
}

/// `bool->bool`.
pub fn negation_type(alloc: Global) -> Result<Ty, AllocError>
    ensures { IfOk result (λ ty. ty ≡ negation_type) }
{
    let truth = bool_type(alloc)?;
    Ty::fun(alloc, &truth, &truth)
}

/// `bool->bool->bool`.
pub fn connective_type(alloc: Global) -> Result<Ty, AllocError>
    ensures { IfOk result (λ ty. ty ≡ connective_type) }
{
    let truth = bool_type(alloc)?;
    equality_type(alloc, &truth)
}

/// `(a->bool)->bool`, for the type `a`.
pub fn quantifier_type(alloc: Global, domain: &Ty) -> Result<Ty, AllocError>
    ensures { IfOk result (λ ty. ty ≡ quantifier_type domain.now) }
{
    let truth = bool_type(alloc)?;
    let property = Ty::fun(alloc, domain, &truth)?;
    Ty::fun(alloc, &property, &truth)
}

/// Whether the type is that of functions from the domain to truth values.
#[tactic(auto, using(crate::proofs::TypeTests::function_types))]
pub(crate) fn is_property_type(ty: &Ty, domain: &Ty) -> bool
    ensures { result ≡ type_eq ty.now (fun_type domain.now bool_type) }
{
    let Some((own, truth)) = ty.dest_fun() else {
        return false;
    };
    own.same(domain) && is_bool(truth)
}

/// Whether the type is `bool->bool`.
#[tactic(auto, using(crate::proofs::TypeTests::function_types))]
pub(crate) fn is_negation_type(ty: &Ty) -> bool
    ensures { result ≡ type_eq ty.now negation_type }
{
    let Some((domain, range)) = ty.dest_fun() else {
        return false;
    };
    is_bool(domain) && is_bool(range)
}

/// Whether the type is `bool->bool->bool`.
#[tactic(auto, using(crate::proofs::TypeTests::function_types))]
pub(crate) fn is_connective_type(ty: &Ty) -> bool
    ensures { result ≡ type_eq ty.now connective_type }
{
    let Some((domain, range)) = ty.dest_fun() else {
        return false;
    };
    is_bool(domain) && is_negation_type(range)
}

/// Whether the type is `(a->bool)->bool`, for the type `a`.
#[tactic(auto, using(crate::proofs::TypeTests::function_types))]
pub(crate) fn is_quantifier_type(ty: &Ty, domain: &Ty) -> bool
    ensures { result ≡ type_eq ty.now (quantifier_type domain.now) }
{
    let Some((property, truth)) = ty.dest_fun() else {
        return false;
    };
    is_property_type(property, domain) && is_bool(truth)
}

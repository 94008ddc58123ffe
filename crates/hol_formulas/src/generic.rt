//! Which types are instances of the prelude's generic types. Each is told by its form, without memory.
ghost use Rattle.std.specs.Prelude.{◌≡◌};
ghost use Rattle.hol_formulas.specs.Equation.{equality_type};
ghost use Rattle.hol_formulas.specs.Constants.{var_a, binder_type, choice_type, function_property_type, is_instance};

use crate::types::{is_bool, is_property_type};
use hol_types::Ty;

/// Whether the type is `a->a->bool`, for some type `a`.
#[tactic(auto, using(crate::proofs::TypeForms::no_function))]
pub(crate) fn is_equality_type(ty: &Ty) -> bool
    ensures { result ≡ is_instance (equality_type var_a) ty.now }
{
    let Some((left, property)) = ty.dest_fun() else {
        return false;
    };
    is_property_type(property, left)
}

/// Whether the type is `(a->bool)->a`, for some type `a`.
#[tactic(auto, using(crate::proofs::TypeForms::no_function))]
pub(crate) fn is_choice_type(ty: &Ty) -> bool
    ensures { result ≡ is_instance choice_type ty.now }
{
    let Some((property, chosen)) = ty.dest_fun() else {
        return false;
    };
    is_property_type(property, chosen)
}

/// Whether the type is `(a->bool)->bool`, for some type `a`.
#[tactic(auto, using(crate::proofs::TypeForms::no_function))]
pub(crate) fn is_binder_type(ty: &Ty) -> bool
    ensures { result ≡ is_instance binder_type ty.now }
{
    let Some((property, truth)) = ty.dest_fun() else {
        return false;
    };
    let Some((_, value)) = property.dest_fun() else {
        return false;
    };
    is_bool(value) && is_bool(truth)
}

/// Whether the type is `(a->b)->bool`, for some types `a` and `b`.
#[tactic(auto, using(crate::proofs::TypeForms::no_function))]
pub(crate) fn is_function_property_type(ty: &Ty) -> bool
    ensures { result ≡ is_instance function_property_type ty.now }
{
    let Some((function, truth)) = ty.dest_fun() else {
        return false;
    };
    let Some((_, _)) = function.dest_fun() else {
        return false;
    };
    is_bool(truth)
}

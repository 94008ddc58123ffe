//! The types and constants that stand in every basis.
ghost use Rattle.std.specs.Prelude.{◌≡◌, ◌↔◌, ℕ, List, IfOk, IsTrue};
ghost use Rattle.std.specs.List.{list_any};
ghost use Rattle.hol_types.specs.Tree.{TypeTree};
ghost use Rattle.hol_types.specs.Subst.{type_subst};
ghost use Rattle.hol_formulas.specs.Constants.{binder_type, choice_type, function_property_type, prelude_types, is_constructor, is_instance, prelude_generic, is_instance_of};

use crate::generic::{is_binder_type, is_choice_type, is_equality_type, is_function_property_type};
use crate::sort::function_type;
use crate::types::{
    bool_type, is_bool, is_connective_type, is_negation_type, quantifier_type, type_variable,
};
use hol_types::{Name, Ty, is_basic_constructor};
use std::alloc::{AllocError, Global};

/// Whether the prelude has the type constructor at this arity.
pub fn has_type(constructor: &Name, arity: usize) -> bool
    ensures { result ≡ list_any (is_constructor constructor.now arity) prelude_types }
{
    is_basic_constructor(constructor, arity)
}

/// `(A->bool)->bool`.
pub(crate) fn binder_type(alloc: Global) -> Result<Ty, AllocError>
    ensures { IfOk result (λ ty. ty ≡ binder_type) }
{
    let a = type_variable(alloc, "A")?;
    quantifier_type(alloc, &a)
}

/// `(A->B)->bool`.
pub(crate) fn function_property_type(alloc: Global) -> Result<Ty, AllocError>
    ensures { IfOk result (λ ty. ty ≡ function_property_type) }
{
    let truth = bool_type(alloc)?;
    let function = function_type(alloc)?;
    Ty::fun(alloc, &function, &truth)
}

/// Whether some substitution for the type variables of `generic` gives `ty`.
pub fn is_instance(alloc: Global, generic: &Ty, ty: &Ty) -> Result<bool, AllocError>
    ensures { IfOk result (λ is. is ≡ is_instance generic.now ty.now) }
{
    generic.matches(alloc, ty)
}

/// Whether the prelude has the constant, and the type is an instance of its generic type.
///
/// Takes no memory: the type is told by its form.
#[tactic(auto, using(crate::proofs::TypeForms::closed_forms))]
pub fn has_constant(_alloc: Global, constant: &Name, ty: &Ty) -> Result<bool, AllocError>
    ensures { IfOk result (λ has. has ≡ is_instance_of (prelude_generic constant.now) ty.now) }
{
    let has = match constant.as_str() {
        "=" => is_equality_type(ty),
        "@" => is_choice_type(ty),
        "T" | "F" => is_bool(ty),
        "/\\" | "\\/" | "==>" => is_connective_type(ty),
        "~" => is_negation_type(ty),
        "!" | "?" | "?!" => is_binder_type(ty),
        "ONE_ONE" | "ONTO" => is_function_property_type(ty),
        _ => false,
    };
    Ok(has)
}

/// `(A->bool)->A`.
pub(crate) fn choice_type(alloc: Global) -> Result<Ty, AllocError>
    ensures { IfOk result (λ ty. ty ≡ choice_type) }
{
    let truth = bool_type(alloc)?;
    let a = type_variable(alloc, "A")?;
    let property = Ty::fun(alloc, &a, &truth)?;
    Ty::fun(alloc, &property, &a)
}

/// The law of instances: a type is an instance of another exactly where some substitution for type variables gives it.
#[tactic(auto, using(crate::proofs::Instance::instance_decides))]
pub fn instances_are_substitutions()
    ensures { (generic a : TypeTree) → (IsTrue (is_instance generic a) ↔ ((pairs : List (TypeTree × List ℕ)) × (type_subst pairs generic ≡ a))) }
{}

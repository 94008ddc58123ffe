//! The types and constants of the prelude, as lists.
ghost use Rattle.std.specs.Prelude.{◌≡◌, IfOk, OnOk, codes, ◌∷◌, ◌++◌, []};
ghost use Rattle.hol_types.specs.Fun.{fun_type};
ghost use Rattle.hol_formulas.specs.Equation.{bool_type, equality_type};
ghost use Rattle.hol_formulas.specs.Formula.{negation_type, connective_type};
ghost use Rattle.hol_formulas.specs.Constants.{var_a, binder_type, choice_type, function_property_type, prelude_types, prelude_constants};

use crate::types::{bool_type, type_variable};
use hol_types::{Name, Ty};
use std::alloc::{AllocError, Global};

/// Each type constructor of the prelude with its arity.
pub fn prelude_types(alloc: Global) -> Result<Vec<(Name, usize)>, AllocError>
    ensures { IfOk result (λ types. types.items ≡ prelude_types) }
{
    let mut types = Vec::new(alloc);
    types.push((Name::new(alloc, "bool")?, 0))?;
    types.push((Name::new(alloc, "fun")?, 2))?;
    types.push((Name::new(alloc, "ind")?, 0))?;
    Ok(types)
}

/// Each constant of the prelude with its generic type. The types share their parts.
pub fn prelude_constants(alloc: Global) -> Result<Vec<(Name, Ty)>, AllocError>
    ensures { IfOk result (λ constants. constants.items ≡ prelude_constants) }
{
    let truth = bool_type(alloc)?;
    let element = type_variable(alloc, "A")?;
    let property = Ty::fun(alloc, &element, &truth)?;
    constants_over(alloc, &truth, &element, &property)
}

// The constants, by `bool`, `A` and `A->bool`.
fn constants_over(
    alloc: Global,
    truth: &Ty,
    element: &Ty,
    property: &Ty,
) -> Result<Vec<(Name, Ty)>, AllocError>
    requires truth { truth.now ≡ bool_type }
    requires element { element.now ≡ var_a }
    requires property { property.now ≡ fun_type var_a bool_type }
    ensures { IfOk result (λ constants. constants.items ≡ prelude_constants) }
{
    let mut constants = Vec::with_capacity(alloc, 13)?;
    add_first(alloc, &mut constants, element, property)?;
    add_propositional(alloc, &mut constants, truth)?;
    add_binders(alloc, &mut constants, truth, property)?;
    add_function_properties(alloc, &mut constants, truth, element)?;
    Ok(constants)
}

// Adds the constant of this name and generic type.
fn add(
    alloc: Global,
    constants: &mut Vec<(Name, Ty)>,
    text: &str,
    ty: &Ty,
) -> Result<(), AllocError>
    ensures { OnOk result (constants.new.items ≡ constants.old.items ++ (text.now, ty.now) ∷ []) }
{
    let name = Name::new(alloc, text)?;
    constants.push((name, ty.copy()?))?;
    Ok(())
}

// Adds equality and choice.
fn add_first(
    alloc: Global,
    constants: &mut Vec<(Name, Ty)>,
    element: &Ty,
    property: &Ty,
) -> Result<(), AllocError>
    requires element { element.now ≡ var_a }
    requires property { property.now ≡ fun_type var_a bool_type }
    ensures { OnOk result (constants.new.items ≡ constants.old.items ++ (codes "=", equality_type var_a) ∷ (codes "@", choice_type) ∷ []) }
{
    add(alloc, constants, "=", &Ty::fun(alloc, element, property)?)?;
    add(alloc, constants, "@", &Ty::fun(alloc, property, element)?)
}

// Adds the truth values, the connectives and negation.
fn add_propositional(
    alloc: Global,
    constants: &mut Vec<(Name, Ty)>,
    truth: &Ty,
) -> Result<(), AllocError>
    requires { truth.now ≡ bool_type }
    ensures { OnOk result (constants.new.items ≡ constants.old.items ++ (codes "T", bool_type) ∷ (codes "F", bool_type) ∷ (codes "/\\", connective_type) ∷ (codes "\\/", connective_type) ∷ (codes "==>", connective_type) ∷ (codes "~", negation_type) ∷ []) }
{
    add(alloc, constants, "T", truth)?;
    add(alloc, constants, "F", truth)?;
    let negation = Ty::fun(alloc, truth, truth)?;
    add_connectives(alloc, constants, truth, &negation)
}

// Adds the connectives and negation.
fn add_connectives(
    alloc: Global,
    constants: &mut Vec<(Name, Ty)>,
    truth: &Ty,
    negation: &Ty,
) -> Result<(), AllocError>
    requires truth { truth.now ≡ bool_type }
    requires negation { negation.now ≡ negation_type }
    ensures { OnOk result (constants.new.items ≡ constants.old.items ++ (codes "/\\", connective_type) ∷ (codes "\\/", connective_type) ∷ (codes "==>", connective_type) ∷ (codes "~", negation_type) ∷ []) }
{
    let connective = Ty::fun(alloc, truth, negation)?;
    add_three(alloc, constants, "/\\", "\\/", "==>", &connective)?;
    add(alloc, constants, "~", negation)
}

// Adds three constants of this generic type.
fn add_three(
    alloc: Global,
    constants: &mut Vec<(Name, Ty)>,
    first: &str,
    second: &str,
    third: &str,
    ty: &Ty,
) -> Result<(), AllocError>
    ensures { OnOk result (constants.new.items ≡ constants.old.items ++ (first.now, ty.now) ∷ (second.now, ty.now) ∷ (third.now, ty.now) ∷ []) }
{
    add(alloc, constants, first, ty)?;
    add(alloc, constants, second, ty)?;
    add(alloc, constants, third, ty)
}

// Adds the quantifiers.
fn add_binders(
    alloc: Global,
    constants: &mut Vec<(Name, Ty)>,
    truth: &Ty,
    property: &Ty,
) -> Result<(), AllocError>
    requires truth { truth.now ≡ bool_type }
    requires property { property.now ≡ fun_type var_a bool_type }
    ensures { OnOk result (constants.new.items ≡ constants.old.items ++ (codes "!", binder_type) ∷ (codes "?", binder_type) ∷ (codes "?!", binder_type) ∷ []) }
{
    let binder = Ty::fun(alloc, property, truth)?;
    add_three(alloc, constants, "!", "?", "?!", &binder)
}

// Adds what functions may be: one to one, and onto.
fn add_function_properties(
    alloc: Global,
    constants: &mut Vec<(Name, Ty)>,
    truth: &Ty,
    element: &Ty,
) -> Result<(), AllocError>
    requires truth { truth.now ≡ bool_type }
    requires element { element.now ≡ var_a }
    ensures { OnOk result (constants.new.items ≡ constants.old.items ++ (codes "ONE_ONE", function_property_type) ∷ (codes "ONTO", function_property_type) ∷ []) }
{
    let value = type_variable(alloc, "B")?;
    let function = Ty::fun(alloc, element, &value)?;
    let ty = Ty::fun(alloc, &function, truth)?;
    add(alloc, constants, "ONE_ONE", &ty)?;
    add(alloc, constants, "ONTO", &ty)
}

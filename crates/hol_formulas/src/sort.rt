//! The types that occur in the prelude's statements.
ghost use Rattle.std.specs.Prelude.{◌≡◌, IfOk};
ghost use Rattle.hol_types.specs.Fun.{fun_type};
ghost use Rattle.hol_formulas.specs.Prelude.{ind_type, property_type};
ghost use Rattle.hol_formulas.specs.Constants.{var_a, var_b};
ghost use Rattle.hol_formulas.specs.Written.{sort_type};

use crate::prelude::{binder_type, choice_type, function_property_type};
use crate::types::{bool_type, connective_type, negation_type, type_variable};
use hol_types::{Name, Ty};
use std::alloc::{AllocError, Global};

/// A type that occurs in the prelude's statements.
#[derive(Clone, Copy)]
pub enum Sort {
    /// `bool`.
    Truth,
    /// `bool->bool`.
    Negation,
    /// `bool->bool->bool`.
    Connective,
    /// `(bool->bool->bool)->bool`.
    OfConnective,
    /// `A`.
    Element,
    /// `B`.
    Value,
    /// `A->B`, the type of functions at its most general.
    Function,
    /// `A->bool`.
    Property,
    /// `(A->bool)->bool`.
    Binder,
    /// `(A->bool)->A`.
    Choice,
    /// `(A->B)->bool`.
    OfFunction,
    /// `ind->ind`.
    OnIndividuals,
    /// `(ind->ind)->bool`.
    OfOnIndividuals,
}

/// The type.
pub(crate) fn type_of(alloc: Global, sort: Sort) -> Result<Ty, AllocError>
    ensures { IfOk result (λ ty. ty ≡ sort_type sort) }
{
    match sort {
        Sort::Truth => bool_type(alloc),
        Sort::Negation => negation_type(alloc),
        Sort::Connective => connective_type(alloc),
        Sort::OfConnective => predicate(alloc, &connective_type(alloc)?),
        Sort::Element => type_variable(alloc, "A"),
        Sort::Value => type_variable(alloc, "B"),
        Sort::Function => function_type(alloc),
        Sort::Property => predicate(alloc, &type_variable(alloc, "A")?),
        Sort::Binder => binder_type(alloc),
        Sort::Choice => choice_type(alloc),
        Sort::OfFunction => function_property_type(alloc),
        Sort::OnIndividuals => individual_function_type(alloc),
        Sort::OfOnIndividuals => predicate(alloc, &individual_function_type(alloc)?),
    }
}

// The functions from the type to truth values.
fn predicate(alloc: Global, domain: &Ty) -> Result<Ty, AllocError>
    ensures { IfOk result (λ ty. ty ≡ property_type domain.now) }
{
    let truth = bool_type(alloc)?;
    Ty::fun(alloc, domain, &truth)
}

/// `A->B`, the type of functions at its most general.
pub fn function_type(alloc: Global) -> Result<Ty, AllocError>
    ensures { IfOk result (λ ty. ty ≡ fun_type var_a var_b) }
{
    let a = type_variable(alloc, "A")?;
    let b = type_variable(alloc, "B")?;
    Ty::fun(alloc, &a, &b)
}

// `ind->ind`.
fn individual_function_type(alloc: Global) -> Result<Ty, AllocError>
    ensures { IfOk result (λ ty. ty ≡ fun_type ind_type ind_type) }
{
    let name = Name::new(alloc, "ind")?;
    let ty = Ty::app(alloc, &name, &[])?;
    Ty::fun(alloc, &ty, &ty)
}

//! Definitions as they are written.
ghost use Rattle.std.specs.Prelude.{◌≡◌, [], IfOk, IfErr, IsOkUnless, true, false};
ghost use Rattle.hol_notation_terms.specs.declared.operator.Operator.TheVariants.{Equals};
ghost use Rattle.hol_typing.specs.Raw.{RawApply, RawFree};
ghost use Rattle.hol_infer.specs.NamesView.{scope_names};
ghost use Rattle.hol_typing.specs.RawView.{raw_tree};
ghost use Rattle.hol_infer.specs.Resolving.{annotated, at_bool, right_raw, value_raw, right_has_arities, value_has_arities, definition_has_arities, without, operator_raw, definition_raw};

use crate::resolving::{
    Names, ResolveError, abstracted, applied, boxed, operator, resolve, resolve_annotation,
    truth_type,
};
use hol_notation_terms::{Definition, Operator, PreVariable, RightSide};
use hol_types::{Name, Ty};
use hol_typing::{RawTerm, Scheme};
use std::alloc::{AllocError, Global};

// The term with the type that is written for it, if there is one.
fn annotated(
    alloc: Global,
    annotation: Option<Ty>,
    term: Box<RawTerm>,
) -> Result<Box<RawTerm>, AllocError>
    ensures { IfOk result (λ t. raw_tree t.value ≡ annotated annotation (raw_tree term.value)) }
{
    match annotation {
        Some(ty) => RawTerm::annotated(alloc, term, ty),
        None => Ok(term),
    }
}

// The term, of type `bool` where the sign is `<=>`.
fn at_bool(alloc: Global, is_iff: bool, term: Box<RawTerm>) -> Result<Box<RawTerm>, AllocError>
    ensures { IfOk result (λ t. raw_tree t.value ≡ at_bool is_iff (raw_tree term.value)) }
{
    if !is_iff {
        return Ok(term);
    }
    let truth = truth_type(alloc)?;
    RawTerm::annotated(alloc, term, truth)
}

// The term with the type that is written for it, if there is one, and of type `bool` where the sign is `<=>`.
fn typed_right(
    alloc: Global,
    annotation: Option<Ty>,
    is_iff: bool,
    term: Box<RawTerm>,
) -> Result<Box<RawTerm>, ResolveError>
    ensures ok { IfOk result (λ t. raw_tree t.value ≡ at_bool is_iff (annotated annotation (raw_tree term.value))) }
    ensures memory { IsOkUnless result ResolveError.Memory }
{
    let inner = annotated(alloc, annotation, term)?;
    Ok(at_bool(alloc, is_iff, inner)?)
}

// The right side, under abstractions over variables of these names.
#[inline(never)]
fn resolve_right(
    alloc: Global,
    constants: &[(Name, Scheme)],
    arities: &[(Name, usize)],
    names: &Names<'_>,
    right: &RightSide,
) -> Result<Box<RawTerm>, ResolveError>
    ensures ok { IfOk result (λ t. (raw_tree t.value ≡ right_raw arities.now constants.now (scope_names names.now) right.now) × (right_has_arities arities.now right.now ≡ true)) }
    ensures arity { IfErr result (λ e. e ≡ ResolveError.Arity → right_has_arities arities.now right.now ≡ false) }
{
    let term = resolve(alloc, constants, arities, &*names, &right.term)?;
    let annotation = resolve_annotation(alloc, arities, &right.annotation)?;
    typed_right(alloc, annotation, right.is_iff, term)
}

// `\v1 .. vn. r`, the first variable outermost, under abstractions over variables of these names.
fn resolve_value(
    alloc: Global,
    constants: &[(Name, Scheme)],
    arities: &[(Name, usize)],
    names: &Names<'_>,
    variables: &[PreVariable],
    right: &RightSide,
) -> Result<Box<RawTerm>, ResolveError>
    ensures ok { IfOk result (λ t. (raw_tree t.value ≡ value_raw arities.now constants.now (scope_names names.now) variables.now right.now) × (value_has_arities arities.now variables.now right.now ≡ true)) }
    ensures arity { IfErr result (λ e. e ≡ ResolveError.Arity → value_has_arities arities.now variables.now right.now ≡ false) }
{
    match variables.split_first() {
        None => resolve_right(alloc, constants, arities, &*names, right),
        Some((variable, rest)) => {
            let inside = Names::Inside(variable.name.as_str(), &*names);
            let inner = resolve_value(alloc, constants, arities, &inside, rest, right)?;
            abstracted(alloc, arities, variable, inner)
        }
    }
}

// What stands but for the name.
fn without(
    alloc: Global,
    constants: &[(Name, Scheme)],
    name: &str,
) -> Result<Vec<(Name, Scheme)>, AllocError>
    ensures { IfOk result (λ others. others.items ≡ without name.now constants.now) }
{
    let mut others = Vec::new(alloc);
    for entry in constants {
        if entry.0.as_str() != name {
            others.push((entry.0.copy()?, entry.1.copy()?))?;
        }
    }
    Ok(others)
}

// `\v1 .. vn. r` of the definition, where the constant that it defines does not stand.
fn resolve_parameters(
    alloc: Global,
    constants: &[(Name, Scheme)],
    arities: &[(Name, usize)],
    definition: &Definition,
) -> Result<Box<RawTerm>, ResolveError>
    ensures ok { IfOk result (λ t. (raw_tree t.value ≡ value_raw arities.now (without definition.now.name constants.now) [] definition.now.parameters definition.now.right) × (definition_has_arities arities.now definition.now ≡ true)) }
    ensures arity { IfErr result (λ e. e ≡ ResolveError.Arity → definition_has_arities arities.now definition.now ≡ false) }
{
    let others = without(alloc, constants, definition.name.as_str())?;
    resolve_value(
        alloc,
        &others,
        arities,
        &Names::Outermost,
        &definition.parameters,
        &definition.right,
    )
}

// `(=) c`, where c is a free variable.
fn equality_with(
    alloc: Global,
    constants: &[(Name, Scheme)],
    defined: &str,
) -> Result<Box<RawTerm>, ResolveError>
    ensures ok { IfOk result (λ t. raw_tree t.value ≡ RawApply (operator_raw constants.now [] Equals) (RawFree defined.now)) }
    ensures memory { IsOkUnless result ResolveError.Memory }
{
    let equality = operator(alloc, constants, &Names::Outermost, Operator::Equals)?;
    let name = Name::new(alloc, defined)?;
    let constant = boxed(alloc, RawTerm::Free(name))?;
    applied(alloc, equality, constant)
}

/// `c = \v1 .. vn. r`, its identifiers resolved: c is a free variable whatever stands.
///
/// Answers `Arity` only where a type that is written has that fault.
pub(crate) fn resolve_definition(
    alloc: Global,
    constants: &[(Name, Scheme)],
    arities: &[(Name, usize)],
    definition: &Definition,
) -> Result<Box<RawTerm>, ResolveError>
    ensures ok { IfOk result (λ t. (raw_tree t.value ≡ definition_raw arities.now constants.now definition.now) × (definition_has_arities arities.now definition.now ≡ true)) }
    ensures arity { IfErr result (λ e. e ≡ ResolveError.Arity → definition_has_arities arities.now definition.now ≡ false) }
{
    let value = resolve_parameters(alloc, constants, arities, definition)?;
    let left = equality_with(alloc, constants, definition.name.as_str())?;
    applied(alloc, left, value)
}

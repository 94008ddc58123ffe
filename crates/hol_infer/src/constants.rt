//! The constants that stand, with what is known of the variables of their generic types.
ghost use Rattle.std.specs.Prelude.{◌≡◌, ◌<◌, [], length, IfOk, IfErr, IfSome, OnOk, true, false};
ghost use Rattle.hol_typing.specs.RawView.{raw_tree};
ghost use Rattle.hol_infer.specs.Resolving.{term_has_arities, raw_of, definition_has_arities, definition_raw};

use crate::definition::resolve_definition;
use crate::resolving::{Names, ResolveError, resolve};
use hol_notation_terms::{Definition, PreTerm, PreTermNode};
use hol_types::{Name, Ty};
use hol_typing::{RawTerm, Scheme, Variables};
use std::alloc::{AllocError, Global};

// The constants, of whose types' variables nothing is known yet.
fn uncounted(alloc: Global, constants: &[(Name, Ty)]) -> Result<Vec<(Name, Scheme)>, AllocError>
    ensures { IfOk result (λ schemes. schemes.items ≡ constants.now) }
{
    let mut schemes = Vec::with_capacity(alloc, constants.len())?;
    for entry in constants {
        let scheme = Scheme::of(&entry.1, Variables::Unknown)?;
        schemes.push((entry.0.copy()?, scheme))?;
    }
    Ok(schemes)
}

// Whether a type is so large that it pays to know whether its variables are distinct.
fn has_large_type(constants: &[(Name, Ty)]) -> bool {
    for entry in constants {
        if entry.1.size() > 64 {
            return true;
        }
    }
    false
}

// The place of the constant of this name.
fn place_of(schemes: &[(Name, Scheme)], name: &str) -> Option<usize>
    ensures { IfSome result (λ i. i < length schemes.now) }
{
    for (i, entry) in schemes.iter().enumerate() {
        if entry.0.as_str() == name {
            return Some(i);
        }
    }
    None
}

// Finds out whether the variables of the constant of this name are distinct.
fn count(alloc: Global, schemes: &mut [(Name, Scheme)], name: &str) -> Result<(), AllocError>
    ensures { OnOk result (schemes.new ≡ schemes.old) }
{
    match place_of(schemes, name) {
        Some(at) => schemes[at].1.count(alloc),
        None => Ok(()),
    }
}

// Finds out whether the variables of each constant that the term names are distinct.
fn count_named(
    alloc: Global,
    schemes: &mut [(Name, Scheme)],
    term: &PreTerm,
) -> Result<(), AllocError>
    ensures { OnOk result (schemes.new ≡ schemes.old) }
{
    match term.node() {
        PreTermNode::Ident(name) => count(alloc, schemes, name.as_str()),
        PreTermNode::Operator(_) => Ok(()),
        PreTermNode::Apply(function, argument) => {
            count_named(alloc, schemes, function)?;
            count_named(alloc, schemes, argument)
        }
        PreTermNode::Abstraction(_, body) => count_named(alloc, schemes, body),
        PreTermNode::Typed(inner, _) => count_named(alloc, schemes, inner),
    }
}

// The constants, where for large types of those that the term names it is known whether their variables are distinct. Each such type
// is walked once, however often the term has the constant.
fn counted(
    alloc: Global,
    constants: &[(Name, Ty)],
    term: &PreTerm,
) -> Result<Vec<(Name, Scheme)>, AllocError>
    ensures { IfOk result (λ schemes. schemes.items ≡ constants.now) }
{
    let mut schemes = uncounted(alloc, constants)?;
    if has_large_type(constants) {
        count_named(alloc, &mut schemes, term)?;
    }
    Ok(schemes)
}

/// The term whose identifiers are resolved, among constants of these generic types.
///
/// Answers `Arity` only where a type that is written has that fault.
pub(crate) fn resolved(
    alloc: Global,
    constants: &[(Name, Ty)],
    arities: &[(Name, usize)],
    term: &PreTerm,
) -> Result<RawTerm, ResolveError>
    ensures ok { IfOk result (λ t. (raw_tree t ≡ raw_of arities.now constants.now [] term.now) × (term_has_arities arities.now term.now ≡ true)) }
    ensures arity { IfErr result (λ e. e ≡ ResolveError.Arity → term_has_arities arities.now term.now ≡ false) }
{
    let schemes = counted(alloc, constants, term)?;
    let raw = resolve(alloc, &schemes, arities, &Names::Outermost, term)?;
    Ok(Box::into_inner(raw))
}

/// The same of the equation of a definition.
pub(crate) fn resolved_definition(
    alloc: Global,
    constants: &[(Name, Ty)],
    arities: &[(Name, usize)],
    definition: &Definition,
) -> Result<RawTerm, ResolveError>
    ensures ok { IfOk result (λ t. (raw_tree t ≡ definition_raw arities.now constants.now definition.now) × (definition_has_arities arities.now definition.now ≡ true)) }
    ensures arity { IfErr result (λ e. e ≡ ResolveError.Arity → definition_has_arities arities.now definition.now ≡ false) }
{
    let schemes = counted(alloc, constants, &definition.right.term)?;
    let equation = resolve_definition(alloc, &schemes, arities, definition)?;
    Ok(Box::into_inner(equation))
}

//! The readings of terms, definitions and types as they are written.
ghost use Rattle.std.specs.Prelude.{◌≡◌, ◌≤◌, ◌<◌, [], IfOk, IfErr, true, false};
ghost use Rattle.hol_types.specs.Tree.{type_size};
ghost use Rattle.hol_terms.specs.Nameless.{nameless};
ghost use Rattle.hol_terms.specs.Size.{term_size};
ghost use Rattle.hol_infer.specs.Resolving.{type_of_text, has_arities, term_has_arities, raw_of, definition_has_arities, definition_raw};
ghost use Rattle.hol_typing.specs.Typing.{HasNoTyping};
ghost use Rattle.hol_infer.specs.Reading.{IsReading, HasLargeReading};

use crate::constants::{resolved, resolved_definition};
use crate::reading::{ReadingError, read};
use crate::resolving::{ResolveError, resolve_type};
use hol_notation_terms::{Definition, PreTerm, PreType};
use hol_terms::Term;
use hol_types::{Name, Ty};
use std::alloc::Global;

/// The reading of a term as it is written, among constants of these generic types and type constructors of these arities.
///
/// An identifier is the innermost bound variable of that name, else the constant that stands, else a free variable. The reading is
/// the typing of which every other is an instance; the types that it leaves open are the type variables `?0`, `?1` and so on, as
/// they occur. Answers `Arity`, `Untypable` or `TooLarge`, tested in this order, exactly where a type constructor stands with
/// another number of arguments than its arity (or a name that is no constructor with arguments), there is no typing, or the reading has
/// over 20,000 nodes.
#[tactic(auto, using(crate::proofs::Resolved::raw_scoped, crate::proofs::Resolved::raw_rigid))]
pub fn elaborate(
    alloc: Global,
    term: &PreTerm,
    constants: &[(Name, Ty)],
    arities: &[(Name, usize)],
) -> Result<Term, ReadingError>
    ensures arities { IfOk result (λ t. term_has_arities arities.now term.now ≡ true) }
    ensures reading { IfOk result (λ t. IsReading (raw_of arities.now constants.now [] term.now) (nameless [] t)) }
    ensures small { IfOk result (λ t. term_size [] (nameless [] t) ≤ 20000) }
    ensures arity { IfErr result (λ e. e ≡ ReadingError.Arity → term_has_arities arities.now term.now ≡ false) }
    ensures untypable { IfErr result (λ e. e ≡ ReadingError.Untypable → (term_has_arities arities.now term.now ≡ true) × HasNoTyping (raw_of arities.now constants.now [] term.now)) }
    ensures too_large { IfErr result (λ e. e ≡ ReadingError.TooLarge → (term_has_arities arities.now term.now ≡ true) × HasLargeReading (raw_of arities.now constants.now [] term.now)) }
{
    match resolved(alloc, constants, arities, term) {
        Ok(raw) => read(alloc, &raw),
        Err(ResolveError::Arity) => Err(ReadingError::Arity),
        Err(ResolveError::Memory) => Err(ReadingError::Memory),
    }
}

/// The reading of the equation `c = \v1 .. vn. r` of a definition `c v1 .. vn = r` as it is written, among constants of these generic
/// types and type constructors of these arities.
///
/// Its identifiers mean what they mean to `elaborate`, but c is a free variable, whatever constant stands. A type that is written before
/// the sign is that of r, and with `<=>` r is of type `bool`. Answers `Arity`, `Untypable` or `TooLarge`, tested in this order, exactly
/// where `elaborate` would, the nodes being those of the whole equation.
pub fn elaborate_definition(
    alloc: Global,
    definition: &Definition,
    constants: &[(Name, Ty)],
    arities: &[(Name, usize)],
) -> Result<Term, ReadingError>
    ensures arities { IfOk result (λ t. definition_has_arities arities.now definition.now ≡ true) }
    ensures reading { IfOk result (λ t. IsReading (definition_raw arities.now constants.now definition.now) (nameless [] t)) }
    ensures small { IfOk result (λ t. term_size [] (nameless [] t) ≤ 20000) }
    ensures arity { IfErr result (λ e. e ≡ ReadingError.Arity → definition_has_arities arities.now definition.now ≡ false) }
    ensures untypable { IfErr result (λ e. e ≡ ReadingError.Untypable → (definition_has_arities arities.now definition.now ≡ true) × HasNoTyping (definition_raw arities.now constants.now definition.now)) }
    ensures too_large { IfErr result (λ e. e ≡ ReadingError.TooLarge → (definition_has_arities arities.now definition.now ≡ true) × HasLargeReading (definition_raw arities.now constants.now definition.now)) }
{
    match resolved_definition(alloc, constants, arities, definition) {
        Ok(equation) => read(alloc, &equation),
        Err(ResolveError::Arity) => Err(ReadingError::Arity),
        Err(ResolveError::Memory) => Err(ReadingError::Memory),
    }
}

/// The type that is written, among type constructors of these arities. A name that is no constructor is a type variable.
///
/// Answers `Arity` or `TooLarge`, tested in this order, exactly where a type constructor stands with another number of arguments
/// than its arity (or a name that is no constructor with arguments), or the type has over 20,000 nodes.
pub fn elaborate_type(
    alloc: Global,
    ty: &PreType,
    arities: &[(Name, usize)],
) -> Result<Ty, ReadingError>
    ensures ok { IfOk result (λ t. (t ≡ type_of_text arities.now ty.now) × (has_arities arities.now ty.now ≡ true) × (type_size t ≤ 20000)) }
    ensures arity { IfErr result (λ e. e ≡ ReadingError.Arity → has_arities arities.now ty.now ≡ false) }
    ensures untypable { IfErr result (λ e. e ≡ ReadingError.Untypable → ⊥) }
    ensures too_large { IfErr result (λ e. e ≡ ReadingError.TooLarge → (has_arities arities.now ty.now ≡ true) × (20000 < type_size (type_of_text arities.now ty.now))) }
{
    match resolve_type(alloc, arities, ty) {
        Ok(own_type) => {
            if own_type.size() > 20_000 {
                return Err(ReadingError::TooLarge);
            }
            Ok(own_type)
        }
        Err(ResolveError::Arity) => Err(ReadingError::Arity),
        Err(ResolveError::Memory) => Err(ReadingError::Memory),
    }
}

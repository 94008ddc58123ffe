//! The reading of a term whose identifiers are resolved.
ghost use Rattle.std.specs.Prelude.{◌≡◌, ◌≤◌, [], IfOk, IfErr, IsOkUnless};
ghost use Rattle.hol_terms.specs.Nameless.{nameless};
ghost use Rattle.hol_terms.specs.Size.{term_size};
ghost use Rattle.hol_typing.specs.Raw.{RawTree};
ghost use Rattle.hol_typing.specs.RawView.{raw_tree, slot_tree};
ghost use Rattle.hol_typing.specs.Scoped.{IsScoped, HasRigidAnnotations};
ghost use Rattle.hol_typing.specs.Typing.{HasNoTyping};
ghost use Rattle.hol_infer.specs.Reading.{IsReading, HasLargeReading};
ghost use Rattle.hol_typing.specs.Solved.{IsGeneralTyping, slot_term_size};
ghost use Rattle.hol_infer.specs.declared.reading.ReadingError.TheVariants.{Memory};

use hol_terms::{Scope, Term, TermError};
use hol_typing::{
    Fault, RawTerm, Scope as SlotScope, Shape, Skeleton, TOO_LARGE, Typed, add_term_holes, build,
    principal_typing, size,
};
use std::alloc::Global;
use thiserror::Error;

/// Why a term has no reading.
#[derive(Clone, Copy, Debug, PartialEq, Eq, Error)]
pub enum ReadingError {
    /// A type that is written has a constructor with another number of arguments than its arity, or arguments for a name that is no
    /// constructor.
    #[error("type constructor's arity")]
    Arity,
    /// The term has no typing.
    #[error("untypable")]
    Untypable,
    /// The most general typings have over 20,000 nodes.
    #[error("too large")]
    TooLarge,
    /// There is no memory left.
    #[error("out of memory")]
    Memory,
}

impl From<TermError> for ReadingError {
    ghost from_gives = { λ _ e. e ≡ Memory };

    fn from(_e: TermError) -> ReadingError {
        ReadingError::Memory
    }
}

// The named term of a typing.
fn named(alloc: Global, shapes: &[Shape], skeleton: &Skeleton) -> Result<Term, TermError>
    requires typing { (raw : RawTree) × IsScoped [] raw × IsGeneralTyping raw shapes.now (slot_tree skeleton.now) }
    ensures reading { IfOk result (λ t. (raw : RawTree) → IsGeneralTyping raw shapes.now (slot_tree skeleton.now) → IsReading raw (nameless [] t)) }
    ensures size { IfOk result (λ t. term_size [] (nameless [] t) ≡ slot_term_size shapes.now [] (slot_tree skeleton.now)) }
    ensures memory { IsOkUnless result TermError.Memory }
{
    let mut order = Vec::new(alloc);
    add_term_holes(alloc, shapes, skeleton, &mut order)?;
    build(alloc, shapes, &order, &Scope::Outside, skeleton)
}

// The named term of a typing, unless it is too large.
fn reading_of(alloc: Global, typed: &Typed) -> Result<Term, ReadingError>
    requires typing { (raw : RawTree) × IsScoped [] raw × IsGeneralTyping raw typed.now.shapes.items (slot_tree typed.now.skeleton) }
    ensures reading { IfOk result (λ t. (raw : RawTree) → IsGeneralTyping raw typed.now.shapes.items (slot_tree typed.now.skeleton) → IsReading raw (nameless [] t)) }
    ensures small { IfOk result (λ t. term_size [] (nameless [] t) ≤ 20000) }
    ensures no_arity { IfErr result (λ e. e ≡ ReadingError.Arity → ⊥) }
    ensures no_untypable { IfErr result (λ e. e ≡ ReadingError.Untypable → ⊥) }
    ensures too_large { IfErr result (λ e. e ≡ ReadingError.TooLarge → (raw : RawTree) → IsGeneralTyping raw typed.now.shapes.items (slot_tree typed.now.skeleton) → HasLargeReading raw) }
{
    let outermost = SlotScope::Outermost;
    if size(&typed.shapes, &outermost, &typed.skeleton) >= TOO_LARGE {
        return Err(ReadingError::TooLarge);
    }
    Ok(named(alloc, &typed.shapes, &typed.skeleton)?)
}

/// The reading of a term whose identifiers are resolved: the most general typing, its open types named as they occur.
///
/// Answers `Untypable` exactly where there is no typing, and `TooLarge` exactly where the most general typings, which are all of one size,
/// have over 20,000 nodes.
pub(crate) fn read(alloc: Global, term: &RawTerm) -> Result<Term, ReadingError>
    requires scoped { IsScoped [] (raw_tree term.now) }
    requires rigid { HasRigidAnnotations (raw_tree term.now) }
    ensures reading { IfOk result (λ t. IsReading (raw_tree term.now) (nameless [] t)) }
    ensures small { IfOk result (λ t. term_size [] (nameless [] t) ≤ 20000) }
    ensures no_arity { IfErr result (λ e. e ≡ ReadingError.Arity → ⊥) }
    ensures untypable { IfErr result (λ e. e ≡ ReadingError.Untypable → HasNoTyping (raw_tree term.now)) }
    ensures too_large { IfErr result (λ e. e ≡ ReadingError.TooLarge → HasLargeReading (raw_tree term.now)) }
{
    match principal_typing(alloc, term) {
        Ok(typed) => reading_of(alloc, &typed),
        Err(Fault::Untypable) => Err(ReadingError::Untypable),
        Err(Fault::Memory) => Err(ReadingError::Memory),
    }
}

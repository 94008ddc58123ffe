//! What a term or a type as it is written reads as.
ghost use Rattle.std.specs.Prelude.{IfOk};
ghost use Rattle.hol_resolve.specs.SignatureView.{signature_value};
ghost use Rattle.hol_resolve.specs.Reading.{IsTermReadAs};
ghost use Rattle.hol_resolve.specs.ReadingView.{reading_value};

use crate::signature::Signature;
use hol_infer::{ReadingError, elaborate};
use hol_notation_terms::PreTerm;
use hol_terms::Term;
use std::alloc::{AllocError, Global};

/// What a term reads as.
#[derive(Drop)]
pub enum Reading {
    /// A type constructor has another number of arguments than its arity.
    WrongArity,
    /// No types make it well typed.
    NoTyping,
    /// Its reading has over 20,000 nodes.
    LargeReading,
    /// Its reading.
    ReadsAs(Term),
}

/// What the term as it is written reads as, over what stands.
pub fn term_reading(
    alloc: Global,
    written: &PreTerm,
    over: &Signature,
) -> Result<Reading, AllocError>
    ensures { IfOk result (λ reading. IsTermReadAs (signature_value over.now) written.now (reading_value reading)) }
{
    match elaborate(alloc, written, &over.constants, &over.types) {
        Ok(term) => Ok(Reading::ReadsAs(term)),
        Err(ReadingError::Arity) => Ok(Reading::WrongArity),
        Err(ReadingError::Untypable) => Ok(Reading::NoTyping),
        Err(ReadingError::TooLarge) => Ok(Reading::LargeReading),
        Err(ReadingError::Memory) => Err(AllocError),
    }
}

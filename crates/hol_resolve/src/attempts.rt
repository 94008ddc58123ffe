//! What reading each quotation comes to, faults included.
ghost use Rattle.std.specs.Prelude.{◌≡◌, IfOk, IfSome};
ghost use Rattle.std.specs.List.{slice_get};
ghost use Rattle.hol_resolve.specs.Quotations.{AreWrittenAlike};
ghost use Rattle.hol_resolve.specs.declared.quotations.AnyQuotation.TheVariants as quoted;
ghost use Rattle.hol_resolve.specs.SignatureView.{signature_value};
ghost use Rattle.hol_resolve.specs.Readings.{ATerm, reading_map, IsQuotedAs, AreAttempts, has_wrong_arity, has_no_typing, is_large, first_with, all_read};
ghost use Rattle.hol_resolve.specs.ReadingView.{reading_value, attempt_value, attempts_value, readings_value};

use crate::quotations::AnyQuotation;
use crate::reading::{Reading, term_reading};
use crate::readings::{Quoted, Readings};
use crate::signature::Signature;
use hol_infer::{ReadingError, elaborate_type};
use hol_notation_terms::{Quotation, TypeQuotation};
use std::alloc::{AllocError, Global};

/// What reading a quotation comes to.
#[derive(Drop)]
pub(crate) enum Attempt {
    /// A type constructor has another number of arguments than its arity.
    WrongArity,
    /// No types make it well typed.
    NoTyping,
    /// Its reading has over 20,000 nodes.
    LargeReading,
    /// What it reads as.
    ReadsAs(Quoted),
}

// Among so many quotations before one it is looked for one that is written alike.
const LOOKED_AT: usize = 64;

impl Attempt {
    // The same.
    fn copy(&self) -> Result<Attempt, AllocError>
        ensures { IfOk result (λ attempt. attempt_value attempt ≡ attempt_value self.now) }
    {
        Ok(match self {
            Attempt::WrongArity => Attempt::WrongArity,
            Attempt::NoTyping => Attempt::NoTyping,
            Attempt::LargeReading => Attempt::LargeReading,
            Attempt::ReadsAs(quoted) => Attempt::ReadsAs(quoted.copy()?),
        })
    }
}

/// What reading the quotations comes to, each with its place.
pub(crate) fn attempts_of(
    alloc: Global,
    quotations: &[AnyQuotation],
    over: &Signature,
) -> Result<Vec<(usize, Attempt)>, AllocError>
    ensures { IfOk result (λ attempts. AreAttempts (signature_value over.now) quotations.now (attempts_value attempts.items)) }
{
    let mut attempts = Vec::with_capacity(alloc, quotations.len())?;
    for (i, quotation) in quotations.iter().enumerate() {
        let attempt = attempt_beside(alloc, quotation, &quotations[..i], &attempts, over)?;
        attempts.push((quotation.place(), attempt))?;
    }
    Ok(attempts)
}

// What reading the quotation comes to, beside what those before it come to: of one that is written alike it is the same, and is not made again.
fn attempt_beside(
    alloc: Global,
    quotation: &AnyQuotation,
    before: &[AnyQuotation],
    attempts: &[(usize, Attempt)],
    over: &Signature,
) -> Result<Attempt, AllocError>
    requires { AreAttempts (signature_value over.now) before.now (attempts_value attempts.now) }
    ensures { IfOk result (λ attempt. IsQuotedAs (signature_value over.now) quotation.now (attempt_value attempt)) }
{
    if let Some(at) = place_of_like(quotation, before) {
        if let Some(known) = attempts.get(at) {
            return known.1.copy();
        }
    }
    attempt_of(alloc, quotation, over)
}

// The place of a quotation that is written as this one, if one of the last ones is.
fn place_of_like(quotation: &AnyQuotation, before: &[AnyQuotation]) -> Option<usize>
    ensures { IfSome result (λ at. IfSome (slice_get before.now at) (λ known. AreWrittenAlike known quotation.now)) }
{
    let last = before.len().saturating_sub(LOOKED_AT);
    let mut at = before.len();
    'newest: while at > last {
        at -= 1;
        if before[at].is_written_as(quotation) {
            return Some(at);
        }
    }
    None
}

fn attempt_of(
    alloc: Global,
    quotation: &AnyQuotation,
    over: &Signature,
) -> Result<Attempt, AllocError>
    ensures { IfOk result (λ attempt. IsQuotedAs (signature_value over.now) quotation.now (attempt_value attempt)) }
{
    match quotation {
        AnyQuotation::Term(term) => attempt_of_term(alloc, term, over),
        AnyQuotation::Type(ty) => attempt_of_type(alloc, ty, over),
    }
}

fn attempt_of_term(alloc: Global, term: &Quotation, over: &Signature) -> Result<Attempt, AllocError>
    ensures { IfOk result (λ attempt. IsQuotedAs (signature_value over.now) (quoted.Term term.now) (attempt_value attempt)) }
{
    let reading = term_reading(alloc, &term.term, over)?;
    Ok(attempted(reading))
}

// The reading of a term, as that of a quotation.
fn attempted(reading: Reading) -> Attempt
    ensures { attempt_value result ≡ reading_map ATerm (reading_value reading) }
{
    match reading {
        Reading::WrongArity => Attempt::WrongArity,
        Reading::NoTyping => Attempt::NoTyping,
        Reading::LargeReading => Attempt::LargeReading,
        Reading::ReadsAs(term) => Attempt::ReadsAs(Quoted::Term(term)),
    }
}

fn attempt_of_type(
    alloc: Global,
    ty: &TypeQuotation,
    over: &Signature,
) -> Result<Attempt, AllocError>
    ensures { IfOk result (λ attempt. IsQuotedAs (signature_value over.now) (quoted.Type ty.now) (attempt_value attempt)) }
{
    match elaborate_type(alloc, &ty.ty, &over.types) {
        Ok(ty) => Ok(Attempt::ReadsAs(Quoted::Type(ty))),
        Err(ReadingError::Arity) => Ok(Attempt::WrongArity),
        Err(ReadingError::Untypable) => unreachable!(),
        Err(ReadingError::TooLarge) => Ok(Attempt::LargeReading),
        Err(ReadingError::Memory) => Err(AllocError),
    }
}

/// The place of the first quotation in which a type constructor has another number of arguments than its arity.
pub(crate) fn first_wrong_arity(attempts: &[(usize, Attempt)]) -> Option<usize>
    ensures { result ≡ first_with has_wrong_arity (attempts_value attempts.now) }
{
    for attempt in attempts {
        match &attempt.1 {
            Attempt::WrongArity => return Some(attempt.0),
            Attempt::NoTyping | Attempt::LargeReading | Attempt::ReadsAs(_) => {}
        }
    }
    None
}

/// The place of the first quotation that no types make well typed.
pub(crate) fn first_untyped(attempts: &[(usize, Attempt)]) -> Option<usize>
    ensures { result ≡ first_with has_no_typing (attempts_value attempts.now) }
{
    for attempt in attempts {
        match &attempt.1 {
            Attempt::NoTyping => return Some(attempt.0),
            Attempt::WrongArity | Attempt::LargeReading | Attempt::ReadsAs(_) => {}
        }
    }
    None
}

/// The place of the first quotation whose reading has over 20,000 nodes.
pub(crate) fn first_large(attempts: &[(usize, Attempt)]) -> Option<usize>
    ensures { result ≡ first_with is_large (attempts_value attempts.now) }
{
    for attempt in attempts {
        match &attempt.1 {
            Attempt::LargeReading => return Some(attempt.0),
            Attempt::WrongArity | Attempt::NoTyping | Attempt::ReadsAs(_) => {}
        }
    }
    None
}

/// What is read, each with its place.
pub(crate) fn all_read(alloc: Global, attempts: &[(usize, Attempt)]) -> Result<Readings, AllocError>
    ensures { IfOk result (λ readings. readings_value readings ≡ all_read (attempts_value attempts.now)) }
{
    let mut readings = Vec::with_capacity(alloc, attempts.len())?;
    for attempt in attempts {
        match &attempt.1 {
            Attempt::ReadsAs(quoted) => readings.push((attempt.0, quoted.copy()?))?,
            Attempt::WrongArity | Attempt::NoTyping | Attempt::LargeReading => {}
        }
    }
    Ok(Readings::new(readings))
}

//! The readings of all quotations of a command, or the first fault.
ghost use Rattle.std.specs.Prelude.{◌≡◌, IfOk};
ghost use Rattle.hol_resolve.specs.SignatureView.{signature_value};
ghost use Rattle.hol_resolve.specs.Readings.{AreRead, read_all};
ghost use Rattle.hol_resolve.specs.ReadingView.{readings_result, attempts_value};

use crate::attempts::{
    Attempt, all_read, attempts_of, first_large, first_untyped, first_wrong_arity,
};
use crate::quotations::AnyQuotation;
use crate::readings::Readings;
use crate::refusal::Refusal;
use crate::signature::Signature;
use std::alloc::{AllocError, Global};

/// What the quotations read as over what stands, each by itself; or the first that is refused: by `WrongArity` before all else, then by `NoTyping`, then by `TooLarge`.
pub fn read_quotations(
    alloc: Global,
    quotations: &[AnyQuotation],
    over: &Signature,
) -> Result<Result<Readings, Refusal>, AllocError>
    ensures { IfOk result (λ read. AreRead (signature_value over.now) quotations.now (readings_result read)) }
{
    let attempts = attempts_of(alloc, quotations, over)?;
    read_all(alloc, &attempts)
}

// What all of these come to.
fn read_all(
    alloc: Global,
    attempts: &[(usize, Attempt)],
) -> Result<Result<Readings, Refusal>, AllocError>
    ensures { IfOk result (λ read. readings_result read ≡ read_all (attempts_value attempts.now)) }
{
    if let Some(place) = first_wrong_arity(attempts) {
        return Ok(Err(Refusal::WrongArity(place)));
    }
    if let Some(place) = first_untyped(attempts) {
        return Ok(Err(Refusal::NoTyping(place)));
    }
    if first_large(attempts).is_some() {
        return Ok(Err(Refusal::TooLarge));
    }
    Ok(Ok(all_read(alloc, attempts)?))
}

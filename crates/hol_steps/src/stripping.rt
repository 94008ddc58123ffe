//! Pieces stripped one after the other.
ghost use Rattle.std.specs.Prelude.{map, IfOk, []};
ghost use Rattle.std.specs.Option.{option_map};
ghost use Rattle.hol_terms.specs.Nameless.{nameless};
ghost use Rattle.hol_goal.specs.Answer.{starting};
ghost use Rattle.hol_just.specs.Strip.{AvoidedValue, avoiding, strip};
ghost use Rattle.hol_steps.specs.Fresh.{AvoidAlike};
ghost use Rattle.hol_steps.specs.Progress.{progress_value, with_next, Goes};
ghost use Rattle.hol_steps.specs.Stripping.{IsStripped, KeepsValid};

use crate::pieces::{Becoming, becomes};
use crate::progress::Progress;
use crate::waiting::Waiting;
use hol_goal::Names;
use hol_just::{Just, TacFault, Tried};
use hol_terms::Term;
use hol_types::Name;
use std::alloc::{AllocError, Global};

/// Strips the pieces, one after the other, to which the moves led. New names are those of nothing in the others, and of no constant.
pub fn strip(
    alloc: Global,
    others: &[Term],
    names: &Names,
    before: Just,
    first: Waiting,
    turns: u32,
) -> Result<Tried, TacFault>
    ensures answer { (avoided : AvoidedValue) → AvoidAlike (avoiding (map (nameless []) others.now) names.now) avoided → IsStripped (strip avoided first (starting turns)) result }
    ensures valid { (avoided : AvoidedValue) → AvoidAlike (avoiding (map (nameless []) others.now) names.now) avoided → IfOk result (λ tried. KeepsValid avoided before first tried.step) }
{
    let mut progress = Progress::new(alloc, before, first, turns)?;
    'pieces: while let Some(next) = progress.next() {
        if let Some(tested) = go_on(alloc, others, names, next, &mut progress)? {
            return Err(TacFault::TurnLimit(tested));
        }
    }
    Ok(progress.end())
}

// Strips the first piece of what was taken. The names that were tested, where there was no turn for it.
fn go_on(
    alloc: Global,
    others: &[Term],
    names: &Names,
    next: Waiting,
    progress: &mut Progress,
) -> Result<Option<Vec<Name>>, AllocError>
    ensures { IfOk result (λ out. (avoided : AvoidedValue) → AvoidAlike (avoiding (map (nameless []) others.now) names.now) avoided → Goes avoided (with_next next (progress_value progress.old)) (progress_value progress.new) (option_map (λ tested. tested.items) out)) }
{
    let mut next = next;
    let Some(piece) = next.take() else {
        progress.finish(next.into_goal())?;
        return Ok(None);
    };
    let used = progress.take_used(alloc);
    match becomes(alloc, others, names, &piece, next, used)? {
        Becoming::Parts(parts) => {
            progress.again(parts)?;
            Ok(None)
        }
        Becoming::RunsOut(tested) => Ok(Some(tested)),
    }
}

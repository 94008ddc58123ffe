//! Outcomes that are refusals.
ghost use Rattle.std.specs.Prelude.{◌≡◌, IfOk, decimal, []};
ghost use Rattle.hol_theory.specs.Key.{key_text};
ghost use Rattle.hol_exec.specs.declared.reports.refusal.RefusalKind.TheVariants as refusal;
ghost use Rattle.hol_exec.specs.OutcomeValue.{Refuses};

use crate::reports::RefusalKind;
use crate::running::outcome::Outcome;
use hol_theory::Key;
use std::alloc::{AllocError, Global};

/// A refusal that speaks of nothing.
pub(crate) fn refused(alloc: Global, kind: RefusalKind) -> Outcome
    ensures { result ≡ Refuses kind [] }
{
    Outcome::refuses(kind, String::new(alloc))
}

/// A refusal that speaks of a place.
pub(crate) fn refused_at(
    alloc: Global,
    kind: RefusalKind,
    place: usize,
) -> Result<Outcome, AllocError>
    ensures { IfOk result (λ outcome. outcome ≡ Refuses kind (decimal place)) }
{
    Ok(Outcome::refuses(kind, place.to_string(alloc)?))
}

/// A refusal that speaks of a name.
pub(crate) fn refused_name(
    alloc: Global,
    kind: RefusalKind,
    name: &str,
) -> Result<Outcome, AllocError>
    ensures { IfOk result (λ outcome. outcome ≡ Refuses kind name.now) }
{
    Ok(Outcome::refuses(kind, String::from_str(alloc, name)?))
}

/// The refusal of a key that is taken.
pub(crate) fn name_taken(alloc: Global, key: &Key) -> Result<Outcome, AllocError>
    ensures { IfOk result (λ outcome. outcome ≡ Refuses refusal.NameTaken (key_text key.now)) }
{
    Ok(Outcome::refuses(RefusalKind::NameTaken, key.text(alloc)?))
}

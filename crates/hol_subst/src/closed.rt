//! Closed terms.
ghost use Rattle.std.specs.Prelude.{◌≡◌, IfOk, []};
ghost use Rattle.hol_terms.specs.Nameless.{nameless};
ghost use Rattle.hol_subst.specs.ClosedTerm.{is_closed};

use hol_terms::Term;
use std::alloc::{AllocError, Global};

/// Whether no variable is free in the term.
#[tactic(auto, using(crate::proofs::ClosedTerm::none_free))]
pub fn is_closed(alloc: Global, term: &Term) -> Result<bool, AllocError>
    ensures { IfOk result (λ is. is ≡ is_closed (nameless [] term.now)) }
{
    let variables = term.frees(alloc)?;
    Ok(variables.is_empty())
}

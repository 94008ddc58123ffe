//! Variants of a variable.
ghost use Rattle.std.specs.Prelude.{◌≡◌, [], map, IfOk};
ghost use Rattle.hol_terms.specs.Nameless.{nameless};
ghost use Rattle.hol_subst.specs.Variant.{is_free_in, IsVariant};

use crate::hypotheses::is_free_in_one;
use hol_terms::{Term, Variable};
use std::alloc::{AllocError, Global};

/// The variable with the fewest primes more at the end of its name that make it free in none of the terms.
pub fn variant(alloc: Global, avoid: &[Term], v: &Variable) -> Result<Variable, AllocError>
    ensures { IfOk result (λ r. IsVariant (map (λ t. nameless [] t) avoid.now) v.now r) }
{
    let mut candidate = v.copy()?;
    'primes: while free_in_any(avoid, &candidate) {
        candidate = candidate.primed(alloc)?;
    }
    Ok(candidate)
}

// Whether the variable is free in one of the terms.
fn free_in_any(avoid: &[Term], v: &Variable) -> bool
    ensures { result ≡ is_free_in (map (λ t. nameless [] t) avoid.now) v.now }
{
    is_free_in_one(avoid, v)
}

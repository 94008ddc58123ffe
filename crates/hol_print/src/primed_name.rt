//! Names as a base and primes.
ghost use Rattle.std.specs.Prelude.{◌≡◌, ◌≢◌, ◌++◌, ℕ, OnOk, MatchOption, string_bytes};
ghost use Rattle.hol_terms.specs.Nameless.{base_of};
ghost use Rattle.hol_terms.specs.Primes.{with_primes};

use crate::room::put_name;
use hol_terms::base_name;
use std::alloc::AllocError;
use std::marker::Model;

/// A name: a base, which ends in no prime, and the number of primes after it. So two names are told apart without going through
/// their primes.
#[derive(Drop)]
pub(crate) struct PrimedName<'a> {
    base: &'a str,
    primes: usize,
}

impl<'a> Model for PrimedName<'a> {
    ghost use Rattle.std.specs.Prelude.{ℕ, List, ◌≡◌};
    ghost use Rattle.hol_terms.specs.Nameless.{base_of};
    ghost use Rattle.hol_terms.specs.Primes.{with_primes};

    ghost Value = { List ℕ };

    ghost view = { λ n. with_primes n.primes n.base.now };

    ghost invariant = { λ n. base_of n.base.now ≡ n.base.now };
}

impl<'a> PrimedName<'a> {
    /// The base with so many primes.
    pub(crate) fn new(base: &'a str, primes: usize) -> PrimedName<'a>
        requires { base_of base.now ≡ base.now }
        ensures { result ≡ with_primes primes base.now }
    {
        PrimedName { base, primes }
    }

    /// The name of this text.
    #[tactic(auto, using(crate::proofs::Primes::of_text))]
    pub(crate) fn of(name: &'a str) -> PrimedName<'a>
        ensures { result ≡ name.now }
    {
        let base = base_name(name);
        PrimedName {
            base,
            primes: name.len() - base.len(),
        }
    }

    /// The same name.
    pub(crate) fn copy(&self) -> PrimedName<'a>
        ensures { result ≡ self.now }
    {
        PrimedName {
            base: self.base,
            primes: self.primes,
        }
    }

    /// How many primes it has after the base, where it is the base with primes.
    pub(crate) fn primes_after(&self, base: &str) -> Option<usize>
        requires { base_of base.now ≡ base.now }
        ensures { MatchOption result ((k : ℕ) → self.now ≢ with_primes k base.now) (λ k. self.now ≡ with_primes k base.now) }
    {
        if self.base == base {
            Some(self.primes)
        } else {
            None
        }
    }

    /// Puts the text of the name at the end.
    #[tactic(auto, using(crate::proofs::Primes::after_front))]
    pub(crate) fn put(&self, out: &mut String) -> Result<(), AllocError>
        ensures { OnOk result (string_bytes out.new ≡ string_bytes out.old ++ self.now) }
    {
        put_name(out, self.base)?;
        put_primes(self.primes, out)
    }
}

// Puts so many primes at the end.
#[tactic(auto, using(crate::proofs::Primes::one_more))]
fn put_primes(primes: usize, out: &mut String) -> Result<(), AllocError>
    ensures { OnOk result (string_bytes out.new ≡ with_primes primes (string_bytes out.old)) }
{
    for _i in 0..primes {
        put_name(out, "'")?;
    }
    Ok(())
}

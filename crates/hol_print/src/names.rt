//! The names by which bound variables are shown.
ghost use Rattle.std.specs.Prelude.{◌≡◌, ◌≤◌, ◌<◌, ◌++◌, ◌∷◌, [], ℕ, IfOk, OnOk, MatchOption, length, get_or, true, false, ◌||◌, bytes_eq};
ghost use Rattle.hol_terms.specs.Nameless.{base_of, bound};
ghost use Rattle.hol_terms.specs.Primes.{with_primes};
ghost use Rattle.hol_print.specs.BareView.{bare_of};
ghost use Rattle.hol_print.specs.Taken.{IsTable};
ghost use Rattle.hol_print.specs.ShowTerm.{names_in, primed, shown_name};

use crate::bare::{Bare, one_more};
use crate::primed_name::PrimedName;
use crate::shown_names::ShownNames;
use std::alloc::{AllocError, Global};

/// The name by which a variable of this base is shown, whose binder has this body. `shown` has the names of the binders around it,
/// the innermost first.
pub(crate) fn shown_name<'a>(
    alloc: Global,
    shown: &ShownNames<'a>,
    base: &'a str,
    body: &Bare<'a>,
) -> Result<PrimedName<'a>, AllocError>
    requires { base_of base.now ≡ base.now }
    ensures { IfOk result (λ name. name ≡ shown_name shown.now base.now (bare_of body.now)) }
{
    let mut names = Vec::new(alloc);
    put_names(body, 1, shown, &mut names)?;
    let primes = fewest_primes(alloc, &names, base)?;
    Ok(PrimedName::new(base, primes))
}

// Puts the names that the part of a binder's body shows at the end; `own` of the binders around it are the body's, with the binder itself.
fn put_names<'a>(
    t: &Bare<'a>,
    own: usize,
    shown: &ShownNames<'a>,
    names: &mut Vec<PrimedName<'a>>,
) -> Result<(), AllocError>
    ensures { OnOk result (names.new.items ≡ names.old.items ++ names_in own shown.now (bare_of t.now)) }
{
    match t {
        Bare::Free(v) => Ok(names.push(PrimedName::of(v.name().as_str()))?),
        Bare::Constant(c, _) => Ok(names.push(PrimedName::of(c.as_str()))?),
        Bare::Bound(i) => match outer_name(shown, *i, own) {
            Some(name) => Ok(names.push(name)?),
            None => Ok(()),
        },
        Bare::App(f, x) => {
            put_names(f, own, shown, names)?;
            put_names(x, own, shown, names)
        }
        Bare::Lam(_, b) => put_names(b, one_more(own)?, shown, names),
    }
}

// The name of a bound variable whose binder is none of the `own` innermost.
fn outer_name<'a>(shown: &ShownNames<'a>, index: usize, own: usize) -> Option<PrimedName<'a>>
    ensures { MatchOption result (names_in own shown.now (bound index) ≡ []) (λ name. names_in own shown.now (bound index) ≡ name ∷ []) }
{
    if index < own {
        return None;
    }
    match shown.get(index - own) {
        Some(name) => Some(name.copy()),
        None => None,
    }
}

// The fewest primes that make the base none of the names.
fn fewest_primes(alloc: Global, names: &[PrimedName], base: &str) -> Result<usize, AllocError>
    requires { base_of base.now ≡ base.now }
    ensures { IfOk result (λ k. with_primes k base.now ≡ primed (length names.now) names.now base.now) }
{
    let taken = taken_primes(alloc, names, base)?;
    Ok(first_free(&taken))
}

// Whether the base with k primes is one of the names, for each k below their number: with that many primes no more need be tried.
fn taken_primes(alloc: Global, names: &[PrimedName], base: &str) -> Result<Vec<bool>, AllocError>
    requires { base_of base.now ≡ base.now }
    ensures { IfOk result (λ taken. IsTable taken.items names.now base.now) }
{
    let mut taken = vec![in alloc; false; names.len()]?;
    for name in names {
        mark(&mut taken, name, base);
    }
    Ok(taken)
}

// Marks the number of primes after the base that make the name.
#[tactic(auto, using(crate::proofs::Primes::marking))]
fn mark(taken: &mut [bool], name: &PrimedName, base: &str)
    requires { base_of base.now ≡ base.now }
    ensures long { length taken.new ≡ length taken.old }
    ensures says { (k : ℕ) → k < length taken.old → get_or taken.new k false ≡ (get_or taken.old k false || bytes_eq (with_primes k base.now) name.now) }
{
    if let Some(primes) = name.primes_after(base) {
        if primes < taken.len() {
            taken[primes] = true;
        }
    }
}

// The place of the first that isn't taken, or how many there are.
fn first_free(taken: &[bool]) -> usize
    ensures within { result ≤ length taken.now }
    ensures all { (j : ℕ) → j < result → get_or taken.now j false ≡ true }
    ensures first { result < length taken.now → get_or taken.now result false ≡ false }
{
    for (place, is_taken) in taken.iter().enumerate() {
        if !*is_taken {
            return place;
        }
    }
    taken.len()
}

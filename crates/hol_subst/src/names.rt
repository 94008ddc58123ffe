//! Names for new free variables.
ghost use Rattle.std.specs.Prelude.{◌≡◌, ◌≢◌, ℕ, [], map, not, length, get_or, true, false, ◌&&◌, ◌==◌, bytes_eq, IfOk, OnOk, MatchOption, IsTrue, ◌↔◌, ◌<◌};
ghost use Rattle.hol_terms.specs.Nameless.{nameless};
ghost use Rattle.hol_terms.specs.Primes.{with_primes};
ghost use Rattle.hol_terms.specs.Scope.{binders};
ghost use Rattle.hol_terms.specs.Scoped.{binds};
ghost use Rattle.hol_subst.specs.FreeName.{has_name, is_taken, IsFreeName};
ghost use Rattle.hol_subst.specs.Marks.{Marks, HasPlace, HasPrimed, Lacks};

use hol_terms::{Scope, Term, TermNode, Variable};
use hol_types::{Name, NameFilter};
use std::alloc::{AllocError, Global};

/// The base with the fewest primes more at its end that make it differ from the names of all free variables and constants in the
/// terms.
pub fn free_name(alloc: Global, avoid: &[Term], base: &Name) -> Result<Name, AllocError>
    ensures { IfOk result (λ r. IsFreeName (map (λ t. nameless [] t) avoid.now) base.now r) }
{
    if !is_taken(avoid, base) {
        return base.copy();
    }
    let taken = taken_primes(alloc, avoid, base.as_str())?;
    with_primes(alloc, base, first_free(&taken))
}

// Whether a free variable or a constant in one of the terms has the name.
fn is_taken(avoid: &[Term], name: &Name) -> bool
    ensures { result ≡ is_taken (map (λ t. nameless [] t) avoid.now) name.now }
{
    let place = NameFilter::of_name(name);
    for term in avoid {
        if has_name(term, &Scope::Outside, name, place) {
            return true;
        }
    }
    false
}

// The same in one term, of which the binders were passed. `place` is that of the name: a part that has none of this place is passed over.
#[tactic(auto, using(crate::proofs::FreeName::has_place, crate::proofs::NameFilters::lacked))]
fn has_name(term: &Term, scope: &Scope, name: &Name, place: NameFilter) -> bool
    requires { HasPlace place.bits name.now }
    ensures { result ≡ has_name name.now (nameless (binders scope.now) term.now) }
{
    if lacks_all(term, place) {
        return false;
    }
    match term.node() {
        TermNode::Var(v) => v.name().same(name) && !scope.binds(v),
        TermNode::Const(c, _) => c.same(name),
        TermNode::Comb(f, x) => has_name(f, scope, name, place) || has_name(x, scope, name, place),
        TermNode::Abs(v, b) => has_name(b, &Scope::Inside(v, &*scope), name, place),
    }
}

// Whether it is seen at once that no variable and no constant in the term has a name of these.
fn lacks_all(term: &Term, names: NameFilter) -> bool
    ensures { IsTrue result → Lacks names.bits term.now }
{
    !term.filter().meets(names) && !term.constants().meets(names)
}

/// Whether the base with k primes is the name of a free variable or of a constant in one of the terms, at each k: no longer than those
/// names are.
pub fn taken_primes(alloc: Global, avoid: &[Term], base: &str) -> Result<Vec<bool>, AllocError>
    ensures { IfOk result (λ taken. Marks [] taken.items (λ k. is_taken (map (λ t. nameless [] t) avoid.now) (with_primes k base.now))) }
{
    let mut taken = Vec::new(alloc);
    let primed = NameFilter::of_primed(base);
    for term in avoid {
        mark_names(term, &Scope::Outside, base, primed, &mut taken)?;
    }
    Ok(taken)
}

// Marks for each free variable and each constant in a term, of which the binders were passed, how many primes after the base its name is.
// `primed` has the base with any number of primes: a part that has none of these places is passed over.
#[tactic(auto, using(crate::proofs::NameFilters::none_marked))]
fn mark_names(
    term: &Term,
    scope: &Scope,
    base: &str,
    primed: NameFilter,
    taken: &mut Vec<bool>,
) -> Result<(), AllocError>
    requires { HasPrimed primed.bits base.now }
    ensures { OnOk result (Marks taken.old.items taken.new.items (λ k. has_name (with_primes k base.now) (nameless (binders scope.now) term.now))) }
{
    if lacks_all(term, primed) {
        return Ok(());
    }
    match term.node() {
        TermNode::Var(v) => mark_variable(v, scope, base, taken),
        TermNode::Const(c, _) => mark_name(c, base, taken),
        TermNode::Comb(f, x) => {
            mark_names(f, scope, base, primed, taken)?;
            mark_names(x, scope, base, primed, taken)
        }
        TermNode::Abs(v, b) => mark_names(b, &Scope::Inside(v, &*scope), base, primed, taken),
    }
}

// The same for a variable, unless it is bound.
fn mark_variable(
    v: &Variable,
    scope: &Scope,
    base: &str,
    taken: &mut Vec<bool>,
) -> Result<(), AllocError>
    ensures { OnOk result (Marks taken.old.items taken.new.items (λ k. bytes_eq v.now.0 (with_primes k base.now) && not (binds (binders scope.now) v.now))) }
{
    match primes_after(v.name().as_str(), base) {
        Some(primes) if !scope.binds(v) => mark(primes, taken),
        Some(_) | None => Ok(()),
    }
}

// The same for a name.
fn mark_name(name: &Name, base: &str, taken: &mut Vec<bool>) -> Result<(), AllocError>
    ensures { OnOk result (Marks taken.old.items taken.new.items (λ k. bytes_eq name.now (with_primes k base.now))) }
{
    match primes_after(name.as_str(), base) {
        Some(primes) => mark(primes, taken),
        None => Ok(()),
    }
}

// Marks the place. The list grows as far as that takes.
fn mark(place: usize, taken: &mut Vec<bool>) -> Result<(), AllocError>
    ensures { OnOk result (Marks taken.old.items taken.new.items (λ k. k == place)) }
{
    if place < taken.len() {
        taken[place] = true;
        return Ok(());
    }
    taken.resize(place, false)?;
    taken.push(true)?;
    Ok(())
}

// How many primes the name has after the base, where it is the base with primes.
fn primes_after(name: &str, base: &str) -> Option<usize>
    ensures { MatchOption result ((k : ℕ) → name.now ≢ with_primes k base.now) (λ k. name.now ≡ with_primes k base.now) }
{
    let end = name.strip_prefix(base)?;
    if are_primes(end) {
        Some(end.len())
    } else {
        None
    }
}

// Whether the text is primes alone: it begins with one, and each other byte equals the one before it, which is seen many bytes at a time.
fn are_primes(text: &str) -> bool
    ensures { IsTrue result ↔ (text.now ≡ with_primes (length text.now) []) }
{
    match text.strip_prefix('\'') {
        Some(rest) => text.starts_with(rest),
        None => text.is_empty(),
    }
}

// The place of the first that isn't taken, or how many there are.
fn first_free(taken: &[bool]) -> usize
    ensures all { (j : ℕ) → j < result → get_or taken.now j false ≡ true }
    ensures first { get_or taken.now result false ≡ false }
{
    for (place, is_taken) in taken.iter().enumerate() {
        if !*is_taken {
            return place;
        }
    }
    taken.len()
}

/// The name with so many primes more at its end.
pub fn with_primes(alloc: Global, base: &Name, primes: usize) -> Result<Name, AllocError>
    ensures { IfOk result (λ name. name ≡ with_primes primes base.now) }
{
    let mut text = String::from_str(alloc, base.as_str())?;
    for _i in 0..primes {
        text.push_str("'")?;
    }
    Name::new(alloc, text.as_str())
}

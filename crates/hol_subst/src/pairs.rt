//! Lists of a term and a variable.
ghost use Rattle.std.specs.Prelude.{◌≡◌, ◌∷◌, ◌++◌, [], true, false, IfOk, MatchOption, OnOk, Some, None};
ghost use Rattle.hol_types.specs.Equal.{variable_eq};
ghost use Rattle.hol_terms.specs.Named.{Named, var};
ghost use Rattle.hol_terms.specs.Nameless.{nameless};
ghost use Rattle.hol_terms.specs.Scoped.{occurs_in};
ghost use Rattle.hol_subst.specs.Capture.{given, has_pair, touches, comes_in, is_taken, IsRest, IsRenaming};

use hol_terms::{Term, Variable};
use std::alloc::{AllocError, Global};

/// The term of the first pair of the variable.
pub(crate) fn replacement<'a>(pairs: &'a [(Term, Variable)], v: &Variable) -> Option<&'a Term>
    ensures { MatchOption result (given pairs.now v.now ≡ var v.now) (λ t. given pairs.now v.now ≡ t.now) }
{
    for pair in pairs {
        if pair.1.same(v) {
            return Some(&pair.0);
        }
    }
    None
}

/// Whether some pair is of the variable.
pub(crate) fn has_pair(pairs: &[(Term, Variable)], v: &Variable) -> bool
    ensures { result ≡ has_pair pairs.now v.now }
{
    for pair in pairs {
        if pair.1.same(v) {
            return true;
        }
    }
    false
}

/// Whether the variable of some pair may be free in the term: where it says no, none is.
pub(crate) fn may_touch(pairs: &[(Term, Variable)], t: &Term) -> bool
    ensures { result ≡ false → touches pairs.now t.now ≡ false }
{
    for pair in pairs {
        if t.may_have_free(&pair.1) {
            return true;
        }
    }
    false
}

/// Whether the variable is free in the term of a pair whose variable is free in `b`.
pub(crate) fn comes_in(pairs: &[(Term, Variable)], v: &Variable, b: &Term) -> bool
    ensures { result ≡ comes_in pairs.now v.now b.now }
{
    for pair in pairs {
        if pair.0.vfree_in(v) && b.vfree_in(&pair.1) {
            return true;
        }
    }
    false
}

/// The pairs that are left in the body `b` of an abstraction over `v`.
pub(crate) fn rest_of(
    alloc: Global,
    pairs: &[(Term, Variable)],
    v: &Variable,
    b: &Term,
) -> Result<Vec<(Term, Variable)>, AllocError>
    ensures { IfOk result (λ rest. IsRest v.now b.now pairs.now rest.items) }
{
    let mut rest = Vec::new(alloc);
    for pair in pairs {
        if stays(&pair.1, v, b) {
            add_pair(&mut rest, &pair.0, &pair.1)?;
        }
    }
    Ok(rest)
}

// Whether a pair of `u` is needed in the body `b` of an abstraction over `v`.
fn stays(u: &Variable, v: &Variable, b: &Term) -> bool
    ensures own { variable_eq u.now v.now ≡ true → result ≡ false }
    ensures others { result ≡ false → variable_eq u.now v.now ≡ false → occurs_in u.now b.now ≡ false }
{
    !u.same(v) && b.may_have_free(u)
}

/// Puts the pair at the end.
pub(crate) fn add_pair(
    pairs: &mut Vec<(Term, Variable)>,
    term: &Term,
    v: &Variable,
) -> Result<(), AllocError>
    ensures { OnOk result (pairs.new.items ≡ pairs.old.items ++ (term.now, v.now) ∷ []) }
{
    Ok(pairs.push((term.copy()?, v.copy()?))?)
}

/// What a variable bound over `b` is called where the pairs are substituted in `b`: with the fewest primes more that make it free in
/// nothing that is then in `b`.
///
/// The substituted body isn't made for this: its free variables are those of `b` that have no pair, and those of the terms that come in.
pub(crate) fn renaming(
    alloc: Global,
    pairs: &[(Term, Variable)],
    v: &Variable,
    b: &Term,
) -> Result<Variable, AllocError>
    ensures { IfOk result (λ u. IsRenaming pairs.now b.now v.now u) }
{
    let mut candidate = v.copy()?;
    'primes: while is_taken(pairs, b, &candidate) {
        candidate = candidate.primed(alloc)?;
    }
    Ok(candidate)
}

// Whether the variable is free in `b` once the pairs are substituted there.
fn is_taken(pairs: &[(Term, Variable)], b: &Term, v: &Variable) -> bool
    ensures { result ≡ is_taken pairs.now b.now v.now }
{
    b.vfree_in(v) && !has_pair(pairs, v) || comes_in(pairs, v, b)
}

/// The pairs after one that gives the variable `u` for `v`.
pub(crate) fn renaming_first(
    alloc: Global,
    u: &Variable,
    v: &Variable,
    rest: Vec<(Term, Variable)>,
) -> Result<Vec<(Term, Variable)>, AllocError>
    ensures { IfOk result (λ pairs. pairs.items ≡ (var u.now, v.now) ∷ rest.items) }
{
    let mut pairs = rest;
    pairs.insert(0, (Term::var(alloc, u)?, v.copy()?))?;
    Ok(pairs)
}

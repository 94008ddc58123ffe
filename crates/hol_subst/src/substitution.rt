//! Substitution of terms for free variables.
ghost use Rattle.std.specs.Prelude.{◌≡◌, ◌↔◌, ◌∷◌, ◌++◌, [], map, cond, IfOk, IsErrOf, IsTrue, OnOk, List, ℕ};
ghost use Rattle.hol_types.specs.Tree.{TypeTree};
ghost use Rattle.hol_terms.specs.Named.{var};
ghost use Rattle.hol_terms.specs.Nameless.{nameless};
ghost use Rattle.hol_subst.specs.Substitution.{term_subst};
ghost use Rattle.hol_subst.specs.Pairs.{nameless_pairs, IsGoodPair, HasBadPair};
ghost use Rattle.hol_subst.specs.Capture.{given, has_pair, Fit, IsResult, IsEntry};
ghost use Rattle.hol_subst.specs.Substituted.{named_for, IsVsubst};

use crate::error::SubstError;
use crate::pairs::{
    add_pair, comes_in, has_pair, may_touch, renaming, renaming_first, replacement, rest_of,
};
use crate::rebuilt::{changed_abstraction, changed_application, changed_twice, operator};
use hol_terms::{Term, TermNode, Variable};
use std::alloc::{AllocError, Global};

// The variable that is bound in the place of another one, and the pairs that are substituted in the body.
#[derive(Drop)]
struct Entry {
    binder: Variable,
    pairs: Vec<(Term, Variable)>,
}

/// The term with terms for its free variables, by pairs of a term and a variable, of which the first of a variable counts.
///
/// A bound variable gets primes where it would capture a variable that comes in, and nowhere else. A part in which no variable of a
/// pair is free keeps its nodes.
///
/// Answers `BadPair` exactly where the second part of some pair is no variable of the first part's type.
pub fn vsubst(alloc: Global, pairs: &[(Term, Term)], t: &Term) -> Result<Term, SubstError>
    ensures ok { IfOk result (λ r. nameless [] r ≡ term_subst (nameless_pairs pairs.now) 0 (nameless [] t.now)) }
    ensures named { IfOk result (λ r. IsVsubst pairs.now t.now r) }
    ensures bad_pair { IsErrOf result SubstError.BadPair ↔ HasBadPair pairs.now }
{
    if has_bad_pair(pairs) {
        return Err(SubstError::BadPair);
    }
    Ok(vsubst_good(alloc, pairs, t)?)
}

/// [`vsubst`] by pairs of which none is bad.
pub fn vsubst_good(alloc: Global, pairs: &[(Term, Term)], t: &Term) -> Result<Term, AllocError>
    requires { HasBadPair pairs.now → ⊥ }
    ensures ok { IfOk result (λ r. nameless [] r ≡ term_subst (nameless_pairs pairs.now) 0 (nameless [] t.now)) }
    ensures named { IfOk result (λ r. IsVsubst pairs.now t.now r) }
{
    let pairs = first_pairs(alloc, pairs)?;
    substituted(alloc, t, &pairs)
}

/// The terms with terms for their free variables, each as [`vsubst_good`] gives it.
pub(crate) fn vsubst_all(
    alloc: Global,
    pairs: &[(Term, Term)],
    terms: &[Term],
) -> Result<Vec<Term>, AllocError>
    requires { HasBadPair pairs.now → ⊥ }
    ensures { IfOk result (λ rs. map (λ r. nameless [] r) rs.items ≡ map (λ p. term_subst (nameless_pairs pairs.now) 0 (nameless [] p)) terms.now) }
{
    let mut instances = Vec::new(alloc);
    for term in terms {
        instances.push(vsubst_good(alloc, pairs, term)?)?;
    }
    Ok(instances)
}

// Whether the second part of some pair is no variable of the first part's type.
#[tactic(auto, using(crate::proofs::Steps::bad_pairs))]
fn has_bad_pair(pairs: &[(Term, Term)]) -> bool
    ensures { IsTrue result ↔ HasBadPair pairs.now }
{
    for pair in pairs {
        if !fits(&pair.0, &pair.1) {
            return true;
        }
    }
    false
}

// Whether `u` is a variable of the term's type.
fn fits(term: &Term, u: &Term) -> bool
    ensures { IsTrue result ↔ IsGoodPair (term.now, u.now) }
{
    let TermNode::Var(v) = u.node() else {
        return false;
    };
    v.ty().same(term.type_of())
}

// The pairs as terms for variables, the first of each variable alone.
fn first_pairs(alloc: Global, pairs: &[(Term, Term)]) -> Result<Vec<(Term, Variable)>, AllocError>
    requires { HasBadPair pairs.now → ⊥ }
    ensures ok { IfOk result (λ found. (w : List ℕ × TypeTree) → given found.items w ≡ named_for pairs.now w) }
    ensures fit { IfOk result (λ found. Fit found.items) }
{
    let mut found = Vec::new(alloc);
    for pair in pairs {
        add_first(&mut found, &pair.0, &pair.1)?;
    }
    Ok(found)
}

// Puts the pair at the end, where `u` is a variable that has no pair yet.
fn add_first(found: &mut Vec<(Term, Variable)>, term: &Term, u: &Term) -> Result<(), AllocError>
    ensures { OnOk result ((v : List ℕ × TypeTree) → u.now ≡ var v → found.new.items ≡ cond (has_pair found.old.items v) found.old.items (found.old.items ++ (term.now, v) ∷ [])) }
{
    let TermNode::Var(v) = u.node() else {
        return Ok(());
    };
    if has_pair(found, v) {
        return Ok(());
    }
    add_pair(found, term, v)
}

// The term with the terms of the pairs for its free variables. Parts that stay as they are keep their nodes.
//
// A level of the term takes as little of the stack as it can: a goal may have 8,000.
#[cycle(substituted)]
fn substituted(alloc: Global, t: &Term, pairs: &[(Term, Variable)]) -> Result<Term, AllocError>
    requires { Fit pairs.now }
    ensures { IfOk result (λ r. IsResult pairs.now t.now r) }
{
    if !may_touch(pairs, t) {
        return t.copy();
    }
    match t.node() {
        TermNode::Var(v) => at_variable(pairs, t, v),
        TermNode::Const(_, _) => t.copy(),
        TermNode::Comb(f, x) => {
            let argument = substituted(alloc, x, pairs)?;
            if let Some(h) = operator(f, x) {
                let inner = substituted(alloc, h, pairs)?;
                return changed_twice(alloc, t, f, h, inner, x, argument);
            }
            let function = substituted(alloc, f, pairs)?;
            changed_application(alloc, t, f, function, x, argument)
        }
        TermNode::Abs(v, b) => {
            let entry = entering(alloc, pairs, v, b)?;
            let inside = substituted(alloc, b, &entry.pairs)?;
            changed_abstraction(alloc, t, v, &entry.binder, b, inside)
        }
    }
}

// A copy of the term of the first pair of the variable, which `t` is, or of `t`.
#[inline(never)]
fn at_variable(pairs: &[(Term, Variable)], t: &Term, v: &Variable) -> Result<Term, AllocError>
    requires { t.now ≡ var v.now }
    ensures { IfOk result (λ r. r ≡ given pairs.now v.now) }
{
    match replacement(pairs, v) {
        Some(term) => term.copy(),
        None => t.copy(),
    }
}

// How substitution goes on in the body `b` of an abstraction over `v`: `v` is renamed where it would capture what comes in.
#[inline(never)]
fn entering(
    alloc: Global,
    pairs: &[(Term, Variable)],
    v: &Variable,
    b: &Term,
) -> Result<Entry, AllocError>
    requires { Fit pairs.now }
    ensures { IfOk result (λ entry. IsEntry pairs.now v.now b.now entry.binder entry.pairs.items) }
{
    let rest = rest_of(alloc, pairs, v, b)?;
    if !comes_in(&rest, v, b) {
        return Ok(Entry {
            binder: v.copy()?,
            pairs: rest,
        });
    }
    let u = renaming(alloc, &rest, v, b)?;
    let pairs = renaming_first(alloc, &u, v, rest)?;
    Ok(Entry { binder: u, pairs })
}

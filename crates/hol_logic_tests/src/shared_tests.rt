//! No call walks a shared type or a shared term: it would not end in the reader's lifetime if one did.
use crate::written::Written;
use hol_kernel::{Basis, KernelError, Thm};
use hol_subst::alpha_order;
use hol_terms::{Term, TermError, TermNode};
use hol_types::Ty;
use std::alloc::{AllocError, Global};
use std::cmp::Ordering;
use std::test::Fail;

// A type whose tree has 2^60 leaves, over one node a level.
fn doubled_type(alloc: Global, leaf: &Ty) -> Result<Ty, AllocError> {
    let mut ty = leaf.copy()?;
    for _ in 0..60 {
        ty = Ty::fun(alloc, &ty, &ty)?;
    }
    Ok(ty)
}

// Whether the second and the third are the same, and come after the first.
fn are_ordered(ty: &Ty, one: &Ty, other: &Ty) -> bool {
    let is_before = ty.order(one) == Ordering::Less;
    is_before && one.same(other) && one.order(other) == Ordering::Equal
}

// Whether two functions on the type and to it are so.
fn is_compared(alloc: Global, ty: &Ty) -> Result<bool, AllocError> {
    let one = Ty::fun(alloc, ty, ty)?;
    let other = Ty::fun(alloc, ty, ty)?;
    Ok(are_ordered(ty, &one, &other))
}

// Whether the type is seen to be large, and without type variables.
fn is_sized(alloc: Global, ty: &Ty) -> Result<bool, AllocError> {
    Ok(ty.tyvars(alloc)?.is_empty() && ty.size() == 20_001)
}

fn is_large_type(alloc: Global, ty: &Ty) -> Result<bool, AllocError> {
    Ok(is_compared(alloc, ty)? && is_sized(alloc, ty)?)
}

fn is_type_large(alloc: Global, leaf: &Ty) -> Result<bool, AllocError> {
    let ty = doubled_type(alloc, leaf)?;
    is_large_type(alloc, &ty)
}

// The term as both arguments of an application.
fn pair(alloc: Global, f: &Term, t: &Term) -> Result<Term, TermError> {
    let half = Term::comb(alloc, f, t)?;
    Term::comb(alloc, &half, t)
}

// A term whose tree has the leaf at 2^60 places, over two nodes a level.
fn doubled(alloc: Global, f: &Term, leaf: &Term) -> Result<Term, TermError> {
    let mut t = leaf.copy()?;
    for _ in 0..60 {
        t = pair(alloc, f, &t)?;
    }
    Ok(t)
}

// Whether the two differ in names of binders alone.
fn are_equivalent(first: &Term, second: &Term) -> bool {
    let is_neither = alpha_order(first, second) == Ordering::Equal;
    is_neither && first.alpha_equivalent(second) && !first.same(second)
}

// Whether the two are the same, and under binders of two names differ in these alone.
fn are_alike(
    alloc: Global,
    one: &Term,
    other: &Term,
    x: &Term,
    y: &Term,
) -> Result<bool, TermError> {
    let first = Term::abs(alloc, x, one)?;
    let second = Term::abs(alloc, y, other)?;
    Ok(one.same(other) && are_equivalent(&first, &second))
}

// Whether two pairs of the term are so.
fn are_pairs_alike(
    alloc: Global,
    f: &Term,
    t: &Term,
    x: &Term,
    y: &Term,
) -> Result<bool, TermError> {
    let one = pair(alloc, f, t)?;
    let other = pair(alloc, f, t)?;
    are_alike(alloc, &one, &other, x, y)
}

// Whether the term is seen to be large, and without the variable.
fn is_without(t: &Term, x: &Term) -> bool {
    match x.node() {
        TermNode::Var(v) => t.size() == 20_001 && !t.vfree_in(v),
        _ => false,
    }
}

fn is_chained(alloc: Global, th: &Thm) -> Result<bool, KernelError> {
    let chained = Thm::trans(alloc, th, th)?;
    Ok(chained.hyps().is_empty())
}

// Whether TRANS chains the term's equation with itself.
fn is_equal_to_itself(alloc: Global, basis: &Basis, t: &Term) -> Result<bool, KernelError> {
    let th = Thm::refl(alloc, basis, t)?;
    is_chained(alloc, &th)
}

fn is_proved(alloc: Global, t: &Term) -> Result<bool, KernelError> {
    let basis = Basis::empty(alloc)?;
    is_equal_to_itself(alloc, &basis, t)
}

fn is_large(alloc: Global, f: &Term, p: &Term, x: &Term, y: &Term) -> Result<bool, Fail> {
    let t = doubled(alloc, f, p)?;
    let is_compared = is_without(&t, x) && are_pairs_alike(alloc, f, &t, x, y)?;
    Ok(is_compared && is_proved(alloc, &t)?)
}

fn is_term_large(written: &Written) -> Result<bool, Fail> {
    let terms = written.terms("f:A->A->A, p:A, x:A, y:A")?;
    match terms.as_slice() {
        [f, p, x, y] => is_large(written.alloc, f, p, x, y),
        _ => Ok(false),
    }
}

fn are_large(written: &Written) -> Result<bool, Fail> {
    let truth = written.term("T")?;
    Ok(is_type_large(written.alloc, truth.type_of())? && is_term_large(written)?)
}

#[test]
fn nothing_shared_is_walked(rt: HostRuntime) -> Result<(), Fail> {
    let written = Written::new(rt.alloc())?;
    assert!(rt; are_large(&written)?);
    Ok(())
}

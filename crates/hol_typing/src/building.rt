//! Terms from their skeletons, with named types in place of open slots.
ghost use Rattle.std.specs.Prelude.{◌≡◌, map, ◌<◌, length, slice_get, IfOk, IsOkUnless, OnOk, MatchOption, Some, None};
ghost use Rattle.hol_terms.specs.Named.{var, constant, abs};
ghost use Rattle.hol_terms.specs.Scope.{binders};
ghost use Rattle.hol_terms.specs.Nameless.{nameless, bound};
ghost use Rattle.hol_typing.specs.RawView.{slot_tree};
ghost use Rattle.hol_typing.specs.SlotTree.{SlotBound, typed, AreSlotsIn};
ghost use Rattle.hol_typing.specs.Scoped.{IsSlotScoped};
ghost use Rattle.hol_typing.specs.Found.{types_at};
ghost use Rattle.hol_typing.specs.Holes.{add_holes, open_type};
ghost use Rattle.hol_typing.specs.Solved.{IsWellTyped, term_holes};

use crate::shape::Shape;
use crate::skeleton::Skeleton;
use hol_terms::{Scope, Term, TermError, Variable};
use hol_types::{Name, Ty};
use std::alloc::{AllocError, Global};

/// Puts the open slots of the term at the end of the list as they occur, each unless it is there.
#[tactic(auto, using(crate::proofs::Holes::add_holes_append))]
pub fn add_term_holes(
    alloc: Global,
    shapes: &[Shape],
    term: &Skeleton,
    order: &mut Vec<usize>,
) -> Result<(), AllocError>
    requires { AreSlotsIn (length shapes.now) (slot_tree term.now) }
    ensures { OnOk result (order.new.items ≡ add_holes order.old.items (term_holes shapes.now (slot_tree term.now))) }
{
    match term {
        Skeleton::Bound(_) => Ok(()),
        Skeleton::Constant(_, slot) => shapes[*slot].add_holes(alloc, order),
        Skeleton::Free(_, slot) => shapes[*slot].add_holes(alloc, order),
        Skeleton::Apply(function, argument) => {
            add_term_holes(alloc, shapes, function, order)?;
            add_term_holes(alloc, shapes, argument, order)
        }
        Skeleton::Abstraction(_, slot, body) => {
            shapes[*slot].add_holes(alloc, order)?;
            add_term_holes(alloc, shapes, body, order)
        }
    }
}

// The variable of the abstraction that an index means.
fn variable_at<'a>(scope: &Scope<'a>, index: usize) -> Option<&'a Variable>
    ensures { MatchOption result (slice_get (binders scope.now) index ≡ None) (λ v. slice_get (binders scope.now) index ≡ Some v.now) }
{
    match scope {
        Scope::Outside => None,
        Scope::Inside(variable, outer) => {
            if index == 0 {
                Some(*variable)
            } else {
                variable_at(outer, index - 1)
            }
        }
    }
}

// The same, as a term.
fn bound_at(alloc: Global, scope: &Scope<'_>, index: usize) -> Result<Term, TermError>
    requires { IsSlotScoped (map (λ v. v.0) (binders scope.now)) (SlotBound index) }
    ensures ok { IfOk result (λ t. nameless (binders scope.now) t ≡ bound index) }
    ensures memory { IsOkUnless result TermError.Memory }
{
    match variable_at(scope, index) {
        Some(variable) => Ok(Term::var(alloc, variable)?),
        None => Err(TermError::NotAVariable),
    }
}

// The abstraction of the variable in a term.
fn abstracted(alloc: Global, variable: &Variable, body: &Term) -> Result<Term, TermError>
    ensures ok { IfOk result (λ t. t ≡ abs variable.now body.now) }
    ensures memory { IsOkUnless result TermError.Memory }
{
    Ok(Term::abstraction(alloc, variable, body)?)
}

// The type of a slot.
fn slot_type(
    alloc: Global,
    shapes: &[Shape],
    order: &[usize],
    slot: usize,
) -> Result<Ty, AllocError>
    requires { slot < length shapes.now }
    ensures { IfOk result (λ t. t ≡ types_at shapes.now (open_type order.now) slot) }
{
    shapes[slot].ty(alloc, order)
}

// The constant of the name, at the type of a slot.
fn constant_at(
    alloc: Global,
    shapes: &[Shape],
    order: &[usize],
    name: &Name,
    slot: usize,
) -> Result<Term, TermError>
    requires { slot < length shapes.now }
    ensures ok { IfOk result (λ t. t ≡ constant name.now (types_at shapes.now (open_type order.now) slot)) }
    ensures memory { IsOkUnless result TermError.Memory }
{
    let ty = slot_type(alloc, shapes, order, slot)?;
    Ok(Term::constant(alloc, name, &ty)?)
}

// The variable of the name, at the type of a slot.
fn variable_of(
    alloc: Global,
    shapes: &[Shape],
    order: &[usize],
    name: &Name,
    slot: usize,
) -> Result<Variable, AllocError>
    requires { slot < length shapes.now }
    ensures { IfOk result (λ v. v ≡ (name.now, types_at shapes.now (open_type order.now) slot)) }
{
    let ty = slot_type(alloc, shapes, order, slot)?;
    Variable::new(name, &ty)
}

// The same, as a term.
fn free_at(
    alloc: Global,
    shapes: &[Shape],
    order: &[usize],
    name: &Name,
    slot: usize,
) -> Result<Term, TermError>
    requires { slot < length shapes.now }
    ensures ok { IfOk result (λ t. t ≡ var (name.now, types_at shapes.now (open_type order.now) slot)) }
    ensures memory { IsOkUnless result TermError.Memory }
{
    let variable = variable_of(alloc, shapes, order, name, slot)?;
    Ok(Term::var(alloc, &variable)?)
}

/// The term of the skeleton, under binders.
pub fn build(
    alloc: Global,
    shapes: &[Shape],
    order: &[usize],
    scope: &Scope<'_>,
    term: &Skeleton,
) -> Result<Term, TermError>
    requires slots_in { AreSlotsIn (length shapes.now) (slot_tree term.now) }
    requires scoped { IsSlotScoped (map (λ v. v.0) (binders scope.now)) (slot_tree term.now) }
    requires well_typed { IsWellTyped (map (λ v. v.1) (binders scope.now)) (typed (types_at shapes.now (open_type order.now)) (slot_tree term.now)) }
    ensures ok { IfOk result (λ t. nameless (binders scope.now) t ≡ typed (types_at shapes.now (open_type order.now)) (slot_tree term.now)) }
    ensures memory { IsOkUnless result TermError.Memory }
{
    match term {
        Skeleton::Bound(index) => bound_at(alloc, &*scope, *index),
        Skeleton::Constant(name, slot) => constant_at(alloc, shapes, order, name, *slot),
        Skeleton::Free(name, slot) => free_at(alloc, shapes, order, name, *slot),
        Skeleton::Apply(function, argument) => {
            let left = build(alloc, shapes, order, &*scope, function)?;
            let right = build(alloc, shapes, order, &*scope, argument)?;
            Term::comb(alloc, &left, &right)
        }
        Skeleton::Abstraction(name, slot, body) => {
            let variable = variable_of(alloc, shapes, order, name, *slot)?;
            let inside = Scope::Inside(&variable, &*scope);
            let inner = build(alloc, shapes, order, &inside, body)?;
            abstracted(alloc, &variable, &inner)
        }
    }
}

//! The free variables of a goal, each once, in order: a variable's place among them is found by halves.
ghost use Rattle.std.specs.Prelude.{◌≡◌, ◌≤◌, OnOk, IfOk, MatchOption, length, take, true};
ghost use Rattle.std.specs.List.{insert};
ghost use Rattle.hol_terms.specs.Nameless.{nameless, free_occurrences};
ghost use Rattle.hol_terms.specs.Scope.{binders};
ghost use Rattle.hol_print.specs.ShowGoal.{variable_order, put_new, put_all};
ghost use Rattle.hol_print.specs.InOrder.{IsInOrder, IsAfter};

use crate::type_text::show_type;
use hol_terms::{Scope, Term, TermNode, Variable};
use std::alloc::{AllocError, Global};
use std::cmp::Ordering;

/// Puts each variable that is free under the binders in its place, unless it is there.
#[tactic(auto, using(hol_terms::proofs::Frees::place_free, crate::proofs::InOrder::put_all_append))]
pub(crate) fn put_free(
    alloc: Global,
    t: &Term,
    scope: &Scope,
    among: &mut Vec<Variable>,
) -> Result<(), AllocError>
    requires { IsInOrder among.old.items }
    ensures put { OnOk result (among.new.items ≡ put_all among.old.items (free_occurrences (nameless (binders scope.now) t.now))) }
    ensures ordered { OnOk result (IsInOrder among.new.items) }
{
    match t.node() {
        TermNode::Var(v) => {
            if scope.binds(v) {
                return Ok(());
            }
            put_new(alloc, v, among)
        }
        TermNode::Const(_, _) => Ok(()),
        TermNode::Comb(f, x) => {
            put_free(alloc, f, scope, among)?;
            put_free(alloc, x, scope, among)
        }
        TermNode::Abs(v, b) => put_free(alloc, b, &Scope::Inside(v, &*scope), among),
    }
}

/// Puts each of the variables in its place, unless it is there.
pub(crate) fn put_each(
    alloc: Global,
    variables: &[Variable],
    among: &mut Vec<Variable>,
) -> Result<(), AllocError>
    requires { IsInOrder among.old.items }
    ensures put { OnOk result (among.new.items ≡ put_all among.old.items variables.now) }
    ensures ordered { OnOk result (IsInOrder among.new.items) }
{
    for v in variables {
        put_new(alloc, v, among)?;
    }
    Ok(())
}

// Puts the variable in its place, unless it is there.
#[tactic(auto, using(crate::proofs::InOrder::put_ordered))]
fn put_new(alloc: Global, v: &Variable, among: &mut Vec<Variable>) -> Result<(), AllocError>
    requires { IsInOrder among.old.items }
    ensures put { OnOk result (among.new.items ≡ put_new v.now among.old.items) }
    ensures ordered { OnOk result (IsInOrder among.new.items) }
{
    if let Some(at) = place_of(alloc, v, among)? {
        among.insert(at, v.copy()?)?;
    }
    Ok(())
}

// The place of a variable that is not there: before the first that comes after it.
#[tactic(auto, using(crate::proofs::InOrder::split, crate::proofs::InOrder::found, crate::proofs::InOrder::stands, crate::proofs::InOrder::passed, crate::proofs::InOrder::at_end, crate::proofs::InOrder::not_same))]
fn place_of(alloc: Global, v: &Variable, among: &[Variable]) -> Result<Option<usize>, AllocError>
    requires { IsInOrder among.now }
    ensures { IfOk result (λ place. MatchOption place (put_new v.now among.now ≡ among.now) (λ at. (at ≤ length among.now) × (put_new v.now among.now ≡ insert among.now at v.now))) }
{
    let mut at = count_below(alloc, v, among)?;
    'places: while at < among.len() {
        match variable_order(alloc, v, &among[at])? {
            Ordering::Less => return Ok(Some(at)),
            Ordering::Equal => {
                if among[at].same(v) {
                    return Ok(None);
                }
                at += 1;
            }
            Ordering::Greater => at += 1,
        }
    }
    Ok(Some(among.len()))
}

// How many variables at the front come before the variable.
#[tactic(auto, using(crate::proofs::InOrder::after_more))]
fn count_below(alloc: Global, v: &Variable, among: &[Variable]) -> Result<usize, AllocError>
    requires { IsInOrder among.now }
    ensures { IfOk result (λ n. (n ≤ length among.now) × IsAfter v.now (take n among.now)) }
{
    if is_after_last(alloc, v, among)? {
        return Ok(among.len());
    }
    let mut low = 0;
    let mut high = among.len();
    'halves: while low < high {
        let middle = low + (high - low) / 2;
        match variable_order(alloc, v, &among[middle])? {
            Ordering::Greater => low = middle + 1,
            Ordering::Less | Ordering::Equal => high = middle,
        }
    }
    Ok(low)
}

// Whether the variable comes after the last, and so after all.
#[tactic(auto, using(crate::proofs::InOrder::after_last))]
fn is_after_last(alloc: Global, v: &Variable, among: &[Variable]) -> Result<bool, AllocError>
    requires { IsInOrder among.now }
    ensures { IfOk result (λ b. b ≡ true → IsAfter v.now (take (length among.now) among.now)) }
{
    if among.is_empty() {
        return Ok(true);
    }
    Ok(variable_order(alloc, v, &among[among.len() - 1])?.is_gt())
}

// The order of variables: by the bytes of the names, then of the types' texts, which are written only where the types differ.
#[tactic(auto, using(crate::proofs::InOrder::same_type))]
fn variable_order(alloc: Global, v: &Variable, w: &Variable) -> Result<Ordering, AllocError>
    ensures { IfOk result (λ order. order ≡ variable_order v.now w.now) }
{
    match v.name().order(w.name()) {
        Ordering::Equal => {
            if v.ty().same(w.ty()) {
                return Ok(Ordering::Equal);
            }
            let left = show_type(alloc, v.ty())?;
            let right = show_type(alloc, w.ty())?;
            Ok(left.as_str().cmp(right.as_str()))
        }
        unequal => Ok(unequal),
    }
}

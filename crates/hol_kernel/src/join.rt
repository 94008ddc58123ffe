//! Bases put together.
ghost use Rattle.std.specs.Prelude.{◌≡◌, [], ◌∷◌, ◌++◌, true, IfOk, OnOk, MatchOption, Some, None};
ghost use Rattle.std.specs.Set.{sorted_merge};
ghost use Rattle.std.specs.FinSet as set;
ghost use Rattle.hol_kernel.specs.Items.{IsSubset};
ghost use Rattle.hol_kernel.specs.Legal.{HasNewKeys, IsSound};
ghost use Rattle.hol_kernel.specs.Extends.{Agree};
ghost use Rattle.hol_kernel.specs.Gives.{Joins};
ghost use Rattle.hol_kernel.specs.Clashing.{name_order, clash_of, clash_with, clash_between};

use crate::basis::Basis;
use crate::error::KernelError;
use crate::item::Item;
use hol_types::Name;
use std::alloc::{AllocError, Global};
use std::cmp::Ordering;

impl Basis {
    /// The basis of the items of both.
    ///
    /// Answers [`KernelError::Clash`] where two different items, one of each, have one name of a type, of a constant or of an axiom:
    /// with such a name.
    pub fn join(alloc: Global, a: &Basis, b: &Basis) -> Result<Basis, KernelError>
        ensures joins { Joins a.now b.now result }
        ensures first { IfOk result (λ u. IsSubset a.now u) }
        ensures second { IfOk result (λ u. IsSubset b.now u) }
    {
        if let Some(name) = clash_between(a.items(), b.items()) {
            return Err(KernelError::Clash(name.copy()?));
        }
        Ok(Basis::union(alloc, a, b)?)
    }

    /// The basis of the items of both, which agree: as [`Basis::join`], which looks for a clash first.
    pub fn union(alloc: Global, a: &Basis, b: &Basis) -> Result<Basis, AllocError>
        requires { Agree a.now b.now }
        ensures { IfOk result (λ u. u ≡ set.union a.now b.now) }
    {
        let all = merged(alloc, a.items(), b.items())?;
        Basis::made(alloc, all)
    }

    /// The basis with one item more.
    pub(crate) fn extended(&self, alloc: Global, item: Item) -> Result<Basis, AllocError>
        requires new { HasNewKeys self.now item }
        requires sound { IsSound self.now item }
        ensures is { IfOk result (λ basis. basis ≡ set.insert self.now item) }
        ensures larger { IfOk result (λ basis. IsSubset self.now basis) }
    {
        let mut one = Vec::new(alloc);
        one.push(item)?;
        let all = merged(alloc, self.items(), &one)?;
        Basis::made(alloc, all)
    }
}

// A name of both items, if they differ.
fn clash_of<'a>(x: &'a Item, y: &Item) -> Option<&'a Name>
    ensures { MatchOption result (clash_of x.now y.now ≡ None) (λ name. clash_of x.now y.now ≡ Some name.now) }
{
    let name = x.shared_name(y)?;
    if x.same(y) {
        return None;
    }
    Some(name)
}

// A name that the item has and a different one of the list.
fn clash_with<'a>(items: &'a [Item], y: &Item) -> Option<&'a Name>
    ensures { MatchOption result (clash_with items.now y.now ≡ None) (λ name. clash_with items.now y.now ≡ Some name.now) }
{
    for x in items {
        if let Some(name) = clash_of(x, y) {
            return Some(name);
        }
    }
    None
}

// A name that two different items have, one of each list.
fn clash_between<'a>(items: &'a [Item], others: &[Item]) -> Option<&'a Name>
    ensures { MatchOption result (clash_between items.now others.now ≡ None) (λ name. clash_between items.now others.now ≡ Some name.now) }
{
    for y in others {
        if let Some(name) = clash_with(items, y) {
            return Some(name);
        }
    }
    None
}

// Two lists in order made one, with an item of both once.
fn merged(alloc: Global, first: &[Item], second: &[Item]) -> Result<Vec<Item>, AllocError>
    ensures { IfOk result (λ all. all.items ≡ sorted_merge name_order true first.now second.now) }
{
    let mut all = Vec::with_capacity(alloc, first.len().saturating_add(second.len()))?;
    let mut i = 0;
    let mut j = 0;
    while i < first.len() && j < second.len() {
        match first[i].name_order(&second[j]) {
            Ordering::Less => {
                push_copy(&mut all, &first[i])?;
                i += 1;
            }
            Ordering::Equal => {
                push_copy(&mut all, &first[i])?;
                i += 1;
                j += 1;
            }
            Ordering::Greater => {
                push_copy(&mut all, &second[j])?;
                j += 1;
            }
        }
    }
    copy_to(&mut all, &first[i..])?;
    copy_to(&mut all, &second[j..])?;
    Ok(all)
}

// Puts a copy of the item at the end.
fn push_copy(all: &mut Vec<Item>, x: &Item) -> Result<(), AllocError>
    ensures { OnOk result (all.new.items ≡ all.old.items ++ x.now ∷ []) }
{
    all.push(x.copy()?)?;
    Ok(())
}

// Puts copies of the items at the end.
fn copy_to(all: &mut Vec<Item>, items: &[Item]) -> Result<(), AllocError>
    ensures { OnOk result (all.new.items ≡ all.old.items ++ items.now) }
{
    for x in items {
        push_copy(all, x)?;
    }
    Ok(())
}

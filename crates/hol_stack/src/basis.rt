//! The union of two bases.
ghost use Rattle.std.specs.Prelude.{◌≡◌, true, is_some, IfOk};
ghost use Rattle.std.specs.FinSet as set;
ghost use Rattle.hol_kernel.specs.Clashing.{shared_in};
ghost use Rattle.hol_kernel.specs.Extends.{Agree};
ghost use Rattle.hol_kernel.specs.Items.{IsSubset};
ghost use Rattle.hol_kernel.specs.Signature.{item_keys};

use hol_kernel::{Basis, Item};
use std::alloc::{AllocError, Global};

/// The basis of the items of both, which agree: where one has all items of the other, it is that one.
pub fn joined(alloc: Global, left: &Basis, right: &Basis) -> Result<Basis, AllocError>
    requires { Agree left.now right.now }
    ensures { IfOk result (λ basis. basis ≡ set.union left.now right.now) }
{
    if is_within(right, left) {
        return left.copy();
    }
    if is_within(left, right) {
        return right.copy();
    }
    Basis::union(alloc, left, right)
}

// Whether the second basis has all items of the first, with which it agrees. Copies of one basis and a longer list aren't walked.
fn is_within(part: &Basis, whole: &Basis) -> bool
    requires { Agree whole.now part.now }
    ensures { result ≡ true → IsSubset part.now whole.now }
{
    if part.same_node(whole) {
        return true;
    }
    part.items().len() <= whole.items().len() && is_found_in(part, whole)
}

// The same by one walk over both, which are in one order, by names. Most bases that a command joins lie within one another.
fn is_found_in(part: &Basis, whole: &Basis) -> bool
    requires { Agree whole.now part.now }
    ensures { result ≡ true → IsSubset part.now whole.now }
{
    let items = part.items();
    let mut found = 0;
    for item in whole.items() {
        if found < items.len() && has_shared_name(item, &items[found]) {
            found += 1;
        }
    }
    found == items.len()
}

// Whether one name is both items'.
fn has_shared_name(x: &Item, y: &Item) -> bool
    ensures { result ≡ is_some (shared_in (item_keys x.now) y.now) }
{
    x.shared_name(y).is_some()
}

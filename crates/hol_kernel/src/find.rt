//! Items that have a name, in a list that is in order.
ghost use Rattle.std.specs.Prelude.{◌≡◌, true, None, option_copied};
ghost use Rattle.std.specs.List.{find};
ghost use Rattle.std.specs.List.Sorted.{IsStrictlySortedBy};
ghost use Rattle.hol_kernel.specs.Items.{item_cmp};
ghost use Rattle.hol_kernel.specs.Signature.{has_key};
ghost use Rattle.hol_kernel.specs.Clashing.{key_at};
ghost use Rattle.hol_kernel.specs.Places.{outside, apart};

use crate::item::Item;
use crate::item_kind::ItemKind;
use hol_types::Name;

// As many items are looked at one by one.
const FEW: usize = 8;

/// The first item that has the name, as one of this kind. A half whose first and last item show that none of it has the name is left out: so the time goes
/// with the logarithm of the number of items, and where a constant is looked for also with the number of type definitions, whose constants have any names.
pub(crate) fn find_named<'a>(items: &'a [Item], kind: ItemKind, name: &Name) -> Option<&'a Item>
    requires { IsStrictlySortedBy item_cmp items.now }
    ensures { option_copied result ≡ find (λ x. has_key x (key_at kind name.now)) items.now }
{
    if items.len() <= FEW {
        return first_named(items, kind, name);
    }
    if lacks(items, kind, name) {
        return None;
    }
    let (front, back) = items.split_at(items.len() / 2);
    match find_named(front, kind, name) {
        Some(item) => Some(item),
        None => find_named(back, kind, name),
    }
}

// The first item that has the name, as one of this kind.
fn first_named<'a>(items: &'a [Item], kind: ItemKind, name: &Name) -> Option<&'a Item>
    ensures { option_copied result ≡ find (λ x. has_key x (key_at kind name.now)) items.now }
{
    for item in items {
        if item.has_name(kind, name) {
            return Some(item);
        }
    }
    None
}

// Whether the first item and the last one show that none has the name, as one of this kind.
fn lacks(items: &[Item], kind: ItemKind, name: &Name) -> bool
    requires { IsStrictlySortedBy item_cmp items.now }
    ensures { result ≡ true → find (λ x. has_key x (key_at kind name.now)) items.now ≡ None }
{
    let Some(first) = items.first() else {
        return false;
    };
    let Some(last) = items.last() else {
        return false;
    };
    is_apart(first, last, kind, name)
}

// Whether none from the first item to the last one in order has the name, as one of this kind.
fn is_apart(first: &Item, last: &Item, kind: ItemKind, name: &Name) -> bool
    ensures { result ≡ apart kind name.now first.now last.now }
{
    match kind {
        ItemKind::Axiom => is_outside(first, last, 0, name),
        ItemKind::Constant => {
            !last.is_type_definition()
                && (is_outside(first, last, 1, name) && is_outside(first, last, 2, name))
        }
        ItemKind::Type => is_outside(first, last, 3, name) && is_outside(first, last, 4, name),
    }
}

// Whether none from the first item to the last one in order is of the kind's rank and of the name.
fn is_outside(first: &Item, last: &Item, rank: u8, name: &Name) -> bool
    ensures { result ≡ outside rank name.now first.now last.now }
{
    first.place_order(rank, name).is_gt() || last.place_order(rank, name).is_lt()
}

//! Lists of names, and of types for names.
ghost use Rattle.std.specs.Prelude.{◌≡◌, ◌≤◌, OnOk, MatchOption, Some, None, length};
ghost use Rattle.std.specs.List.{insert};
ghost use Rattle.hol_types.specs.Names.{insert_name, is_among};
ghost use Rattle.hol_types.specs.Subst.{type_lookup};

use crate::name::Name;
use crate::ty::Ty;
use std::alloc::AllocError;
use std::cmp::Ordering;

/// Whether the name is one of these.
pub fn is_among(names: &[Name], name: &Name) -> bool
    ensures { result ≡ is_among names.now name.now }
{
    for other in names {
        if name.same(other) {
            return true;
        }
    }
    false
}

/// Puts the name in its place in a list in order of bytes, unless it is there.
pub fn insert_name(names: &mut Vec<Name>, name: &Name) -> Result<(), AllocError>
    ensures { OnOk result (names.new.items ≡ insert_name name.now names.old.items) }
{
    if let Some(at) = place_of(names, name) {
        names.insert(at, name.copy()?)?;
    }
    Ok(())
}

// The place of a name that is not there.
fn place_of(names: &[Name], name: &Name) -> Option<usize>
    ensures { MatchOption result (insert_name name.now names.now ≡ names.now) (λ at. (at ≤ length names.now) × (insert_name name.now names.now ≡ insert names.now at name.now)) }
{
    for (i, other) in names.iter().enumerate() {
        match name.order(other) {
            Ordering::Less => return Some(i),
            Ordering::Equal => return None,
            Ordering::Greater => {}
        }
    }
    Some(names.len())
}

/// The type that stands for the name: the first pair of the name counts.
pub fn type_in<'a>(pairs: &'a [(Ty, Name)], name: &Name) -> Option<&'a Ty>
    ensures { MatchOption result (type_lookup pairs.now name.now ≡ None) (λ ty. type_lookup pairs.now name.now ≡ Some ty.now) }
{
    for pair in pairs {
        if pair.1.same(name) {
            return Some(&pair.0);
        }
    }
    None
}

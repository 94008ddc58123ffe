//! Filters of the names of keys.
ghost use Rattle.std.specs.Prelude.{◌≡◌};
ghost use Rattle.hol_exec.specs.Filters.{HasNames};

use hol_theory::Key;
use hol_types::NameFilter;

/// A filter that has the names of the keys.
#[tactic(auto, using(crate::proofs::NameFilters::names_all))]
pub(crate) fn names_of(keys: &[Key]) -> NameFilter
    ensures { HasNames result.bits keys.now }
{
    let mut names = NameFilter::empty();
    for key in keys {
        names = names.union(key.filter());
    }
    names
}

//! Whether values are the same: terms by their nameless terms, base names included, theorems by their bases too.
ghost use Rattle.std.specs.Prelude.{◌≡◌, ◌↔◌, IsTrue, map, []};
ghost use Rattle.hol_terms.specs.Nameless.{nameless};

use hol_goal::Goal;
use hol_terms::Term;
use hol_theory::{Key, Value};

/// What can be compared.
pub(crate) trait Same {
    /// Whether both are the same.
    fn same_as(&self, other: &Self) -> bool
        ensures { IsTrue result ↔ (self.now ≡ other.now) };
}

/// Whether the lists have the same elements in the same order.
pub(crate) fn same_each<T: Same>(left: &[T], right: &[T]) -> bool
    ensures { IsTrue result ↔ (left.now ≡ right.now) }
{
    if left.len() != right.len() {
        return false;
    }
    for (i, x) in left.iter().enumerate() {
        if !x.same_as(&right[i]) {
            return false;
        }
    }
    true
}

// Whether the terms are the same, one by one.
fn same_terms(left: &[Term], right: &[Term]) -> bool
    ensures { IsTrue result ↔ (map (nameless []) left.now ≡ map (nameless []) right.now) }
{
    if left.len() != right.len() {
        return false;
    }
    for (i, t) in left.iter().enumerate() {
        if !t.same(&right[i]) {
            return false;
        }
    }
    true
}

impl Same for Goal {
    fn same_as(&self, other: &Goal) -> bool {
        same_terms(self.assumptions(), other.assumptions())
            && self.conclusion().same(other.conclusion())
    }
}

impl Same for Value {
    fn same_as(&self, other: &Value) -> bool {
        self.same(other)
    }
}

impl Same for (Key, Option<Value>) {
    fn same_as(&self, other: &(Key, Option<Value>)) -> bool {
        self.0 == other.0 && same_options(&self.1, &other.1)
    }
}

/// Whether both are the same, or nothing.
pub(crate) fn same_options<T: Same>(left: &Option<T>, right: &Option<T>) -> bool
    ensures { IsTrue result ↔ (left.now ≡ right.now) }
{
    match (left, right) {
        (None, None) => true,
        (Some(left), Some(right)) => left.same_as(right),
        (None, Some(_)) | (Some(_), None) => false,
    }
}

//! What a run may still use.

use hol_types::Name;

/// What a run may still use, turns, and the names that it tested so far, in order.
#[derive(Drop)]
pub struct Used {
    /// The turns left.
    pub left: u32,
    /// The names that were tested.
    pub tested: Vec<Name>,
}

//! Registered functions on goals.

use hol_goal::TacCode;

/// A registered function on goals: its index in the registry, and its code.
#[derive(Clone, Copy)]
pub(crate) struct RegisteredTac {
    /// Its index.
    pub(crate) index: usize,
    /// Its code.
    pub(crate) code: TacCode,
}

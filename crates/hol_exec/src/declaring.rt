//! Commands that make types, constants, axioms and definitions.

mod defining;
mod made;

pub(crate) use made::making;

//! The prelude's derived theorems: ONE_ONE, ONTO and the basic rewrites, each made at once: that it has a derivation by the kernel's rules is
//! proved.
//!
//! Calls that answer a `Result` answer its memory error where memory is short, and nowhere else.
#![tactic(auto)]

mod functions;
mod rewrites;
mod stated;

pub use functions::{one_one, onto};
pub use rewrites::{
    and_clauses, eq_clauses, imp_clauses, not_clauses_weak, or_clauses, refl_clause,
};

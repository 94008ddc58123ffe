//! The prelude: HOL Light's definitions and axioms, and the basic rewrites, as theorems by their names.
//!
//! Calls that answer a `Result` answer its memory error where memory is short, and nowhere else.
#![tactic(auto)]

mod prelude;

pub use prelude::Prelude;

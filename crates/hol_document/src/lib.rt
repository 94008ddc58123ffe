//! Documents under edit, and what running them afresh says.
//!
//! A call that answers a `Result` answers its memory error where memory is short, and nowhere else.
#![tactic(auto)]

mod asked;
mod cache;
mod docs;
mod drift;
mod editable;
mod error;
mod growing;
mod items;
mod laws;
mod line;
mod redo;
mod runner;
mod settle;
mod slot;
mod theories;
mod theory;

pub use docs::{COMMAND_LIMIT, Docs, THEORY_LIMIT};
pub use editable::Editable;
pub use error::{DocsError, Refusal};
pub use laws::{
    bases_are_unique, finished_proofs_have_their_goals, lists_are_unique, reports_are_unique,
    rows_are_unique,
};

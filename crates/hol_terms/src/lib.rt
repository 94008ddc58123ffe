//! Named terms, which contracts see as trees, and their nameless terms.
//!
//! A call that answers a `Result` answers the error of memory where memory is short, and nowhere else.
#![tactic(auto)]

mod base;
mod basic;
mod lists;
mod scope;
mod term;
mod variable;

pub use base::base_name;
pub use lists::{add_copies, contains, copies};
pub use scope::{Scope, same_place, with_binders};
pub use term::{Term, TermError, TermNode};
pub use variable::Variable;

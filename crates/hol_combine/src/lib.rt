//! Expressions of functions on goals, and their runs: the tacticals of HOL Light over a registry.
//!
//! Calls that answer a `Result` answer its memory error where memory is short, and nowhere else.
#![tactic(auto)]

mod beginning;
mod calls;
mod expr;
mod formula;
mod handing;
mod laws;
mod parts;
mod pending;
mod pursuing;
mod ran;
mod resuming;
mod running;
mod sizes;
mod tacs;
mod theorem_tacs;
mod work;

pub use expr::{Expr, ExprNode, Handing, TacCall, TheoremTac};
pub use formula::Formula;
pub use laws::{repeat_law, runs_need_the_tested_names_alone};
pub use ran::{Ran, Refusal, RunError};
pub use running::run;

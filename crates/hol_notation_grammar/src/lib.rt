//! The grammar of all that is written, as a table of productions, and the machine that reads by it.
//!
//! Calls that answer a `Result` answer its memory error where memory is short, and nowhere else.
#![tactic(auto)]

mod grammar;
mod machine;
mod number;
mod sort;

pub use grammar::{Class, Production, Rule, Symbol};
pub use machine::{Step, read};
pub use number::number_value;
pub use sort::Sort;

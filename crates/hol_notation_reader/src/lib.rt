//! The reader of what is written: from any text to its command, or to the byte where it fails.
//!
//! Calls that answer a `Result` answer its memory error where memory is short, and nowhere else. Reading takes no call stack over the text: the
//! machine and the building of values keep stacks of their own.
#![tactic(auto)]

mod arguments;
mod build;
mod commands;
mod definitions;
mod fold;
mod insides;
mod laws;
mod piece;
mod reader;
mod tactics;
mod terms;
mod theorems;
mod types;

pub use laws::one_reading;
pub use reader::{read_command, read_term, read_theorem, read_type};

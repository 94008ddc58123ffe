//! Commands as they are written.
//!
//! Calls that answer a `Result` answer its memory error where memory is short, and nowhere else.
#![tactic(auto)]

mod command;
mod type_definition;

pub use command::{Command, CommandNode, DirectCommand, LocalCommand, Making};
pub use type_definition::TypeDefinition;

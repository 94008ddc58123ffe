//! Goals, the names that constants have, the codes of the functions on goals, and what these take.
//!
//! Calls that answer a `Result` answer its memory error where memory is short, and nowhere else.
#![tactic(auto)]

mod goal;
mod lists;
mod name_part;
mod names;
mod tac_args;
mod tac_code;
mod used;

pub use goal::{Goal, total_size};
pub use lists::{add_copies, copies};
pub use names::Names;
pub use tac_args::{ArgumentKind, TacArgs};
pub use tac_code::TacCode;
pub use used::Used;

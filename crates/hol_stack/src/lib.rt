//! Goal stacks (HOL Light's tactics.ml): a goal, and the history of what was left of it.
//!
//! Calls that answer a `Result` answer its memory error where memory is short, and nowhere else.
#![tactic(auto)]

mod basis;
mod element;
mod error;
mod finishing;
mod shared_step;
mod stack;
mod weight;

pub use basis::joined;
pub use element::Element;
pub use error::StackError;
pub use shared_step::SharedStep;
pub use stack::Stack;

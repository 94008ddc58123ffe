//! Definitions of functions: what they say of all arguments (HOL Light's bool.ml, new_definition).
//!
//! Calls that answer a `Result` answer its memory error where memory is short, and nowhere else.
#![tactic(auto)]

mod generalizing;

pub use generalizing::for_all;

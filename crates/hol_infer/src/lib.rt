//! The types that inference gives to terms as they are written.
//!
//! A call that answers a `Result` answers the error of memory where memory is short, and nowhere else.
#![tactic(auto)]

mod constants;
mod definition;
mod elaboration;
mod laws;
mod reading;
mod resolving;

pub use elaboration::{elaborate, elaborate_definition, elaborate_type};
pub use laws::{one_reading, readings_stand};
pub use reading::ReadingError;

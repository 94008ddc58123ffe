//! Registered functions on goals: a name, a code, and a closure that does what the code means.
//!
//! The closures are boxed by the caller. Calls that answer a `Result` answer its memory error where memory is short, and nowhere else.
#![tactic(auto)]

mod entry;
mod error;
mod named;
mod registry;

pub use entry::Entry;
pub use error::RegistryError;
pub use registry::Registry;

//! The types of terms whose identifiers are resolved.
//!
//! A call that answers a `Result` answers the error of memory where memory is short, and nowhere else.
#![tactic(auto)]

mod building;
mod cell;
mod expanding;
mod fault;
mod finding;
mod generate;
mod graph;
mod numbering;
mod order;
mod principal;
mod raw;
mod scheme;
mod shape;
mod skeleton;

pub use building::{add_term_holes, build};
pub use fault::Fault;
pub use principal::{Typed, principal_typing, size};
pub use raw::RawTerm;
pub use scheme::{Scheme, Variables};
pub use shape::{Shape, TOO_LARGE};
pub use skeleton::{Scope, Skeleton};

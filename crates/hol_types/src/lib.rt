//! Types: finite trees of variables and constructors, with shared nodes.
//!
//! A call that answers a `Result` answers the error of memory where memory is short, and nowhere else.
#![tactic(auto)]

mod constructor;
mod filter;
mod known;
pub mod laws;
mod lists;
mod name;
mod ty;

pub use constructor::is_basic_constructor;
pub use filter::NameFilter;
pub use known::KnownName;
pub use lists::{insert_name, is_among, type_in};
pub use name::Name;
pub use ty::{Ty, TyNode};

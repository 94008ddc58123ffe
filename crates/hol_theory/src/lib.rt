//! The entries of a theory: an ordered map from keys to types, constants, theorems and functions on goals, whose items are a legal list.
//!
//! Calls that answer a `Result` answer its memory error where memory is short, and nowhere else.
#![tactic(auto)]

mod env;
mod error;
mod key;
mod laws;
mod layer;
mod making;
mod older;
mod same;
mod same_expr;
mod value;

pub use env::Env;
pub use error::EnvError;
pub use key::{Key, Kind};
pub use laws::{
    axioms_are_stated, declared_entries_follow, defined_entries_follow, free_keys_are_new_names,
    theorems_follow,
};
pub use making::{
    DefinedNames, Entries, item_at, item_entries, new_axiom, new_constant, new_definition, new_tac,
    new_type, new_type_definition,
};
pub use same::same_basis;
pub use value::{Value, ValueNode};

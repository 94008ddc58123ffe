//! The kernel: theorems, each of which has a derivation by HOL Light's primitive rules over a legal set of items.
//!
//! Calls that answer a `Result` answer its memory error where memory is short, and nowhere else.
#![tactic(auto)]

mod axiom;
mod basis;
mod declare;
mod define;
mod derived;
mod error;
mod find;
mod given;
mod instances;
mod item;
mod item_kind;
mod item_names;
mod join;
mod laws;
mod prelude;
mod rules;
mod statements;
mod thm;
mod type_define;
mod type_definition;

pub use basis::Basis;
pub use error::{KernelError, Rule};
pub use given::{Given, GivenNode};
pub use hol_formulas::{Postulate, instances_are_substitutions, prelude_constants, prelude_types};
pub use item::{Item, ItemNode};
pub use item_kind::ItemKind;
pub use laws::rules_widen;
pub use thm::Thm;
pub use type_definition::TypeDefinition;

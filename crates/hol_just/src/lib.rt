//! Justifications: theorems of goals from theorems of the goals that were left of them.
//!
//! Calls that answer a `Result` answer its memory error where memory is short, and nowhere else.
//!
//! A theorem that was used is let go by a call of `drop`: where a scope ends with it, a check goes through the drops of all its parts.
#![tactic(auto)]

mod assuming;
mod bool_steps;
mod by_theorems;
mod conversion_steps;
mod conversions;
mod cursor;
mod elimination_steps;
mod equal_steps;
mod hypotheses;
mod just;
mod justifying;
mod laws;
mod matching;
mod matching_steps;
mod reason;
mod refusals;
mod steps;
mod tacs;
mod tried;

pub use assuming::assumption;
pub use conversions::conversion_typed;
pub use hypotheses::are_assumed;
pub use just::Just;
pub use justifying::justify;
pub use laws::{
    fresh_names_are_new, none_is_valid, opening_goes_by_quantifiers, strip_goes_by_pieces,
    valid_at_a_place, valid_from_assumption, valid_one_after_the_other, valid_under,
    validity_is_a_proposition,
};
pub use reason::{Move, Reason};
pub use tried::{Step, TacFault, Tried};

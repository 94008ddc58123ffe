//! Laws of derivations: the rules, the prelude and definitions don't prove F, but by the axiom of infinity. They are shown by a model, in proofs/.
#![tactic(auto)]

mod definitions;
mod infinite;
mod laws;
mod nodes;
mod theorems;

pub use definitions::{
    abstractions_bind, derived_is_well_typed, legal_items_are_typed, names_stand_once,
    orders_are_total, type_variables_are_those_that_occur, typed_by_rules,
};
pub use infinite::falsity_fails_in_infinite_universe;
pub use laws::{
    definitions_need_infinity_for_falsity, false_theorem_needs_infinity, falsity_needs_infinity,
    infinity_is_one_leaf, rules_use_what_premises_use,
};
pub use nodes::{derivations_end_with_rules, nodes_are_made_by_rules};
pub use theorems::false_thm_needs_infinity;
